// What an evaluation rests on.
ghost use Rattle.sw_modules.specs.Fresh.{Setting, setting_of};

use crate::Reader;
use sw_world::{Engine, Hosts};

/// A reader of texts, an engine and a host: together they have what an evaluation rests on, which clauses cite as
/// `setting`.
pub trait HasSetting {
    ghost setting: { Setting };
}

impl<R: Reader, E: Engine, H: Hosts> HasSetting for (R, E, H) {
    ghost setting = { setting_of H.answer H.after R.reads E.body };
}
