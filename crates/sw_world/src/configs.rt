// One empty configuration for all loads of a body that give nothing.
ghost use Rattle.std.specs.Prelude.{◌≡◌, [], IfOk, IfSome, OnOk};

use crate::{Answer, Given, Question};
use sw_text::{List, Memory, Shared};

/// The same questions, whose empty configurations are one in memory: asked again, they look at that and not at one of
/// each.
pub(crate) fn share_configs(
    seen: List<(Question, Answer)>,
) -> Result<List<(Question, Answer)>, Memory>
    ensures { IfOk result (λ same. same ≡ seen) }
{
    let Some(empty) = empty_config(seen.as_slice())? else {
        return Ok(seen);
    };
    let mut pairs = seen.into_vec();
    for at in 0..pairs.len() {
        share_config(&empty, &mut pairs[at].0)?;
    }
    Ok(List::from_vec(pairs))
}

// The first empty configuration of a load.
fn empty_config(seen: &[(Question, Answer)]) -> Result<Option<Shared<List<Given>>>, Memory>
    ensures { IfOk result (λ found. IfSome found (λ config. config ≡ [])) }
{
    for at in 0..seen.len() {
        if let Question::Load { config, .. } = &seen[at].0 {
            if config.get().is_empty() {
                return Ok(Some(config.share()?));
            }
        }
    }
    Ok(None)
}

// Puts an empty configuration in the place of that of a load, where that is empty too.
fn share_config(empty: &Shared<List<Given>>, op: &mut Question) -> Result<(), Memory>
    requires { empty.now ≡ [] }
    ensures { OnOk result (op.new ≡ op.old) }
{
    if let Question::Load { config, .. } = op {
        if config.get().is_empty() {
            *config = empty.share()?;
        }
    }
    Ok(())
}
