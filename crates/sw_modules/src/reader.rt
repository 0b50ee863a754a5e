// How texts are read.
ghost use Rattle.std.specs.Prelude.{◌≡◌, ◌≤◌, ℕ, List, Result, length, IfOk};
ghost use Rattle.sw_folder.specs.Files.{most_bytes};
ghost use Rattle.sw_text.specs.declared.fault.Fault.{Fault};
ghost use Rattle.sw_tree.specs.declared.sheet.Sheet.{Sheet};

use std::alloc::Global;
use sw_text::{Fault, Memory, Name, Shared};
use sw_tree::Sheet;

/// What makes a sheet of a text. `reads` says which sheet or which fault a text at a path gives, the same for all
/// values of the type.
pub trait Reader {
    ghost reads: { List ℕ → List ℕ → Result Sheet Fault };

    /// The sheet of a text at a path, or the fault with which it doesn't read.
    fn read(
        &self,
        alloc: Global,
        path: &Name,
        text: &Name,
    ) -> Result<Result<Shared<Sheet>, Fault>, Memory>
        requires { length text.now ≤ most_bytes }
        ensures { IfOk result (λ reading. reading ≡ reads path.now text.now) };
}
