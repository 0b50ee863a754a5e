// What answers calls of a sheet.
ghost use Rattle.std.specs.Prelude.{◌≡◌, ℕ, List, IfOk, OnErr};
ghost use Rattle.sw_hosts.specs.Kinds.{host_row};

use std::alloc::Global;
use sw_text::{List, Memory};
use sw_values::Value;

/// A function of the host. No call changes its kind; what it answers, and its state behind the call, are given by its
/// kind, its state and the arguments.
pub trait HostFn: Drop {
    ghost kind: { Self → ℕ };

    ghost state: { Self → List ℕ };

    /// The value for these positional arguments. After `Memory` all is as before.
    fn call(&mut self, alloc: Global, args: &List<Value>) -> Result<Value, Memory>
        ensures kind { kind self.new ≡ kind self.old }
        ensures value { IfOk result (λ value. value ≡ (host_row (kind self.old) (state self.old) args.now).value) }
        ensures next { IfOk result (λ _. state self.new ≡ (host_row (kind self.old) (state self.old) args.now).next) }
        ensures kept { OnErr result (self.new ≡ self.old) }
        ensures same { OnErr result (state self.new ≡ state self.old) };
}
