// A box of any host function is one.
ghost use Rattle.std.specs.Prelude.{◌≡◌, IfOk, OnErr};
ghost use Rattle.sw_hosts.specs.Kinds.{host_row};

use crate::HostFn;
use std::alloc::Global;
use sw_text::{List, Memory};
use sw_values::Value;

impl HostFn for Box<dyn HostFn> {
    ghost kind = { λ host. (HostFn-box host).kind host.value };

    ghost state = { λ host. (HostFn-box host).state host.value };

    fn call(&mut self, alloc: Global, args: &List<Value>) -> Result<Value, Memory> {
        (**self).call(alloc, args)
    }
}
