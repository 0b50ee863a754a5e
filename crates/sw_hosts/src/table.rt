// Host functions under their names.
ghost use Rattle.std.specs.Prelude.{◌≡◌, ◌++◌, ◌∷◌, [], Option, None, option_map, unwrap_or, IfOk, IfErr, OnOk, OnErr};
ghost use Rattle.sw_text.specs.Names.{dashed};
ghost use Rattle.sw_hosts.specs.Tables.{attached, without, refusal, answer as answer_of, after as after_of};
ghost use Rattle.sw_hosts.specs.Seats.{functions, seated};

use crate::names::is_name;
use crate::seat::{Seat, call_seat, place_of, push_seat};
use crate::{HostFn, NotHosted, Why};
use std::alloc::Global;
use sw_text::{List, Memory, Name};
use sw_values::Value;
use sw_world::Hosts;

/// Host functions, each under its name, in order of attaching. In names `-` and `_` are the same.
#[derive(Drop)]
pub struct HostTable<F> {
    seats: Vec<Seat<F>>,
}

impl<F: HostFn> HostTable<F> {
    /// No host is attached. Takes no memory.
    pub fn new(alloc: Global) -> HostTable<F>
        ensures { functions F.kind F.state result.seats.items ≡ [] }
    {
        HostTable {
            seats: Vec::new(alloc),
        }
    }

    // What forbids a name to a further host. Takes no memory.
    fn refusal(&self, name: &str) -> Option<Why>
        ensures { result ≡ refusal (functions F.kind F.state self.now.seats.items) name.now }
    {
        if !is_name(name) {
            return Some(Why::BadName);
        }
        if place_of(&self.seats, name) < self.seats.len() {
            return Some(Why::Taken);
        }
        None
    }

    /// Attaches a host under a name, behind the others. `BadName` comes exactly where the text is no name, then `Taken`
    /// exactly where the name has a host, and `Memory` only where none was found. Then the host is handed back, and the
    /// table is as before.
    pub fn attach(&mut self, alloc: Global, name: &str, host: F) -> Result<(), NotHosted<F>>
        ensures ok { OnOk result (functions F.kind F.state self.new.seats.items
            ≡ functions F.kind F.state self.old.seats.items ++ seated F.kind F.state (dashed name.now) host ∷ []) }
        ensures free { OnOk result (refusal (functions F.kind F.state self.old.seats.items) name.now ≡ None) }
        ensures why { IfErr result (λ fault. fault.why
            ≡ unwrap_or (refusal (functions F.kind F.state self.old.seats.items) name.now) Why.Memory) }
        ensures back { IfErr result (λ fault. fault.host ≡ host) }
        ensures kept { OnErr result (self.new.seats.items ≡ self.old.seats.items) }
    {
        if let Some(why) = self.refusal(name) {
            return Err(NotHosted { why, host });
        }
        let Ok(name) = Name::dashed(alloc, name) else {
            return Err(NotHosted {
                why: Why::Memory,
                host,
            });
        };
        if self.seats.reserve(1).is_err() {
            return Err(NotHosted {
                why: Why::Memory,
                host,
            });
        }
        push_seat(&mut self.seats, Seat { name, host });
        Ok(())
    }

    /// Takes the host with this name off and hands it back; none exactly where the name has no host. Takes no memory.
    pub fn detach(&mut self, name: &str) -> Option<F>
        ensures host { option_map (λ host. seated F.kind F.state (dashed name.now) host) result
            ≡ attached (functions F.kind F.state self.old.seats.items) name.now }
        ensures rest { functions F.kind F.state self.new.seats.items
            ≡ without (functions F.kind F.state self.old.seats.items) (dashed name.now) }
    {
        let at = place_of(&self.seats, name);
        if at == self.seats.len() {
            return None;
        }
        let seat = self.seats.remove(at);
        Some(seat.host)
    }
}

impl<F: HostFn> Hosts for HostTable<F> {
    ghost use Rattle.sw_hosts.specs.Tables.{answer, after};
    ghost use Rattle.sw_hosts.specs.Seats.{functions};

    ghost state = { λ table. functions F.kind F.state table.seats.items };

    ghost answer = { answer };

    ghost after = { after };

    fn call(
        &mut self,
        alloc: Global,
        name: &Name,
        args: &List<Value>,
    ) -> Result<Option<Value>, Memory> {
        let at = place_of(&self.seats, name.as_str());
        if at == self.seats.len() {
            return Ok(None);
        }
        let value = call_seat(&mut self.seats[at], alloc, args)?;
        Ok(Some(value))
    }
}
