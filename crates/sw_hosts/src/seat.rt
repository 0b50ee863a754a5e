// One host of a table.
ghost use Rattle.std.specs.Prelude.{◌≡◌, ◌≤◌, ◌<◌, ◌++◌, ◌∷◌, [], length, vec_len, vec_capacity, IfOk, OnErr};
ghost use Rattle.sw_text.specs.Names.{dashed};
ghost use Rattle.sw_hosts.specs.Kinds.{host_row};
ghost use Rattle.sw_hosts.specs.Seats.{place_in};

use crate::HostFn;
use crate::names::is_stored_as;
use std::alloc::Global;
use sw_text::{List, Memory, Name};
use sw_values::Value;

/// A host under its stored name.
#[derive(Drop)]
pub struct Seat<F> {
    pub name: Name,
    pub host: F,
}

/// Where the host with a name stands; the length where none does. Takes no memory.
#[tactic(auto, using(crate::proofs::Rows::place_more, crate::proofs::Rows::place_found, crate::proofs::Rows::place_lost))]
pub fn place_of<F>(seats: &[Seat<F>], name: &str) -> usize
    ensures place { result ≡ place_in (λ seat. seat.name) seats.now (dashed name.now) }
    ensures within { result ≤ length seats.now }
{
    'seats: for (at, seat) in seats.iter().enumerate() {
        if is_stored_as(seat.name.as_str().as_bytes(), name.as_bytes()) {
            return at;
        }
    }
    seats.len()
}

/// Puts a seat behind the others, for which there is room.
pub fn push_seat<F: Drop>(seats: &mut Vec<Seat<F>>, seat: Seat<F>)
    requires { vec_len seats.old < vec_capacity seats.old }
    ensures { seats.new.items ≡ seats.old.items ++ seat ∷ [] }
{
    let _ = seats.push(seat);
}

/// Calls the seat's host.
pub fn call_seat<F: HostFn>(
    seat: &mut Seat<F>,
    alloc: Global,
    args: &List<Value>,
) -> Result<Value, Memory>
    ensures name { seat.new.name ≡ seat.old.name }
    ensures kind { F.kind seat.new.host ≡ F.kind seat.old.host }
    ensures value { IfOk result (λ value. value ≡ (host_row (F.kind seat.old.host) (F.state seat.old.host) args.now).value) }
    ensures next { IfOk result (λ _. F.state seat.new.host ≡ (host_row (F.kind seat.old.host) (F.state seat.old.host) args.now).next) }
    ensures kept { OnErr result (seat.new ≡ seat.old) }
{
    seat.host.call(alloc, args)
}
