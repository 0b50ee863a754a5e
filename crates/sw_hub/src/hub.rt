// Who is attached, and hears replies.
ghost use Rattle.std.specs.Prelude.{◌≡◌, ◌<◌, ◌+◌, ◌↔◌, ◌++◌, ◌∷◌, [], false, length, take, drop, slice_get, ◌≤◌, option_map, unwrap_or, map, IfOk, IfErr, OnOk, OnErr};
ghost use Rattle.sw_hub.specs.Hubs.{Tells, known, first_of, without_first};

use crate::Reporter;
use crate::seat::{Seat, push_seat};
use std::alloc::Global;
use sw_cmd_protocol::Audience;
use sw_record::Reply;

/// A hub gives at most so many numbers.
pub const MOST_NUMBERS: u32 = 4_294_967_295;

/// Why a reporter isn't attached.
#[derive(Clone, Copy, Debug, PartialEq, Eq)]
pub enum AttachFault {
    /// All numbers were given.
    NoNumber,
    /// No memory was found.
    Memory,
}

/// A reporter that isn't attached, handed back.
#[derive(Drop)]
pub struct NotAttached<M> {
    pub why: AttachFault,
    pub reporter: M,
}

/// The reporters that hear replies, in order of their numbers. Numbers count from 0 and aren't used again.
#[derive(Drop)]
pub struct Hub<M> {
    pub(crate) seats: Vec<Seat<M>>,
    pub(crate) given: u32,
}

impl<M: Reporter> Hub<M> {
    /// Nobody is attached. Takes no memory.
    pub fn new(alloc: Global) -> Hub<M>
        ensures seats { result.seats.items ≡ [] }
        ensures given { result.given ≡ 0 }
    {
        Hub {
            seats: Vec::new(alloc),
            given: 0,
        }
    }

    /// Attaches a reporter and gives its number. `NoNumber` comes exactly where 4,294,967,295 numbers were given, and
    /// `Memory` only where none was found; then the reporter is handed back and the hub is as before.
    pub fn attach(&mut self, reporter: M) -> Result<u32, NotAttached<M>>
        ensures number { IfOk result (λ number. (number ≡ self.old.given) × (self.new.given ≡ self.old.given + 1)) }
        ensures seat { IfOk result (λ number. self.new.seats.items
            ≡ self.old.seats.items ++ record { number = number; silent = false; reporter = reporter } ∷ []) }
        ensures back { IfErr result (λ fault. fault.reporter ≡ reporter) }
        ensures kept { OnErr result
            ((self.new.seats.items ≡ self.old.seats.items) × (self.new.given ≡ self.old.given)) }
        ensures full { IfErr result (λ fault. (fault.why ≡ AttachFault.NoNumber) ↔ (self.old.given ≡ MOST_NUMBERS)) }
        ensures room { OnOk result (self.old.given < MOST_NUMBERS) }
    {
        if self.given == MOST_NUMBERS {
            return Err(NotAttached {
                why: AttachFault::NoNumber,
                reporter,
            });
        }
        if self.seats.reserve(1).is_err() {
            return Err(NotAttached {
                why: AttachFault::Memory,
                reporter,
            });
        }
        let number = self.given;
        let seat = Seat {
            number,
            silent: false,
            reporter,
        };
        push_seat(&mut self.seats, seat);
        self.given += 1;
        Ok(number)
    }

    /// Takes the reporter with this number off and hands it back; `None` exactly where the number isn't attached. Takes
    /// no memory.
    pub fn detach(&mut self, number: u32) -> Option<M>
        ensures reporter { result
            ≡ option_map (λ seat. seat.reporter) (first_of self.old.seats.items (λ seat. seat.number) number) }
        ensures rest { self.new.seats.items ≡ without_first self.old.seats.items (λ seat. seat.number) number }
        ensures given { self.new.given ≡ self.old.given }
    {
        let at = place_of(&self.seats, number);
        if at == self.seats.len() {
            return None;
        }
        let seat = self.seats.remove(at);
        Some(seat.reporter)
    }

    /// Whether this number is attached and its reporter silent. Takes no memory.
    pub fn silent(&self, number: u32) -> bool
        ensures { result
            ≡ unwrap_or (option_map (λ seat. seat.silent)
            (first_of self.now.seats.items (λ seat. seat.number) number)) false }
    {
        let at = place_of(&self.seats, number);
        at < self.seats.len() && self.seats[at].silent
    }

    /// Tells a reply to each reporter that isn't silent, in order of their numbers. One that fails is silent from then
    /// on, and no other becomes silent. Takes no memory.
    pub fn tell(&mut self, reply: &Reply)
        ensures given { self.new.given ≡ self.old.given }
        ensures told { Tells reply.now
            (map (λ seat. known M.heard M.number M.faults seat.number seat.silent seat.reporter) self.old.seats.items)
            (map (λ seat. known M.heard M.number M.faults seat.number seat.silent seat.reporter)
            self.new.seats.items) }
    {
        tell_all(&mut self.seats, reply);
    }
}

impl<M: Reporter> Audience<Reply> for Hub<M> {
    ghost use Rattle.std.specs.Prelude.{map};
    ghost use Rattle.sw_hub.specs.Hubs.{Attached, HubTells, known};

    ghost State = { Attached };

    ghost state = { λ hub. record {
      seats = map (λ seat. known M.heard M.number M.faults seat.number seat.silent seat.reporter) hub.seats.items;
      given = hub.given;
    } };

    ghost hears = { HubTells };

    fn hear(&mut self, reply: &Reply) {
        self.tell(reply);
    }
}

// Where the seat with a number stands; the length where there is none.
#[tactic(auto, using(crate::proofs::Seats::passed, crate::proofs::Seats::stays, crate::proofs::Seats::found, crate::proofs::Seats::taken_off, crate::proofs::Seats::lost, crate::proofs::Seats::all_stay))]
fn place_of<M>(seats: &[Seat<M>], number: u32) -> usize
    ensures seat { slice_get seats.now result ≡ first_of seats.now (λ seat. seat.number) number }
    ensures rest { take result seats.now ++ drop (result + 1) seats.now
        ≡ without_first seats.now (λ seat. seat.number) number }
    ensures within { result ≤ length seats.now }
{
    'seats: for (at, seat) in seats.iter().enumerate() {
        if seat.number == number {
            return at;
        }
    }
    seats.len()
}

// Each seat hears a reply.
fn tell_all<M: Reporter>(seats: &mut [Seat<M>], reply: &Reply)
    ensures { Tells reply.now
        (map (λ seat. known M.heard M.number M.faults seat.number seat.silent seat.reporter) seats.old)
        (map (λ seat. known M.heard M.number M.faults seat.number seat.silent seat.reporter) seats.new) }
{
    'seats: for seat in seats.iter_mut() {
        seat.hear(reply);
    }
}
