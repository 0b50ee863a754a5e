// A reporter that is attached.
ghost use Rattle.std.specs.Prelude.{◌≡◌, ◌<◌, ◌++◌, ◌∷◌, [], vec_len, vec_capacity};
ghost use Rattle.sw_hub.specs.Hubs.{Told, known};

use crate::Reporter;
use sw_record::Reply;

/// A reporter under its number, and whether it is silent.
#[derive(Drop)]
pub struct Seat<M> {
    pub number: u32,
    pub silent: bool,
    pub reporter: M,
}

impl<M: Reporter> Seat<M> {
    /// The reporter hears a reply, unless it is silent; it is silent from then on where it fails.
    pub fn hear(&mut self, reply: &Reply)
        ensures { Told self.old.silent reply.now
            (known M.heard M.number M.faults self.old.number self.old.silent self.old.reporter)
            (known M.heard M.number M.faults self.new.number self.new.silent self.new.reporter) }
    {
        if self.silent {
            return;
        }
        if self.reporter.hear(reply).is_err() {
            self.silent = true;
        }
    }
}

/// Puts a seat behind the others, for which there is room.
pub fn push_seat<M: Drop>(seats: &mut Vec<Seat<M>>, seat: Seat<M>)
    requires { vec_len seats.old < vec_capacity seats.old }
    ensures { seats.new.items ≡ seats.old.items ++ seat ∷ [] }
{
    let _ = seats.push(seat);
}
