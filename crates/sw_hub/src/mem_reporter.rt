// A reporter in memory that fails at the calls whose numbers are listed.
ghost use Rattle.std.specs.Prelude.{◌≡◌, ◌++◌, ◌∷◌, [], length, Some, OnOk, OnErr};
ghost use Rattle.sw_hub.specs.Hearing.{counted};
ghost use Rattle.sw_hub.specs.Memory.{keeper, with_replies};

use crate::Reporter;
use crate::copy::copied;
use crate::listed::is_listed;
use std::alloc::Global;
use std::marker::Model;
use sw_io::Failed;
use sw_record::Reply;
use sw_text::{List, Memory};

/// Keeps the replies that it hears. Calls are numbered from 1; those that are listed fail, and calls past number
/// 4,294,967,295 never do. A call that finds no memory fails too, and is counted by `starved`.
#[derive(Drop)]
pub struct MemReporter {
    replies: List<Reply>,
    fail: List<u32>,
    calls: u64,
    faults: u64,
    starved: u64,
    alloc: Global,
}

impl Model for MemReporter {
    ghost use Rattle.sw_hub.specs.Memory.{Keeper};

    ghost Value = { Keeper };

    ghost view = { λ r. record {
      replies = r.replies;
      fail = r.fail;
      calls = r.calls;
      faults = r.faults;
      starved = r.starved;
    } };
}

impl MemReporter {
    /// No reply was heard. Takes no memory.
    pub fn new(alloc: Global, fail: List<u32>) -> MemReporter
        ensures { result ≡ keeper fail }
    {
        MemReporter {
            replies: List::new(alloc),
            fail,
            calls: 0,
            faults: 0,
            starved: 0,
            alloc,
        }
    }

    /// The replies that were heard.
    pub fn replies(&self) -> &[Reply]
        ensures { result.now ≡ self.now.replies }
    {
        self.replies.as_slice()
    }

    // One reply more.
    #[tactic(auto, using(crate::proofs::Seats::counted_more, crate::proofs::Seats::length_more))]
    fn keep(&mut self, reply: &Reply) -> Result<(), Memory>
        ensures count { OnOk result (counted (Some (length self.old.replies)) ≡ Some (length self.new.replies)) }
        ensures ok { OnOk result (self.new ≡ with_replies (self.old.replies ++ reply.now ∷ []) self.old) }
        ensures err { OnErr result (self.new ≡ self.old) }
    {
        let reply = copied(self.alloc, reply)?;
        self.replies.push(reply)?;
        let _count = self.replies.len();
        Ok(())
    }

    /// How many calls failed. The number stands still at the end of its type.
    pub fn faults(&self) -> u64
        ensures { result ≡ self.now.faults }
    {
        self.faults
    }

    /// How many calls found no memory. The number stands still at the end of its type.
    pub fn starved(&self) -> u64
        ensures { result ≡ self.now.starved }
    {
        self.starved
    }
}

impl Reporter for MemReporter {
    ghost use Rattle.sw_io.specs.Causes.{HasCause};
    ghost use Rattle.sw_hub.specs.Hearing.{Hears, Counts};
    ghost use Rattle.sw_hub.specs.Memory.{HearsAsListed};

    ghost heard = { λ r. Some r.replies };

    ghost number = { λ r. Some (length r.replies) };

    ghost faults = { λ r. r.faults };

    fn hear(&mut self, reply: &Reply) -> Result<(), Failed>
        ensures replies { Hears (Some self.old.replies) (Some self.new.replies) reply.now result }
        ensures number { Counts (Some (length self.old.replies)) (Some (length self.new.replies)) result }
        ensures cause { HasCause self.old.faults self.new.faults result }
        ensures calls { HearsAsListed self.old self.new result }
    {
        self.calls = self.calls.saturating_add(1);
        if is_listed(&self.fail, self.calls) {
            self.faults = self.faults.saturating_add(1);
            return Err(Failed);
        }
        if self.keep(reply).is_err() {
            self.faults = self.faults.saturating_add(1);
            self.starved = self.starved.saturating_add(1);
            return Err(Failed);
        }
        Ok(())
    }

    fn count(&self) -> Option<u64> {
        Some(self.replies.len() as u64)
    }
}
