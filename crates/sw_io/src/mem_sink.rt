// A sink in memory that fails at the calls whose numbers are listed.
ghost use Rattle.std.specs.Prelude.{◌≡◌, ◌≤◌};
ghost use Rattle.sw_io.specs.Memory.{taker};

use crate::listed::is_listed;
use crate::{Failed, Sink};
use std::alloc::Global;
use std::marker::Model;
use sw_text::List;

/// Keeps what is written. Writes and flushes are numbered together from 1; those that are listed fail, and calls past
/// number 4,294,967,295 never do. A write that finds no memory fails too, and is counted by `starved`.
#[derive(Drop)]
pub struct MemSink {
    bytes: Vec<u8>,
    most: usize,
    fail: List<u32>,
    calls: u64,
    faults: u64,
    starved: u64,
}

impl Model for MemSink {
    ghost use Rattle.std.specs.Prelude.{◌≤◌};
    ghost use Rattle.sw_io.specs.Memory.{Taker};

    ghost Value = { Taker };

    ghost view = { λ s. record {
      bytes = s.bytes.items;
      most = s.most;
      fail = s.fail;
      calls = s.calls;
      faults = s.faults;
      starved = s.starved;
    } };

    ghost invariant = { λ s. 1 ≤ s.most };
}

impl MemSink {
    /// Takes at most `most` bytes in a write.
    pub fn new(alloc: Global, most: usize, fail: List<u32>) -> Self
        requires { 1 ≤ most }
        ensures { result ≡ taker most fail }
    {
        MemSink {
            bytes: Vec::new(alloc),
            most,
            fail,
            calls: 0,
            faults: 0,
            starved: 0,
        }
    }

    /// What was written.
    pub fn bytes(&self) -> &[u8]
        ensures { result.now ≡ self.now.bytes }
    {
        &self.bytes
    }

    /// How many calls failed. The number stands still at the end of its type.
    pub fn faults(&self) -> u64
        ensures { result ≡ self.now.faults }
    {
        self.faults
    }

    /// How many writes found no memory. The number stands still at the end of its type.
    pub fn starved(&self) -> u64
        ensures { result ≡ self.now.starved }
    {
        self.starved
    }
}

impl Sink for MemSink {
    ghost use Rattle.std.specs.Prelude.{◌<◌, ◌≤◌, length, IfOk, Some};
    ghost use Rattle.std.specs.Io.{WritesAtMost};
    ghost use Rattle.std.specs.Io.KnownBytes.{Keeps, WriteAppends};
    ghost use Rattle.sw_io.specs.Causes.{HasCause};
    ghost use Rattle.sw_io.specs.Memory.{FailsAsListedOrStarved};

    ghost written = { λ s. Some s.bytes };

    ghost faults = { λ s. s.faults };

    fn write(&mut self, piece: &[u8]) -> Result<usize, Failed>
        ensures bound { WritesAtMost result piece.now }
        ensures bytes { WriteAppends (Some self.old.bytes) (Some self.new.bytes) result piece.now }
        ensures some { IfOk result (λ n. 0 < length piece.now → 0 < n) }
        ensures most { IfOk result (λ n. n ≤ self.old.most) }
        ensures cause { HasCause self.old.faults self.new.faults result }
        ensures calls { FailsAsListedOrStarved self.old self.new result }
    {
        self.calls = self.calls.saturating_add(1);
        if is_listed(&self.fail, self.calls) {
            self.faults = self.faults.saturating_add(1);
            return Err(Failed);
        }
        let count = self.most.min(piece.len());
        if self.bytes.extend_from_slice(&piece[..count]).is_err() {
            self.faults = self.faults.saturating_add(1);
            self.starved = self.starved.saturating_add(1);
            return Err(Failed);
        }
        Ok(count)
    }

    fn flush(&mut self) -> Result<(), Failed>
        ensures bytes { Keeps (Some self.old.bytes) (Some self.new.bytes) }
        ensures cause { HasCause self.old.faults self.new.faults result }
        ensures calls { FailsAsListedOrStarved self.old self.new result }
    {
        self.calls = self.calls.saturating_add(1);
        if is_listed(&self.fail, self.calls) {
            self.faults = self.faults.saturating_add(1);
            return Err(Failed);
        }
        Ok(())
    }
}
