// A source in memory that fails at the calls whose numbers are listed.
ghost use Rattle.std.specs.Prelude.{◌≡◌, ◌≤◌};
ghost use Rattle.sw_io.specs.Memory.{giver};

use crate::give::give;
use crate::listed::is_listed;
use crate::{Failed, Source};
use std::marker::Model;
use sw_text::List;

/// Gives bytes from memory. Calls are numbered from 1; exactly those that are listed fail, and calls past number
/// 4,294,967,295 never do.
#[derive(Drop)]
pub struct MemSource {
    bytes: List<u8>,
    at: usize,
    most: usize,
    fail: List<u32>,
    calls: u64,
    faults: u64,
}

impl Model for MemSource {
    ghost use Rattle.std.specs.Prelude.{◌≤◌, drop, length};
    ghost use Rattle.sw_io.specs.Memory.{Giver};

    ghost Value = { Giver };

    ghost view = { λ s. record {
      left = drop s.at s.bytes;
      most = s.most;
      fail = s.fail;
      calls = s.calls;
      faults = s.faults;
    } };

    ghost invariant = { λ s. (s.at ≤ length s.bytes) × (1 ≤ s.most) };
}

impl MemSource {
    /// Gives these bytes, at most `most` in a read.
    pub fn new(bytes: List<u8>, most: usize, fail: List<u32>) -> Self
        requires { 1 ≤ most }
        ensures { result ≡ giver bytes most fail }
    {
        MemSource {
            bytes,
            at: 0,
            most,
            fail,
            calls: 0,
            faults: 0,
        }
    }

    /// How many calls failed. The number stands still at the end of its type.
    pub fn faults(&self) -> u64
        ensures { result ≡ self.now.faults }
    {
        self.faults
    }
}

impl Source for MemSource {
    ghost use Rattle.std.specs.Prelude.{◌≤◌, IfOk, Some};
    ghost use Rattle.std.specs.Io.{ReadsAtMost};
    ghost use Rattle.std.specs.Io.KnownBytes.{ReadConsumes};
    ghost use Rattle.sw_io.specs.Causes.{HasCause};
    ghost use Rattle.sw_io.specs.Memory.{FailsAsListed};

    ghost left = { λ s. Some s.left };

    ghost faults = { λ s. s.faults };

    fn read(&mut self, buf: &mut [u8]) -> Result<usize, Failed>
        ensures bound { ReadsAtMost result buf.new }
        ensures bytes { ReadConsumes (Some self.old.left) (Some self.new.left) result buf.new }
        ensures cause { HasCause self.old.faults self.new.faults result }
        ensures most { IfOk result (λ n. n ≤ self.old.most) }
        ensures calls { FailsAsListed self.old self.new result }
    {
        self.calls = self.calls.saturating_add(1);
        if is_listed(&self.fail, self.calls) {
            self.faults = self.faults.saturating_add(1);
            return Err(Failed);
        }
        let count = give(&self.bytes.as_slice()[self.at..], self.most, buf);
        self.at += count;
        Ok(count)
    }
}
