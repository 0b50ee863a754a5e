// A source and a sink that never fail: their count of faults is always 0.
ghost use Rattle.std.specs.Prelude.{◌≡◌, ◌≤◌};

use crate::give::give;
use crate::{Failed, Sink, Source};
use std::marker::Model;
use sw_text::List;

/// Gives bytes from memory and never fails.
#[derive(Drop)]
pub struct SteadySource {
    bytes: List<u8>,
    at: usize,
    most: usize,
}

impl Model for SteadySource {
    ghost use Rattle.std.specs.Prelude.{ℕ, List, ◌≤◌, drop, length};

    ghost Value = { List ℕ };

    ghost view = { λ s. drop s.at s.bytes };

    ghost invariant = { λ s. (s.at ≤ length s.bytes) × (1 ≤ s.most) };
}

impl SteadySource {
    /// Gives these bytes, at most `most` in a read.
    pub fn new(bytes: List<u8>, most: usize) -> Self
        requires { 1 ≤ most }
        ensures { result ≡ bytes }
    {
        SteadySource { bytes, at: 0, most }
    }
}

impl Source for SteadySource {
    ghost use Rattle.std.specs.Prelude.{Some};

    ghost left = { λ s. Some s };

    ghost faults = { λ _. 0 };

    fn read(&mut self, buf: &mut [u8]) -> Result<usize, Failed> {
        let count = give(&self.bytes.as_slice()[self.at..], self.most, buf);
        self.at += count;
        Ok(count)
    }
}

/// Takes at most `most` bytes in a write, never fails, and keeps and tells nothing of what it takes.
#[derive(Drop)]
pub struct SteadySink {
    most: usize,
}

impl Model for SteadySink {
    ghost use Rattle.std.specs.Prelude.{ℕ, ◌≤◌};

    ghost Value = { ℕ };

    ghost view = { λ s. s.most };

    ghost invariant = { λ s. 1 ≤ s.most };
}

impl SteadySink {
    /// Takes at most `most` bytes in a write.
    pub fn new(most: usize) -> Self
        requires { 1 ≤ most }
        ensures { result ≡ most }
    {
        SteadySink { most }
    }
}

impl Sink for SteadySink {
    ghost use Rattle.std.specs.Prelude.{None};

    ghost written = { λ _. None };

    ghost faults = { λ _. 0 };

    fn write(&mut self, piece: &[u8]) -> Result<usize, Failed> {
        Ok(self.most.min(piece.len()))
    }

    fn flush(&mut self) -> Result<(), Failed> {
        Ok(())
    }
}
