// A reader of lines and of exact runs of bytes.
ghost use Rattle.std.specs.Prelude.{◌≡◌, ◌≤◌, ℕ, List, [], ◌∷◌, ◌++◌, length, take, drop, vec_len, IfOk, IfErr, OnOk, OnErr};
ghost use Rattle.std.specs.Option.{option_to_list, IfNone};
ghost use Rattle.std.specs.Io.KnownBytes.{IsAtEnd};
ghost use Rattle.sw_io.specs.Causes.{HasCause, Cause};
ghost use Rattle.sw_io.specs.Reads.{Reads};
ghost use Rattle.sw_io.specs.Lines.{Line, split_line};
ghost use Rattle.sw_io.specs.Ends.{LineEnds, RunEnds, RestEnds};

use crate::{Failed, ReadStop, Source};
use std::alloc::Global;
use std::marker::Model;
use sw_text::Memory;

const AHEAD: usize = 4096;

const MAX_LINE: usize = 1024;

const LINE_FEED: u8 = b'\n';

/// Takes bytes from a source, at most 4,096 ahead of those that it hands out. Contracts see it as the bytes that it has
/// taken ahead; where a source fails or ends, none are ahead.
#[derive(Drop)]
pub struct Reader {
    buffer: Vec<u8>,
    from: usize,
    to: usize,
}

impl Model for Reader {
    ghost Value = { List ℕ };

    ghost view = { λ r. drop r.from (take r.to r.buffer.items) };

    ghost invariant = { λ r. (r.from ≤ r.to) × (r.to ≤ vec_len r.buffer) × (vec_len r.buffer ≡ 4096) };
}

impl Reader {
    /// A reader that has taken nothing.
    pub fn new(alloc: Global) -> Result<Self, Memory>
        ensures { IfOk result (λ r. r ≡ []) }
    {
        let buffer = vec![in alloc; 0; AHEAD]?;
        Ok(Reader {
            buffer,
            from: 0,
            to: 0,
        })
    }

    /// Has at least one byte ahead from then on, unless the source is at its end.
    fn fill<S: Source>(&mut self, source: &mut S) -> Result<(), Failed>
        ensures read { Reads self.old (S.left source.old) [] self.new (S.left source.new) }
        ensures bound { length self.new ≤ 4096 }
        ensures ok { OnOk result (self.new ≡ [] → IsAtEnd (S.left source.new)) }
        ensures err { OnErr result (self.new ≡ []) }
        ensures cause { HasCause (S.faults source.old) (S.faults source.new) result }
    {
        if self.from < self.to {
            return Ok(());
        }
        self.from = self.to;
        let count = source.read(&mut self.buffer)?;
        self.from = 0;
        self.to = count;
        Ok(())
    }

    fn ahead(&self) -> &[u8]
        ensures { result.now ≡ self.now }
    {
        &self.buffer[self.from..self.to]
    }

    fn consume(&mut self, count: usize)
        requires { count ≤ length self.old }
        ensures { self.new ≡ drop count self.old }
    {
        self.from += count;
    }

    /// The next byte, and None only where none is left.
    pub fn next<S: Source>(&mut self, source: &mut S) -> Result<Option<u8>, Failed>
        ensures read { IfOk result (λ next. Reads self.old (S.left source.old) (option_to_list next) self.new
            (S.left source.new)) }
        ensures none { IfOk result (λ next. IfNone next ((self.new ≡ []) × IsAtEnd (S.left source.new))) }
        ensures err { OnErr result (Reads self.old (S.left source.old) [] self.new (S.left source.new)
            × (self.new ≡ [])) }
        ensures bound { length self.new ≤ 4096 }
        ensures cause { HasCause (S.faults source.old) (S.faults source.new) result }
    {
        self.fill(source)?;
        match self.ahead().first().copied() {
            None => Ok(None),
            Some(byte) => {
                self.consume(1);
                Ok(Some(byte))
            }
        }
    }

    /// The next line, without its line feed, into `line`: at most 1,024 bytes.
    pub fn line<S: Source>(&mut self, source: &mut S, line: &mut Vec<u8>) -> Result<(), ReadStop>
        ensures ok { OnOk result (Reads self.old (S.left source.old) (line.new.items ++ 10 ∷ []) self.new
            (S.left source.new)
            × ((rest : List ℕ) → split_line 1024 (line.new.items ++ 10 ∷ rest) ≡ Line line.new.items rest)) }
        ensures err { IfErr result (λ stop. (used : List ℕ)
            × Reads self.old (S.left source.old) used self.new (S.left source.new)
            × LineEnds stop used self.new (S.left source.new) (S.faults source.old) (S.faults source.new)) }
        ensures bound { OnOk result (length self.new ≤ 4096) }
        ensures cause { Cause ReadStop.Failed (S.faults source.old) (S.faults source.new) result }
    {
        line.clear();
        for _ in 0..=MAX_LINE {
            match self.next(source)? {
                None => return Err(ReadStop::Ended),
                Some(LINE_FEED) => return Ok(()),
                Some(byte) => line.push(byte)?,
            }
        }
        Err(ReadStop::TooLong)
    }

    /// The next `count` bytes, into `out`. It grows as they come.
    pub fn take<S: Source>(
        &mut self,
        source: &mut S,
        count: usize,
        out: &mut Vec<u8>,
    ) -> Result<(), ReadStop>
        ensures ok { OnOk result (Reads self.old (S.left source.old) out.new.items self.new (S.left source.new)
            × (length out.new.items ≡ count)) }
        ensures err { IfErr result (λ stop. (used : List ℕ)
            × Reads self.old (S.left source.old) used self.new (S.left source.new)
            × RunEnds stop count used self.new (S.left source.new) (S.faults source.old) (S.faults source.new)) }
        ensures cause { Cause ReadStop.Failed (S.faults source.old) (S.faults source.new) result }
    {
        out.clear();
        while out.len() < count {
            self.fill(source)?;
            let piece = self.ahead();
            let taken = piece.len().min(count - out.len());
            if taken == 0 {
                return Err(ReadStop::Ended);
            }
            out.extend_from_slice(&piece[..taken])?;
            self.consume(taken);
        }
        Ok(())
    }

    /// All bytes that are left, at most `most`, into `out`; `TooLong` where there are more. It grows as they come.
    pub fn rest<S: Source>(
        &mut self,
        source: &mut S,
        most: usize,
        out: &mut Vec<u8>,
    ) -> Result<(), ReadStop>
        ensures ok { OnOk result (Reads self.old (S.left source.old) out.new.items self.new (S.left source.new)
            × (self.new ≡ []) × IsAtEnd (S.left source.new) × (length out.new.items ≤ most)) }
        ensures err { IfErr result (λ stop. (used : List ℕ)
            × Reads self.old (S.left source.old) used self.new (S.left source.new)
            × RestEnds stop most used self.new (S.faults source.old) (S.faults source.new)) }
        ensures cause { Cause ReadStop.Failed (S.faults source.old) (S.faults source.new) result }
    {
        out.clear();
        while let Some(byte) = self.next(source)? {
            if out.len() == most {
                return Err(ReadStop::TooLong);
            }
            out.push(byte)?;
        }
        Ok(())
    }

    /// Drops the next `count` bytes. Takes no memory.
    pub fn skip<S: Source>(&mut self, source: &mut S, count: usize) -> Result<(), ReadStop>
        ensures ok { OnOk result ((used : List ℕ) × Reads self.old (S.left source.old) used self.new (S.left source.new)
            × (length used ≡ count)) }
        ensures err { IfErr result (λ stop. (used : List ℕ)
            × Reads self.old (S.left source.old) used self.new (S.left source.new)
            × RunEnds stop count used self.new (S.left source.new) (S.faults source.old) (S.faults source.new)) }
        ensures cause { Cause ReadStop.Failed (S.faults source.old) (S.faults source.new) result }
    {
        let mut left = count;
        while left > 0 {
            self.fill(source)?;
            let taken = self.ahead().len().min(left);
            if taken == 0 {
                return Err(ReadStop::Ended);
            }
            self.consume(taken);
            left -= taken;
        }
        Ok(())
    }
}
