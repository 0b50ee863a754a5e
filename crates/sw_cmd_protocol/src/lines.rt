// The lines of a source.
ghost use Rattle.std.specs.Prelude.{◌≡◌, ◌≤◌, ◌++◌, ◌∷◌, [], ℕ, List, length, IfErr, IfOk, OnOk};
ghost use Rattle.sw_io.specs.Causes.{Cause};
ghost use Rattle.sw_io.specs.Ends.{LineEnds};
ghost use Rattle.sw_io.specs.Lines.{Line, split_line};
ghost use Rattle.sw_io.specs.Reads.{Reads};

use std::alloc::Global;
use sw_io::{ReadStop, Reader, Source};
use sw_text::Memory;

/// The line that was read last, and the reader of what follows it.
#[derive(Drop)]
pub struct Lines {
    pub reader: Reader,
    pub line: Vec<u8>,
}

impl Lines {
    /// No line was read, and no byte was taken.
    pub fn new(alloc: Global) -> Result<Lines, Memory>
        ensures { IfOk result (λ lines. lines.reader ≡ []) }
    {
        let reader = Reader::new(alloc)?;
        let line = Vec::new(alloc);
        Ok(Lines { reader, line })
    }

    /// Reads the next line, without its line feed. No call of the source fails but the one by whose fault it ends.
    pub(crate) fn read<S: Source>(&mut self, source: &mut S) -> Result<(), ReadStop>
        ensures ok { OnOk result (Reads self.old.reader (S.left source.old) (self.new.line.items ++ 10 ∷ [])
            self.new.reader (S.left source.new)
            × ((rest : List ℕ) → split_line 1024 (self.new.line.items ++ 10 ∷ rest)
            ≡ Line self.new.line.items rest)) }
        ensures err { IfErr result (λ stop. (used : List ℕ)
            × Reads self.old.reader (S.left source.old) used self.new.reader (S.left source.new)
            × LineEnds stop used self.new.reader (S.left source.new) (S.faults source.old) (S.faults source.new)) }
        ensures bound { OnOk result (length self.new.reader ≤ 4096) }
        ensures cause { Cause ReadStop.Failed (S.faults source.old) (S.faults source.new) result }
    {
        self.reader.line(source, &mut self.line)
    }
}
