// The bytes of a put.
ghost use Rattle.std.specs.Prelude.{◌≡◌, ◌≤◌, ◌∷◌, ◌++◌, [], List, ℕ, length, IfErr, OnOk, IsTrue};
ghost use Rattle.sw_io.specs.Reads.{Reads};
ghost use Rattle.sw_io.specs.Ends.{RunEnds};
ghost use Rattle.sw_io.specs.Causes.{Cause};
ghost use Rattle.sw_cmd_edits.specs.Edits.{BodyEnds};

use sw_cmd_protocol::Stop;
use sw_io::{Failed, ReadStop, Reader, Source};

/// Reads the bytes of a put and the line feed behind them. The bytes are dropped, or kept in `body`.
pub(crate) fn read_body<S: Source>(
    reader: &mut Reader,
    source: &mut S,
    count: u32,
    keep: bool,
    body: &mut Vec<u8>,
) -> Result<(), Stop>
    ensures ok { OnOk result ((bytes : List ℕ)
        × Reads reader.old (S.left source.old) (bytes ++ 10 ∷ []) reader.new (S.left source.new)
        × (length bytes ≡ count) × (IsTrue keep → body.new.items ≡ bytes)) }
    ensures err { IfErr result (λ stop. (used : List ℕ)
        × Reads reader.old (S.left source.old) used reader.new (S.left source.new)
        × BodyEnds stop count used reader.new (S.left source.new)) }
    ensures bound { OnOk result (length reader.new ≤ 4096) }
    ensures cause { Cause Stop.SourceFailed (S.faults source.old) (S.faults source.new) result }
{
    read_bytes(reader, source, count, keep, body)?;
    match reader.next(source) {
        Err(Failed) => Err(Stop::SourceFailed),
        Ok(None) => Err(Stop::CutOff),
        Ok(Some(b'\n')) => Ok(()),
        Ok(Some(_)) => Err(Stop::Wrong),
    }
}

fn read_bytes<S: Source>(
    reader: &mut Reader,
    source: &mut S,
    count: u32,
    keep: bool,
    body: &mut Vec<u8>,
) -> Result<(), ReadStop>
    ensures ok { OnOk result ((bytes : List ℕ)
        × Reads reader.old (S.left source.old) bytes reader.new (S.left source.new)
        × (length bytes ≡ count) × (IsTrue keep → body.new.items ≡ bytes)) }
    ensures err { IfErr result (λ stop. (used : List ℕ)
        × Reads reader.old (S.left source.old) used reader.new (S.left source.new)
        × RunEnds stop count used reader.new (S.left source.new) (S.faults source.old) (S.faults source.new)) }
    ensures cause { Cause ReadStop.Failed (S.faults source.old) (S.faults source.new) result }
{
    if keep {
        reader.take(source, count as usize, body)
    } else {
        reader.skip(source, count as usize)
    }
}
