// Where the name of a variable stands that a statement assigns to.
ghost use Rattle.std.specs.Prelude.{◌≡◌, ◌^◌, ◌+◌, ◌-◌, ◌<◌, ◌≤◌, length, IfOk};
ghost use Rattle.sw_text.specs.Places.{after, place_after};
ghost use Rattle.sw_eval_statements.specs.Names.{as_place, counted, name_end, name_span};

use sw_text::{Memory, Pos, Span};
use sw_tree::Variable;

/// A place on the way through a name.
#[derive(Clone, Copy, Debug)]
pub(crate) struct Reached {
    pub line: usize,
    pub column: usize,
    /// The byte before is a carriage return, which a line feed completes.
    pub returned: bool,
}

// One byte further.
#[tactic(auto, unfolding(sw_text::specs::Places::after))]
fn step(reached: Reached, byte: u8) -> Reached
    requires line { reached.line < 2 ^ 64 - 1 }
    requires column { reached.column < 2 ^ 64 - 1 }
    ensures place { as_place result ≡ after (as_place reached) byte }
    ensures line { result.line ≤ reached.line + 1 }
    ensures column { result.column ≤ reached.column + 1 }
{
    if byte == b'\n' && reached.returned {
        Reached {
            line: reached.line,
            column: 1,
            returned: false,
        }
    } else if byte == b'\r' {
        Reached {
            line: reached.line + 1,
            column: 1,
            returned: true,
        }
    } else if byte == b'\n' || byte == 12 {
        Reached {
            line: reached.line + 1,
            column: 1,
            returned: false,
        }
    } else if byte >= 128 && byte < 192 {
        Reached {
            returned: false,
            ..reached
        }
    } else {
        Reached {
            line: reached.line,
            column: reached.column + 1,
            returned: false,
        }
    }
}

// So many bytes further.
fn over(from: Reached, bytes: &[u8]) -> Reached
    requires line { from.line + length bytes.now < 2 ^ 64 }
    requires column { from.column + length bytes.now < 2 ^ 64 }
    ensures { as_place result ≡ place_after (as_place from) bytes.now }
{
    let mut reached = from;
    'bytes: for byte in bytes {
        reached = step(reached, *byte);
    }
    reached
}

// As a line or a column.
fn counted(count: usize) -> u32
    ensures { result ≡ counted count }
{
    if count <= u32::MAX as usize {
        count as u32
    } else {
        u32::MAX
    }
}

// The place behind a name with `$` before it, which stands here.
fn name_end(pos: Pos, name: &str) -> Pos
    ensures { result ≡ name_end pos name.now }
{
    let from = Reached {
        line: pos.line as usize,
        column: pos.column as usize + 1,
        returned: false,
    };
    let reached = over(from, name.as_bytes());
    Pos {
        line: counted(reached.line),
        column: counted(reached.column),
    }
}

/// From the `$` of the variable to the end of its name.
pub(crate) fn name_span(statement: &Variable) -> Result<Span, Memory>
    ensures { IfOk result (λ span. span ≡ name_span statement.now) }
{
    Ok(Span {
        file: statement.span.file.share()?,
        from: statement.span.from,
        to: name_end(statement.span.from, statement.name.as_str()),
    })
}
