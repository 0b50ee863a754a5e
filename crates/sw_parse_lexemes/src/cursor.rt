// Lines and columns, by one walk through a text.
ghost use Rattle.std.specs.Prelude.{◌≡◌, ◌+◌, ◌^◌, ◌<◌, ◌≤◌, length};
ghost use Rattle.std.specs.Str.{IsCharBoundary};
ghost use Rattle.sw_text.specs.Places.{after, place_after, pos_at, mark_length};
ghost use Rattle.sw_parse_lexemes.specs.Cursors.{place_of, Stands};

use sw_text::{Pos, SheetText};

/// A place on the way through a text.
#[derive(Clone, Copy, Debug)]
pub(crate) struct Cursor {
    pub line: usize,
    pub column: usize,
    /// The byte before is a carriage return, which a line feed completes.
    pub returned: bool,
}

pub(crate) const START: Cursor = Cursor {
    line: 1,
    column: 1,
    returned: false,
};

/// A sheet's text, and how many bytes of a byte order mark stand at its front.
#[derive(Debug, Drop)]
pub(crate) struct MarkedText<'a> {
    pub sheet: &'a SheetText,
    pub bytes: &'a [u8],
    pub skipped: usize,
    ghost mark: { skipped ≡ mark_length sheet.now.bytes },
    ghost whole: { bytes.now ≡ sheet.now.bytes },
}

// How many bytes of a byte order mark stand at the front.
fn mark_length_of(bytes: &[u8]) -> usize
    ensures mark { result ≡ mark_length bytes.now }
    ensures within { result ≤ length bytes.now }
{
    match bytes {
        [0xef, 0xbb, 0xbf, ..] => 3,
        _ => 0,
    }
}

pub(crate) fn marked(sheet: &SheetText) -> MarkedText<'_>
    ensures { result.sheet.now ≡ sheet.now }
{
    let text = sheet.text().as_bytes();
    let skipped = mark_length_of(text);
    MarkedText {
        sheet,
        bytes: text,
        skipped,
    }
}

// One byte further.
#[tactic(auto, unfolding(sw_text::specs::Places::after))]
fn step(cursor: &mut Cursor, byte: u8)
    requires line { cursor.old.line + 1 < 2 ^ 64 }
    requires column { cursor.old.column + 1 < 2 ^ 64 }
    ensures value { place_of cursor.new ≡ after (place_of cursor.old) byte }
    ensures line { cursor.new.line ≤ cursor.old.line + 1 }
    ensures column { cursor.new.column ≤ cursor.old.column + 1 }
{
    // Most bytes are characters of their own and no line breaks, which one look tells.
    if byte > b'\r' && byte < 128 {
        cursor.column += 1;
        cursor.returned = false;
    } else if byte == b'\n' && cursor.returned {
        cursor.column = 1;
        cursor.returned = false;
    } else if byte == b'\r' {
        cursor.line += 1;
        cursor.column = 1;
        cursor.returned = true;
    } else if byte == b'\n' || byte == 12 {
        cursor.line += 1;
        cursor.column = 1;
        cursor.returned = false;
    } else if byte >= 128 && byte < 192 {
        cursor.returned = false;
    } else {
        cursor.column += 1;
        cursor.returned = false;
    }
}

// So many bytes further.
fn walk_over(cursor: &mut Cursor, bytes: &[u8])
    requires line { cursor.old.line + length bytes.now < 2 ^ 64 }
    requires column { cursor.old.column + length bytes.now < 2 ^ 64 }
    ensures place { place_of cursor.new ≡ place_after (place_of cursor.old) bytes.now }
    ensures line { cursor.new.line ≤ cursor.old.line + length bytes.now }
    ensures column { cursor.new.column ≤ cursor.old.column + length bytes.now }
{
    'bytes: for byte in bytes {
        step(cursor, *byte);
    }
}

// The cursor at an offset, by a walk from the start of the text.
#[inline(never)]
fn from_start(text: &MarkedText, at: usize) -> Cursor
    requires { at ≤ length text.now.bytes.now }
    ensures { Stands text.now.bytes.now at result }
{
    if at < text.skipped {
        return START;
    }
    let mut cursor = START;
    walk_over(&mut cursor, &text.bytes[text.skipped..at]);
    cursor
}

/// To an offset, from another one where this isn't past it.
pub(crate) fn walk_to(text: &MarkedText, cursor: &mut Cursor, from: usize, at: usize)
    requires near { Stands text.now.bytes.now from cursor.old }
    requires within { at ≤ length text.now.bytes.now }
    ensures { Stands text.now.bytes.now at cursor.new }
{
    if text.skipped <= from && from <= at {
        walk_over(cursor, &text.bytes[from..at]);
        return;
    }
    *cursor = from_start(text, at);
}

/// The line and the column of an offset at which a cursor stands. No text has more of them than a `u32` tells.
pub(crate) fn pos_of(text: &MarkedText, cursor: &Cursor, offset: u32) -> Pos
    requires boundary { IsCharBoundary text.now.sheet.now.bytes offset }
    requires stands { Stands text.now.bytes.now offset cursor.now }
    ensures { result ≡ pos_at text.now.sheet.now.bytes offset }
{
    // Both are at most one more than the offset.
    if offset < u32::MAX {
        Pos {
            line: cursor.line as u32,
            column: cursor.column as u32,
        }
    } else {
        text.sheet.pos(offset)
    }
}
