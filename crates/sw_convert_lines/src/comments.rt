// Loud comments in lines.
ghost use Rattle.std.specs.Prelude.{◌≡◌, ◌++◌, ◌≤◌, ◌||◌, length, drop, not, IfOk, OnOk};
ghost use Rattle.sw_convert_alike.specs.Comments.{without_front, without_end, bare_line, is_full, inside};
ghost use Rattle.sw_text_scan.specs.Bytes as bytes;
ghost use Rattle.sw_convert_lines.specs.Comments.{is_star, end_from, line_end, lines_in, begins_star, first_line, begins_mark, comment_opening, line_of, full_line, lines_text, comment_lines};
ghost use Rattle.sw_convert_lines.specs.Layout.{has_none};

use sw_convert_written::{put, put_indent};
use sw_text::Memory;
use sw_text_scan::{is_break, is_white};
use sw_tree::{Parts, Text};

#[tactic(auto, using(crate::proofs::Trims::front_goes, crate::proofs::Trims::front_stops, crate::proofs::Trims::front_ends))]
fn without_white(text: &[u8]) -> &[u8]
    ensures { result.now ≡ without_front bytes.is_white text.now }
{
    let mut at = 0;
    'bytes: while at < text.len() && is_white(text[at] as u16) {
        at += 1;
    }
    &text[at..]
}

#[tactic(auto, using(crate::proofs::Trims::front_goes, crate::proofs::Trims::front_stops, crate::proofs::Trims::front_ends))]
fn without_stars(text: &[u8]) -> &[u8]
    ensures { result.now ≡ without_front is_star text.now }
{
    let mut at = 0;
    'bytes: while at < text.len() && text[at] == b'*' {
        at += 1;
    }
    &text[at..]
}

// Where a text ends without the white space at its end.
fn end_of(text: &[u8]) -> usize
    ensures end { result ≡ end_from 0 0 text.now }
    ensures within { result ≤ length text.now }
{
    let mut to = 0;
    let mut at = 0;
    'bytes: for byte in text {
        at += 1;
        if !is_white(*byte as u16) {
            to = at;
        }
    }
    to
}

#[tactic(auto, using(crate::proofs::Trims::end_is))]
fn without_end(text: &[u8]) -> &[u8]
    ensures { result.now ≡ without_end text.now }
{
    &text[..end_of(text)]
}

/// A line without what doesn't count in it.
fn bare_line(line: &[u8]) -> &[u8]
    ensures { result.now ≡ bare_line line.now }
{
    without_white(without_stars(without_white(without_end(line))))
}

/// Where the first line of a text ends.
#[tactic(auto, using(crate::proofs::Trims::line_goes, crate::proofs::Trims::line_stops, crate::proofs::Trims::line_ends))]
fn line_end(text: &[u8]) -> usize
    ensures end { result ≡ line_end text.now }
    ensures within { result ≤ length text.now }
{
    let mut at = 0;
    'bytes: while at < text.len() && !is_break(text[at] as u16) {
        at += 1;
    }
    at
}

fn begins_star(line: &[u8]) -> bool
    ensures { result ≡ begins_star line.now }
{
    match line {
        [] => false,
        [byte, ..] => *byte == b'*',
    }
}

fn begins_mark(line: &[u8]) -> bool
    ensures { result ≡ begins_mark line.now }
{
    match line {
        [] => false,
        [byte, ..] => *byte == b'!',
    }
}

fn comment_opening(line: &[u8]) -> &'static [u8]
    ensures { result.now ≡ comment_opening line.now }
{
    if begins_mark(line) { b"/*" } else { b"/* " }
}

fn put_first_line(out: &mut Vec<u8>, line: &[u8]) -> Result<(), Memory>
    ensures { OnOk result (out.new.items ≡ out.old.items ++ first_line line.now) }
{
    if begins_star(line) {
        put(out, b"* ")?;
    }
    put(out, line)
}

fn put_line_of(out: &mut Vec<u8>, level: usize, first: bool, line: &[u8]) -> Result<(), Memory>
    ensures { OnOk result (out.new.items ≡ out.old.items ++ line_of level first line.now) }
{
    if first {
        put(out, comment_opening(line))?;
        return put_first_line(out, line);
    }
    put(out, b"\n")?;
    put_indent(out, level)?;
    put(out, b"   ")?;
    put(out, line)
}

// Puts a line where it counts, behind others or as the first one, and tells whether there is any.
fn put_full(out: &mut Vec<u8>, level: usize, some: bool, line: &[u8]) -> Result<bool, Memory>
    ensures text { OnOk result (out.new.items ≡ out.old.items ++ full_line level some line.now) }
    ensures some { IfOk result (λ now. now ≡ (some || is_full line.now)) }
{
    match line {
        [] => Ok(some),
        [_, ..] => {
            put_line_of(out, level, !some, line)?;
            Ok(true)
        }
    }
}

fn rest_of(text: &[u8], at: usize) -> &[u8]
    requires { at ≤ length text.now }
    ensures { result.now ≡ drop at text.now }
{
    &text[at..]
}

/// Puts the lines of a comment with this text between its signs, and tells whether there is any.
fn put_lines(out: &mut Vec<u8>, level: usize, text: &[u8]) -> Result<bool, Memory>
    ensures text { OnOk result (out.new.items ≡ out.old.items ++ lines_text level (lines_in text.now)) }
    ensures some { IfOk result (λ some. some ≡ not (has_none (lines_in text.now))) }
{
    let mut some = false;
    let mut at = 0;
    'lines: while at < text.len() {
        let rest = rest_of(text, at);
        let end = line_end(rest);
        some = put_full(out, level, some, bare_line(&rest[..end]))?;
        at += end + 1;
    }
    Ok(some)
}

#[tactic(auto, using(crate::proofs::Trims::inside_short))]
fn inside(text: &[u8]) -> &[u8]
    ensures { result.now ≡ inside text.now }
{
    if text.len() < 4 {
        return &[];
    }
    let front = &text[..text.len() - 2];
    &front[2..]
}

/// Puts a comment in so many blocks, and tells whether lines can hold it.
#[tactic(auto, using(crate::proofs::Unrolled::lines_plain, crate::proofs::Unrolled::lines_mixed, crate::proofs::Unrolled::nothing_put))]
pub fn put_comment_lines(out: &mut Vec<u8>, level: usize, text: &Text) -> Result<bool, Memory>
    ensures text { OnOk result (out.new.items ≡ out.old.items ++ lines_text level (comment_lines text.now.parts)) }
    ensures held { IfOk result (λ held. held ≡ not (has_none (comment_lines text.now.parts))) }
{
    match &text.parts {
        Parts::Plain(text) => put_lines(out, level, inside(text.as_str().as_bytes())),
        Parts::Mixed(_) => Ok(false),
    }
}
