// The lines of an indented text, and how far a comment reaches over them.
ghost use Rattle.std.specs.Prelude.{◌≡◌, ◌+◌, ◌<◌, ◌≤◌, length};
ghost use Rattle.sw_text_scan.specs.Bytes.{byte, is_break};
ghost use Rattle.sw_parse_layout.specs.Lines.{is_blank, ends_line, next_margin, deeper, ends_at_sign, onto, over_line, look_over, comment_end};

use sw_text_scan::{byte_at, ends_loud, is_break, signs};

/// A line that isn't blank: where it begins, and where its text does.
#[derive(Clone, Copy, Debug, PartialEq, Eq)]
pub struct Margin {
    pub start: usize,
    pub text: usize,
}

/// How far a comment reaches.
#[derive(Clone, Copy, Debug, PartialEq, Eq)]
pub enum Reach {
    /// To the end of its line and of the lines under it that are deeper than this.
    Lines(usize),
    /// To its first `*/` there, if it has one, else as far as `Lines`.
    Sign(usize),
    /// To its first `*/`, over any lines.
    Joined,
}

/// What a look at a place of a comment tells: the comment ends there, or it goes on.
#[derive(Clone, Copy, Debug, PartialEq, Eq)]
pub enum Over {
    Stops(usize),
    Goes(usize),
}

pub(crate) fn is_blank(byte: u16) -> bool
    ensures { result ≡ is_blank byte }
{
    byte == signs::SPACE || byte == signs::TAB
}

/// Whether a line ends at a byte, or the text.
pub(crate) fn ends_line(byte: u16) -> bool
    ensures { result ≡ ends_line byte }
{
    is_break(byte) || byte == signs::END
}

/// The next line that isn't blank behind the end of a line.
#[tactic(auto, using(crate::proofs::Ahead::ahead_break, crate::proofs::Ahead::ahead_blank, crate::proofs::Ahead::ahead_stop), unfolding(crate::specs::Lines::next_margin))]
fn next_margin(bytes: &[u8], at: usize) -> Margin
    requires { at ≤ length bytes.now }
    ensures next { result ≡ next_margin bytes.now at }
    ensures order { result.start ≤ result.text }
    ensures within { result.text ≤ length bytes.now }
{
    let mut start = at;
    let mut text = at;
    // each step takes a byte
    'blanks: for _step in 0..bytes.len() {
        let byte = byte_at(bytes, text);
        if is_break(byte) {
            text += 1;
            start = text;
        } else {
            if !is_blank(byte) {
                return Margin { start, text };
            }
            text += 1;
        }
    }
    Margin { start, text }
}

/// Where the text of the next line that isn't blank begins, if that line is deeper.
#[tactic(auto, unfolding(crate::specs::Lines::deeper))]
fn deeper(bytes: &[u8], depth: usize, at: usize) -> Option<usize>
    requires { at ≤ length bytes.now }
    ensures { result ≡ deeper bytes.now depth at }
{
    let next = next_margin(bytes, at);
    if byte_at(bytes, next.text) != signs::END && depth < next.text - next.start {
        return Some(next.text);
    }
    None
}

fn ends_at_sign(reach: Reach) -> bool
    ensures { result ≡ ends_at_sign reach }
{
    match reach {
        Reach::Lines(_) => false,
        Reach::Sign(_) => true,
        Reach::Joined => true,
    }
}

fn onto(next: Option<usize>, at: usize) -> Over
    ensures { result ≡ onto next at }
{
    match next {
        None => Over::Stops(at),
        Some(to) => Over::Goes(to),
    }
}

fn over_line(bytes: &[u8], reach: Reach, at: usize) -> Over
    requires { at < length bytes.now }
    ensures { result ≡ over_line bytes.now reach at }
{
    match reach {
        Reach::Lines(depth) => onto(deeper(bytes, depth, at), at),
        Reach::Sign(depth) => onto(deeper(bytes, depth, at), at),
        Reach::Joined => Over::Goes(at + 1),
    }
}

#[tactic(auto, unfolding(crate::specs::Lines::look_over))]
fn look_over(bytes: &[u8], reach: Reach, at: usize) -> Over
    requires { at ≤ length bytes.now }
    ensures { result ≡ look_over bytes.now reach at }
{
    if ends_at_sign(reach) && ends_loud(bytes, at) {
        return Over::Stops(at + 2);
    }
    let byte = byte_at(bytes, at);
    if byte == signs::END {
        return Over::Stops(at);
    }
    if is_break(byte) {
        return over_line(bytes, reach, at);
    }
    Over::Goes(at + 1)
}

/// The place behind a comment, from a place in it on.
#[tactic(auto, using(crate::proofs::Ahead::comment_stop, crate::proofs::Ahead::comment_on, crate::proofs::Ahead::look_over_within, crate::proofs::Ahead::look_over_ends), unfolding(crate::specs::Lines::comment_end))]
pub(crate) fn comment_end(bytes: &[u8], reach: Reach, at: usize) -> usize
    requires { at ≤ length bytes.now }
    ensures end { result ≡ comment_end bytes.now reach at }
    ensures within { result ≤ length bytes.now }
{
    let mut place = at;
    // each step takes a byte
    'comment: for _step in 0..bytes.len() + 1 {
        match look_over(bytes, reach, place) {
            Over::Stops(to) => return to,
            Over::Goes(to) => place = to,
        }
    }
    place
}
