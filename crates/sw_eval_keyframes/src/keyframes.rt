// The selectors of keyframes.
ghost use Rattle.std.specs.Prelude.{◌≡◌, [], IfOk};
ghost use Rattle.sw_eval_literals.specs.Answers.{Returns};
ghost use Rattle.sw_eval_keyframes.specs.Keyframes.{is_comma, next_comma, pieces_of, is_percent, is_frame, is_stray, frames_of, with_commas, keyframe_text};

use std::alloc::Global;
use sw_eval_calls::add_comma;
use sw_eval_literals::{Refused, add_trimmed, fails as refuses, whole_text};
use sw_text::{FaultCode, List, Memory, Name, Span};
use sw_text_scan::{begins_number, byte_at, signs, unit_start};

fn is_comma(bytes: &[u8], at: usize) -> bool
    ensures { result ≡ is_comma bytes.now at }
{
    byte_at(bytes, at) == signs::COMMA
}

// The next comma from a place on, or the end.
#[tactic(auto, using(crate::proofs::Frames::comma_here, crate::proofs::Frames::comma_on, crate::proofs::Frames::comma_end))]
fn next_comma(bytes: &[u8], from: usize) -> usize
    ensures { result ≡ next_comma bytes.now from }
{
    'places: for at in from..bytes.len() {
        if is_comma(bytes, at) {
            return at;
        }
    }
    bytes.len()
}

// What stands between commas.
#[tactic(auto, using(crate::proofs::Frames::piece_last, crate::proofs::Frames::piece_next))]
fn pieces_of(alloc: Global, text: &str) -> Result<List<Name>, Memory>
    ensures { IfOk result (λ pieces. pieces ≡ pieces_of text.now) }
{
    let bytes = text.as_bytes();
    let mut pieces = List::new(alloc);
    let mut from = 0;
    'pieces: for _piece in 0..bytes.len() + 1 {
        let to = next_comma(bytes, from);
        add_trimmed(alloc, &mut pieces, text, from, to)?;
        if to >= bytes.len() {
            return Ok(pieces);
        }
        from = to + 1;
    }
    Ok(pieces)
}

// Whether a text is a number with `%`.
fn is_percent(text: &str) -> bool
    ensures { result ≡ is_percent text.now }
{
    let bytes = text.as_bytes();
    if bytes.is_empty() || !begins_number(bytes, 0) {
        return false;
    }
    let end = unit_start(bytes, 0);
    byte_at(bytes, end) == signs::PERCENT && end + 1 == bytes.len()
}

fn is_frame(text: &str) -> bool
    ensures { result ≡ is_frame text.now }
{
    text == "from" || text == "to" || is_percent(text)
}

// Whether what is no selector may not stand behind these: it may be empty behind the first one.
fn is_stray(frames: &[Name], text: &str) -> bool
    ensures { result ≡ is_stray frames.now text.now }
{
    !text.is_empty() || frames.is_empty()
}

// The selectors among what stands between commas, where nothing else stands there. One comma or more stand between two,
// and behind the last.
fn frames_of(alloc: Global, pieces: &[Name]) -> Result<Option<List<Name>>, Memory>
    ensures { IfOk result (λ frames. frames ≡ frames_of pieces.now) }
{
    let mut frames = List::new(alloc);
    'pieces: for piece in pieces {
        if is_frame(piece.as_str()) {
            frames.push(piece.share()?)?;
            continue;
        }
        if is_stray(frames.as_slice(), piece.as_str()) {
            return Ok(None);
        }
    }
    Ok(Some(frames))
}

// With a comma between two.
fn with_commas(alloc: Global, frames: &[Name]) -> Result<List<Name>, Memory>
    ensures { IfOk result (λ pieces. pieces ≡ with_commas [] frames.now) }
{
    let mut pieces = List::new(alloc);
    'frames: for frame in frames {
        add_comma(alloc, &mut pieces)?;
        pieces.push(frame.share()?)?;
    }
    Ok(pieces)
}

/// The selectors of a rule in keyframes as they are written: `from`, `to` and percents. They stand here.
pub fn keyframe_text(alloc: Global, text: &Name, span: &Span) -> Result<Name, Refused>
    ensures { Returns result (keyframe_text text.now span.now) }
{
    let pieces = pieces_of(alloc, text.as_str())?;
    match frames_of(alloc, pieces.as_slice())? {
        Some(frames) => {
            let whole = with_commas(alloc, frames.as_slice())?;
            Ok(whole_text(alloc, whole.as_slice())?)
        }
        None => refuses(FaultCode::BadSelector, span),
    }
}
