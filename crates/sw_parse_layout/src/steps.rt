// One step over an indented text.
ghost use Rattle.std.specs.Prelude.{◌≡◌, ◌<◌, ◌≤◌, ◌^◌, length, IfOk, Ok};
ghost use Rattle.std.specs.Str.{IsCharBoundary};
ghost use Rattle.sw_tokens.specs.Skips.{IsPlain};
ghost use Rattle.sw_tokens.specs.Tokens.{top};
ghost use Rattle.sw_tokens.specs.declared.token.Syntax.TheVariants as syntaxes;
ghost use Rattle.sw_parse_layout.specs.Steps.{is_comma, reach_in, break_found, statement_step, behind_break, behind_step, statement_begun, text_step, step, Stepped};

use crate::blocks::line_begun;
use crate::comments::{comment_begun, comment_step};
use crate::lines::{Margin, Reach, comment_end};
use crate::pieces::{is_outside, line_over, moved, passed, piece_step};
use crate::sorts::Sort;
use crate::state::{Extent, Found, Line, Mode, State, StepEnd};
use std::alloc::Global;
use sw_text::{List, Memory};
use sw_text_scan::{
    Class, begins_loud, begins_silent, byte_at, is_break, is_white, run_end, signs,
};
use sw_tokens::Before;

fn is_comma(sort: Sort) -> bool
    ensures { result ≡ is_comma sort }
{
    matches!(sort, Sort::Comma)
}

fn reach_in(line: &Line, depth: usize) -> Reach
    ensures { result ≡ reach_in line.now depth }
{
    if line.brackets.len() == 0 {
        Reach::Sign(depth)
    } else {
        Reach::Joined
    }
}

/// At the end of a line of a statement.
fn break_found(alloc: Global, s: State) -> Found
    requires { s.at < 2 ^ 32 }
    ensures { result ≡ break_found s }
{
    if s.line.brackets.len() == 0 && !is_comma(s.line.sort) {
        return line_over(alloc, s);
    }
    let to = s.at + 1;
    moved(alloc, s, to)
}

#[tactic(auto, unfolding(crate::specs::Steps::statement_step))]
fn statement_step(alloc: Global, text: &str, s: State, depth: usize) -> Result<Found, StepEnd>
    requires short { length text.now < 2 ^ 32 }
    requires within { s.at < length text.now }
    requires cut { IsCharBoundary text.now s.at }
    requires plain { IsPlain (top syntaxes.Scss s.line.opened) }
    ensures { Stepped result (statement_step text.now s depth) }
{
    let bytes = text.as_bytes();
    let at = s.at;
    let byte = byte_at(bytes, at);
    if is_break(byte) {
        return Ok(break_found(alloc, s));
    }
    if is_white(byte) {
        return Ok(moved(alloc, s, at + 1));
    }
    if begins_silent(bytes, at) {
        return Ok(moved(alloc, s, run_end(bytes, Class::Line, at + 2)));
    }
    if begins_loud(bytes, at) {
        let to = comment_end(bytes, reach_in(&s.line, depth), at + 2);
        return Ok(passed(alloc, s, to)?);
    }
    piece_step(alloc, text, s)
}

/// At the end of a line behind a comment.
fn behind_break(alloc: Global, s: State, stop: usize) -> Found
    requires { s.at < 2 ^ 32 }
    ensures { result ≡ behind_break s stop }
{
    let at = s.at;
    if at < stop {
        return moved(alloc, s, at + 1);
    }
    line_over(alloc, s)
}

#[tactic(auto, unfolding(crate::specs::Steps::behind_step))]
fn behind_step(alloc: Global, text: &str, s: State, extent: Extent) -> Result<Found, StepEnd>
    requires short { length text.now < 2 ^ 32 }
    requires within { s.at < length text.now }
    requires cut { IsCharBoundary text.now s.at }
    requires plain { IsPlain (top syntaxes.Scss s.line.opened) }
    ensures { Stepped result (behind_step text.now s extent) }
{
    let bytes = text.as_bytes();
    let at = s.at;
    let byte = byte_at(bytes, at);
    if is_break(byte) {
        return Ok(behind_break(alloc, s, extent.stop));
    }
    if is_white(byte) {
        return Ok(moved(alloc, s, at + 1));
    }
    if begins_silent(bytes, at) {
        return Ok(moved(alloc, s, run_end(bytes, Class::Line, at + 2)));
    }
    if begins_loud(bytes, at) {
        let to = comment_end(bytes, Reach::Sign(extent.depth), at + 2);
        return Ok(moved(alloc, s, to));
    }
    piece_step(alloc, text, s)
}

fn statement_begun(alloc: Global, bytes: &[u8], s: State, at: usize) -> Result<Found, Memory>
    requires short { length bytes.now < 2 ^ 32 }
    requires order { s.at ≤ at }
    requires within { at ≤ length bytes.now }
    ensures { IfOk result (λ found. found ≡ statement_begun bytes.now s at) }
{
    let State {
        at: start,
        line,
        blocks,
        ..
    } = s;
    let begun = line_begun(
        alloc,
        bytes,
        blocks,
        line.end,
        Margin { start, text: at },
        true,
    )?;
    Ok(Found {
        laid: begun.laid,
        state: State {
            at,
            mode: Mode::Statement(at - start),
            line: Line {
                opened: line.opened,
                before: Before::White,
                brackets: List::new(alloc),
                sort: Sort::Fresh,
                end: at as u32,
                comments: List::new(alloc),
            },
            blocks: begun.blocks,
        },
    })
}

#[tactic(auto, unfolding(crate::specs::Steps::text_step))]
fn text_step(alloc: Global, bytes: &[u8], s: State, at: usize) -> Result<Found, Memory>
    requires short { length bytes.now < 2 ^ 32 }
    requires order { s.at ≤ at }
    requires within { at ≤ length bytes.now }
    ensures { IfOk result (λ found. text_step bytes.now s at ≡ Ok found) }
{
    let byte = byte_at(bytes, at);
    if byte == signs::END {
        return Ok(moved(alloc, s, at));
    }
    if is_break(byte) {
        return Ok(moved(alloc, s, at + 1));
    }
    if begins_silent(bytes, at) {
        let to = comment_end(bytes, Reach::Lines(at - s.at), at);
        return Ok(moved(alloc, s, to));
    }
    if begins_loud(bytes, at) {
        return comment_begun(alloc, bytes, s, at);
    }
    statement_begun(alloc, bytes, s, at)
}

/// One step.
#[tactic(auto, unfolding(crate::specs::Steps::step))]
pub(crate) fn step(alloc: Global, text: &str, s: State) -> Result<Found, StepEnd>
    requires short { length text.now < 2 ^ 32 }
    requires within { s.at < length text.now }
    requires cut { IsCharBoundary text.now s.at }
    requires plain { IsPlain (top syntaxes.Scss s.line.opened) }
    ensures { Stepped result (step text.now s) }
{
    if !is_outside(&s.line) {
        return piece_step(alloc, text, s);
    }
    match s.mode {
        Mode::Between => {
            let at = run_end(text.as_bytes(), Class::Blank, s.at);
            Ok(text_step(alloc, text.as_bytes(), s, at)?)
        }
        Mode::Statement(depth) => statement_step(alloc, text, s, depth),
        Mode::Comment(extent) => comment_step(alloc, text, s, extent),
        Mode::Behind(extent) => behind_step(alloc, text, s, extent),
    }
}
