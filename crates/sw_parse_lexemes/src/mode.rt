// How a statement is read, by its first tokens.
ghost use Rattle.std.specs.Prelude.{◌≡◌, ◌<◌, ◌≤◌, length};
ghost use Rattle.sw_parse_lexemes.specs.Modes.{begins_pseudo, is_rule, declared_mode, custom_mode, plain_mode, head_mode, statement_mode};

use crate::ahead::{
    begins_word, behind_first, code_from, is_direct, opens_block, sort_at, spaced_at,
};
use crate::class::{is_name, same, starts_name};
use crate::plain::Plain;
use crate::sort::Sort;
use crate::state::Mode;

fn begins_pseudo(plains: &[Plain], at: usize) -> bool
    ensures { result ≡ begins_pseudo plains.now at }
{
    !spaced_at(plains, at)
        && (starts_name(sort_at(plains, at))
            || same(sort_at(plains, at), Sort::OpenInsert)
            || same(sort_at(plains, at), Sort::Colon))
}

fn is_rule(plains: &[Plain], colon: usize) -> bool
    requires { colon ≤ length plains.now }
    ensures { result ≡ is_rule plains.now colon }
{
    begins_pseudo(plains, colon + 1) && opens_block(plains, colon + 1)
}

fn declared_mode(plains: &[Plain], colon: usize) -> Mode
    requires { colon ≤ length plains.now }
    ensures { result ≡ declared_mode plains.now colon }
{
    if same(sort_at(plains, colon), Sort::Colon) && !is_rule(plains, colon) {
        Mode::Expression
    } else {
        Mode::Raw
    }
}

fn custom_mode(plains: &[Plain], colon: usize) -> Mode
    requires { colon ≤ length plains.now }
    ensures { result ≡ custom_mode plains.now colon }
{
    if same(sort_at(plains, colon), Sort::Colon) {
        Mode::CustomName
    } else {
        Mode::Raw
    }
}

fn plain_mode(plains: &[Plain], at: usize) -> Mode
    requires { at < length plains.now }
    ensures { result ≡ plain_mode plains.now at }
{
    if is_name(sort_at(plains, at)) && is_direct(plains, at + 1, Sort::Dot) {
        if is_direct(plains, at + 2, Sort::Dollar) {
            Mode::Ends
        } else {
            Mode::Raw
        }
    } else {
        if begins_word(plains, at) {
            declared_mode(plains, code_from(plains, behind_first(plains, at)))
        } else {
            Mode::Raw
        }
    }
}

fn head_mode(plains: &[Plain], at: usize, mode: Mode) -> Mode
    requires { at < length plains.now }
    ensures { result ≡ head_mode plains.now at mode }
{
    if is_direct(plains, at + 1, Sort::OpenInsert) {
        Mode::Raw
    } else {
        mode
    }
}

#[tactic(auto, unfolding(crate::specs::Modes::statement_mode))]
pub(crate) fn statement_mode(plains: &[Plain], at: usize) -> Mode
    requires { at < length plains.now }
    ensures { result ≡ statement_mode plains.now at }
{
    match sort_at(plains, at) {
        Sort::Dollar => Mode::Ends,
        Sort::DashedName => custom_mode(plains, code_from(plains, behind_first(plains, at))),
        Sort::At => Mode::Raw,
        Sort::AtUse => head_mode(plains, at, Mode::Use),
        Sort::AtForward => head_mode(plains, at, Mode::Forward),
        Sort::AtFunction => head_mode(plains, at, Mode::Head),
        Sort::AtMixin => head_mode(plains, at, Mode::Head),
        Sort::AtInclude => head_mode(plains, at, Mode::Include),
        Sort::AtContent => head_mode(plains, at, Mode::Content),
        Sort::AtReturn => head_mode(plains, at, Mode::Expression),
        Sort::AtWarn => head_mode(plains, at, Mode::Expression),
        Sort::AtDebug => head_mode(plains, at, Mode::Expression),
        Sort::AtError => head_mode(plains, at, Mode::Expression),
        Sort::AtIf => head_mode(plains, at, Mode::Expression),
        Sort::AtElse => head_mode(plains, at, Mode::Else),
        Sort::AtElseIf => head_mode(plains, at, Mode::Expression),
        Sort::AtEach => head_mode(plains, at, Mode::Each),
        Sort::AtFor => head_mode(plains, at, Mode::For),
        Sort::AtWhile => head_mode(plains, at, Mode::Expression),
        Sort::AtMedia => head_mode(plains, at, Mode::Media),
        Sort::AtCharset => head_mode(plains, at, Mode::Expression),
        _ => plain_mode(plains, at)
    }
}
