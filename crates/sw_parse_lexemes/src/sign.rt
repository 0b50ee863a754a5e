// What a sign is at its place.
ghost use Rattle.std.specs.Prelude.{◌≡◌, ◌<◌, length};
ghost use Rattle.sw_parse_lexemes.specs.Signs.{ends_operand, is_text, or_raw, plus_signs, minus_signs, sign_in_text, by_operand, plus_terminal, names_rule, minus_in_text, minus_terminal, star_terminal, comma_terminal, dot_terminal, is_params, is_behind_rest, dollar_in_code, dollar_terminal, is_flag, takes_flags, ends_value, bang_terminal, insert_in, insert_terminal};

use crate::ahead::{
    code_from, is_direct, name_direct, next_sort, number_direct, sort_at, spaced_at,
};
use crate::class::same;
use crate::name::{continues, is, is_apart, is_raw};
use crate::plain::Plain;
use crate::sort::Sort;
use crate::state::{Mode, State};
use sw_parse_terminals::Terminal;

fn ends_operand(terminal: Terminal) -> bool
    ensures { result ≡ ends_operand terminal }
{
    match terminal {
        Terminal::Number => true,
        Terminal::Quoted => true,
        Terminal::TemplateEnd => true,
        Terminal::HashName => true,
        Terminal::True => true,
        Terminal::False => true,
        Terminal::Null => true,
        Terminal::Url => true,
        Terminal::UrlEnd => true,
        Terminal::VariableName => true,
        Terminal::Word => true,
        Terminal::Part => true,
        Terminal::InsertEnd => true,
        Terminal::Range => true,
        Terminal::Ampersand => true,
        Terminal::Important => true,
        Terminal::ParenEnd => true,
        Terminal::BracketEnd => true,
        Terminal::RawParenEnd => true,
        _ => false,
    }
}

pub(crate) fn is_text(mode: Mode) -> bool
    ensures { result ≡ is_text mode }
{
    match mode {
        Mode::Special => true,
        mode => is_raw(mode),
    }
}

pub(crate) fn or_raw(mode: Mode, terminal: Terminal) -> Terminal
    ensures { result ≡ or_raw mode terminal }
{
    if is_text(mode) {
        Terminal::Raw
    } else {
        terminal
    }
}

fn plus_signs(state: &State, plains: &[Plain], at: usize) -> bool
    requires { at < length plains.now }
    ensures { result ≡ plus_signs state.now plains.now at }
{
    number_direct(plains, at + 1) && !ends_operand(state.before)
}

fn minus_signs(state: &State, plains: &[Plain], at: usize) -> bool
    requires { at < length plains.now }
    ensures { result ≡ minus_signs state.now plains.now at }
{
    number_direct(plains, at + 1) && (spaced_at(plains, at) || !ends_operand(state.before))
}

fn sign_in_text(mode: Mode, signs: bool) -> Terminal
    ensures { result ≡ sign_in_text mode signs }
{
    if signs && !is_raw(mode) {
        Terminal::Sign
    } else {
        Terminal::Raw
    }
}

pub(crate) fn by_operand(state: &State, binary: Terminal, prefix: Terminal) -> Terminal
    ensures { result ≡ by_operand state.now binary prefix }
{
    if ends_operand(state.before) {
        binary
    } else {
        prefix
    }
}

pub(crate) fn plus_terminal(state: &State, plains: &[Plain], at: usize) -> Terminal
    requires { at < length plains.now }
    ensures { result ≡ plus_terminal state.now plains.now at }
{
    if is_text(state.mode) {
        sign_in_text(state.mode, plus_signs(state, plains, at))
    } else if plus_signs(state, plains, at) {
        Terminal::Sign
    } else {
        by_operand(state, Terminal::Plus, Terminal::PrefixPlus)
    }
}

fn names_rule(state: &State, plains: &[Plain], at: usize) -> bool
    ensures { result ≡ names_rule state.now plains.now at }
{
    (is(state.before, Terminal::AtInsert) || is(state.before, Terminal::WordMinus))
        && !spaced_at(plains, at)
}

fn minus_in_text(state: &State, plains: &[Plain], at: usize) -> Terminal
    requires { at < length plains.now }
    ensures { result ≡ minus_in_text state.now plains.now at }
{
    if names_rule(state, plains, at) && is_direct(plains, at + 1, Sort::OpenInsert) {
        Terminal::WordMinus
    } else {
        sign_in_text(state.mode, minus_signs(state, plains, at))
    }
}

pub(crate) fn minus_terminal(state: &State, plains: &[Plain], at: usize) -> Terminal
    requires { at < length plains.now }
    ensures { result ≡ minus_terminal state.now plains.now at }
{
    if continues(state, plains, at) {
        Terminal::Part
    } else if is_text(state.mode) {
        minus_in_text(state, plains, at)
    } else if is_direct(plains, at + 1, Sort::OpenInsert) {
        if is_apart(state, plains, at) {
            Terminal::Other
        } else {
            Terminal::WordMinus
        }
    } else if minus_signs(state, plains, at) {
        Terminal::Sign
    } else {
        by_operand(state, Terminal::Minus, Terminal::PrefixMinus)
    }
}

pub(crate) fn star_terminal(state: &State, plains: &[Plain], at: usize) -> Terminal
    ensures { result ≡ star_terminal state.now plains.now at }
{
    if is(state.before, Terminal::As) {
        Terminal::Star
    } else if is(state.before, Terminal::Prefix) && !spaced_at(plains, at) {
        Terminal::PrefixStar
    } else {
        or_raw(state.mode, Terminal::Times)
    }
}

pub(crate) fn comma_terminal(mode: Mode) -> Terminal
    ensures { result ≡ comma_terminal mode }
{
    match mode {
        Mode::Special => Terminal::SpecialComma,
        mode => {
            if is_raw(mode) {
                Terminal::Raw
            } else {
                Terminal::Comma
            }
        }
    }
}

pub(crate) fn dot_terminal(state: &State, plains: &[Plain], at: usize) -> Terminal
    ensures { result ≡ dot_terminal state.now plains.now at }
{
    if is(state.before, Terminal::Owner) && !spaced_at(plains, at) {
        Terminal::OwnerDot
    } else {
        or_raw(state.mode, Terminal::Other)
    }
}

fn is_params(mode: Mode) -> bool
    ensures { result ≡ is_params mode }
{
    match mode {
        Mode::Params => true,
        _ => false,
    }
}

fn is_behind_rest(state: &State) -> bool
    ensures { result ≡ is_behind_rest state.now }
{
    is_params(state.mode)
        && is(state.before, Terminal::Comma)
        && is(state.before_that, Terminal::Ellipsis)
}

fn dollar_in_code(state: &State, plains: &[Plain], at: usize) -> Terminal
    requires { at < length plains.now }
    ensures { result ≡ dollar_in_code state.now plains.now at }
{
    if is_behind_rest(state) {
        Terminal::Other
    } else if same(sort_at(plains, code_from(plains, at + 2)), Sort::Colon) {
        Terminal::DollarNamed
    } else {
        Terminal::Dollar
    }
}

pub(crate) fn dollar_terminal(state: &State, plains: &[Plain], at: usize) -> Terminal
    requires { at < length plains.now }
    ensures { result ≡ dollar_terminal state.now plains.now at }
{
    if is_raw(state.mode) {
        Terminal::Raw
    } else if is(state.before, Terminal::OwnerDot) && !spaced_at(plains, at) {
        Terminal::OwnerDollar
    } else if is_text(state.mode) {
        if name_direct(plains, at + 1) {
            Terminal::Dollar
        } else {
            Terminal::Raw
        }
    } else {
        dollar_in_code(state, plains, at)
    }
}

fn is_flag(terminal: Terminal) -> bool
    ensures { result ≡ is_flag terminal }
{
    match terminal {
        Terminal::Default => true,
        Terminal::Global => true,
        _ => false,
    }
}

fn takes_flags(mode: Mode) -> bool
    ensures { result ≡ takes_flags mode }
{
    match mode {
        Mode::Ends => true,
        Mode::BoundEnds => true,
        _ => false,
    }
}

fn ends_value(state: &State, plains: &[Plain], at: usize) -> bool
    requires { at < length plains.now }
    ensures { result ≡ ends_value state.now plains.now at }
{
    is_flag(state.before)
        || same(next_sort(plains, at), Sort::Default)
        || same(next_sort(plains, at), Sort::Global)
}

pub(crate) fn bang_terminal(state: &State, plains: &[Plain], at: usize) -> Terminal
    requires { at < length plains.now }
    ensures { result ≡ bang_terminal state.now plains.now at }
{
    if takes_flags(state.mode) && ends_value(state, plains, at) {
        Terminal::Ending
    } else {
        or_raw(state.mode, Terminal::Bang)
    }
}

fn insert_in(state: &State, plains: &[Plain], at: usize) -> Terminal
    ensures { result ≡ insert_in state.now plains.now at }
{
    match state.mode {
        Mode::Raw => {
            if names_rule(state, plains, at) {
                Terminal::WordInsert
            } else {
                Terminal::Insert
            }
        }
        Mode::Custom => Terminal::Insert,
        Mode::Special => Terminal::Insert,
        Mode::Text => Terminal::Insert,
        _ => {
            if is_apart(state, plains, at) {
                Terminal::Other
            } else {
                Terminal::WordInsert
            }
        }
    }
}

pub(crate) fn insert_terminal(state: &State, plains: &[Plain], at: usize) -> Terminal
    ensures { result ≡ insert_terminal state.now plains.now at }
{
    if continues(state, plains, at) {
        Terminal::PartInsert
    } else {
        insert_in(state, plains, at)
    }
}
