// What a name is at its place.
ghost use Rattle.std.specs.Prelude.{◌≡◌, ◌<◌, ◌≤◌, length};
ghost use Rattle.sw_parse_terminals.specs.Numbers.{number_of};
ghost use Rattle.sw_parse_lexemes.specs.Names.{is, is_raw, continues, is_apart, behind_dollar, is_bang, behind_bang, constant_or_word, is_special_name, name_in_expression, stays_text, owns, name_in_special, word_in_load, before_member, name_in_use, name_in_forward, using_or_named, name_in_include, is_not, not_in_media, only_in_media, is_only, keyword_in_media, name_in_media, is_in, is_from, name_in_each, name_in_for, is_bound_end, name_in_bounds, name_in, behind_sign, name_terminal};

use crate::ahead::{begins_word, code_from, is_direct, name_direct, next_sort, sort_at, spaced_at};
use crate::class::{is_reserved, same};
use crate::plain::Plain;
use crate::sort::Sort;
use crate::state::{Mode, State};
use sw_parse_terminals::Terminal;

fn number(terminal: Terminal) -> u8
    ensures { result ≡ number_of terminal }
{
    terminal as u8
}

pub(crate) fn is(a: Terminal, b: Terminal) -> bool
    ensures { result ≡ is a b }
{
    number(a) == number(b)
}

pub(crate) fn is_raw(mode: Mode) -> bool
    ensures { result ≡ is_raw mode }
{
    match mode {
        Mode::Raw => true,
        Mode::Custom => true,
        _ => false,
    }
}

pub(crate) fn continues(state: &State, plains: &[Plain], at: usize) -> bool
    ensures { result ≡ continues state.now plains.now at }
{
    state.word && !spaced_at(plains, at)
}

pub(crate) fn is_apart(state: &State, plains: &[Plain], at: usize) -> bool
    ensures { result ≡ is_apart state.now plains.now at }
{
    is(state.before, Terminal::OwnerDot) && spaced_at(plains, at)
}

fn behind_dollar(terminal: Terminal) -> bool
    ensures { result ≡ behind_dollar terminal }
{
    match terminal {
        Terminal::Dollar => true,
        Terminal::DollarNamed => true,
        Terminal::OwnerDollar => true,
        _ => false,
    }
}

fn is_bang(terminal: Terminal) -> bool
    ensures { result ≡ is_bang terminal }
{
    match terminal {
        Terminal::Bang => true,
        Terminal::Ending => true,
        _ => false,
    }
}

fn behind_bang(sort: Sort) -> Terminal
    ensures { result ≡ behind_bang sort }
{
    match sort {
        Sort::Important => Terminal::Important,
        Sort::Default => Terminal::Default,
        Sort::Global => Terminal::Global,
        _ => Terminal::Word,
    }
}

#[inline(always)]
fn constant_or_word(sort: Sort) -> Terminal
    ensures { result ≡ constant_or_word sort }
{
    match sort {
        Sort::True => Terminal::True,
        Sort::False => Terminal::False,
        Sort::Null => Terminal::Null,
        Sort::And => Terminal::And,
        Sort::Or => Terminal::Or,
        Sort::Not => Terminal::Not,
        _ => Terminal::Word,
    }
}

fn is_special_name(sort: Sort) -> bool
    ensures { result ≡ is_special_name sort }
{
    match sort {
        Sort::Special => true,
        _ => false,
    }
}

fn name_in_expression(state: &State, plains: &[Plain], at: usize) -> Terminal
    requires { at < length plains.now }
    ensures { result ≡ name_in_expression state.now plains.now at }
{
    if is_direct(plains, at + 1, Sort::OpenInsert) {
        Terminal::Word
    } else if is(state.before, Terminal::OwnerDot) {
        constant_or_word(sort_at(plains, at))
    } else if is_direct(plains, at + 1, Sort::Dot) {
        Terminal::Owner
    } else if is_special_name(sort_at(plains, at)) && is_direct(plains, at + 1, Sort::OpenParen) {
        Terminal::Special
    } else {
        constant_or_word(sort_at(plains, at))
    }
}

fn stays_text(sort: Sort) -> bool
    ensures { result ≡ stays_text sort }
{
    match sort {
        Sort::Special => true,
        Sort::Stays => true,
        sort => is_reserved(sort),
    }
}

fn owns(plains: &[Plain], at: usize) -> bool
    requires { at < length plains.now }
    ensures { result ≡ owns plains.now at }
{
    is_direct(plains, at + 1, Sort::Dot)
        && ((is_direct(plains, at + 2, Sort::Dollar) && name_direct(plains, at + 3))
            || (name_direct(plains, at + 2) && is_direct(plains, at + 3, Sort::OpenParen)))
}

fn name_in_special(state: &State, plains: &[Plain], at: usize) -> Terminal
    requires { at < length plains.now }
    ensures { result ≡ name_in_special state.now plains.now at }
{
    if is(state.before, Terminal::OwnerDot) {
        Terminal::Word
    } else if owns(plains, at) {
        Terminal::Owner
    } else if is_direct(plains, at + 1, Sort::OpenParen) && !stays_text(sort_at(plains, at)) {
        Terminal::Word
    } else {
        Terminal::Raw
    }
}

fn word_in_load(sort: Sort) -> Terminal
    ensures { result ≡ word_in_load sort }
{
    match sort {
        Sort::As => Terminal::As,
        Sort::With => Terminal::With,
        Sort::Show => Terminal::Show,
        Sort::Hide => Terminal::Hide,
        _ => Terminal::Named,
    }
}

fn before_member(terminal: Terminal) -> bool
    ensures { result ≡ before_member terminal }
{
    match terminal {
        Terminal::Show => true,
        Terminal::Hide => true,
        Terminal::Comma => true,
        _ => false,
    }
}

fn name_in_use(state: &State, sort: Sort) -> Terminal
    ensures { result ≡ name_in_use state.now sort }
{
    if is(state.before, Terminal::As) {
        Terminal::Named
    } else {
        word_in_load(sort)
    }
}

fn name_in_forward(state: &State, sort: Sort) -> Terminal
    ensures { result ≡ name_in_forward state.now sort }
{
    if is(state.before, Terminal::As) {
        Terminal::Prefix
    } else if before_member(state.before) {
        Terminal::Named
    } else {
        word_in_load(sort)
    }
}

fn using_or_named(sort: Sort) -> Terminal
    ensures { result ≡ using_or_named sort }
{
    match sort {
        Sort::Using => Terminal::Using,
        _ => Terminal::Named,
    }
}

fn name_in_include(state: &State, plains: &[Plain], at: usize) -> Terminal
    requires { at < length plains.now }
    ensures { result ≡ name_in_include state.now plains.now at }
{
    if is(state.before, Terminal::AtInclude) {
        if is_direct(plains, at + 1, Sort::Dot) {
            Terminal::Owner
        } else {
            Terminal::Named
        }
    } else if is(state.before, Terminal::OwnerDot) {
        Terminal::Named
    } else {
        using_or_named(sort_at(plains, at))
    }
}

pub(crate) fn is_not(plains: &[Plain], at: usize) -> bool
    requires { at ≤ length plains.now }
    ensures { result ≡ is_not plains.now at }
{
    same(sort_at(plains, at), Sort::Not) && !is_direct(plains, at + 1, Sort::OpenInsert)
}

fn not_in_media(state: &State, plains: &[Plain], at: usize) -> Terminal
    requires { at < length plains.now }
    ensures { result ≡ not_in_media state.now plains.now at }
{
    if is(state.before, Terminal::And)
        || is(state.before, Terminal::ConditionParen)
        || same(next_sort(plains, at), Sort::OpenParen)
    {
        Terminal::Not
    } else {
        Terminal::NotType
    }
}

fn only_in_media(plains: &[Plain], at: usize) -> Terminal
    requires { at < length plains.now }
    ensures { result ≡ only_in_media plains.now at }
{
    if begins_word(plains, code_from(plains, at + 1)) {
        Terminal::Only
    } else {
        Terminal::Word
    }
}

fn is_only(sort: Sort) -> bool
    ensures { result ≡ is_only sort }
{
    match sort {
        Sort::Only => true,
        _ => false,
    }
}

fn keyword_in_media(state: &State, plains: &[Plain], at: usize) -> Terminal
    requires { at < length plains.now }
    ensures { result ≡ keyword_in_media state.now plains.now at }
{
    if same(sort_at(plains, at), Sort::Not) {
        not_in_media(state, plains, at)
    } else if is_only(sort_at(plains, at)) {
        only_in_media(plains, at)
    } else {
        constant_or_word(sort_at(plains, at))
    }
}

fn name_in_media(state: &State, plains: &[Plain], at: usize) -> Terminal
    requires { at < length plains.now }
    ensures { result ≡ name_in_media state.now plains.now at }
{
    if is_direct(plains, at + 1, Sort::OpenInsert) {
        Terminal::Word
    } else {
        keyword_in_media(state, plains, at)
    }
}

fn is_in(sort: Sort) -> bool
    ensures { result ≡ is_in sort }
{
    match sort {
        Sort::In => true,
        _ => false,
    }
}

fn is_from(sort: Sort) -> bool
    ensures { result ≡ is_from sort }
{
    match sort {
        Sort::From => true,
        _ => false,
    }
}

fn name_in_each(state: &State, sort: Sort) -> Terminal
    ensures { result ≡ name_in_each state.now sort }
{
    if is(state.before, Terminal::VariableName) && is_in(sort) {
        Terminal::In
    } else {
        Terminal::Named
    }
}

fn name_in_for(state: &State, sort: Sort) -> Terminal
    ensures { result ≡ name_in_for state.now sort }
{
    if is(state.before, Terminal::VariableName) && is_from(sort) {
        Terminal::From
    } else {
        Terminal::Named
    }
}

fn is_bound_end(plains: &[Plain], at: usize) -> bool
    requires { at < length plains.now }
    ensures { result ≡ is_bound_end plains.now at }
{
    !(is_direct(plains, at + 1, Sort::OpenInsert) || is_direct(plains, at + 1, Sort::Dot))
}

fn name_in_bounds(state: &State, plains: &[Plain], at: usize) -> Terminal
    requires { at < length plains.now }
    ensures { result ≡ name_in_bounds state.now plains.now at }
{
    match sort_at(plains, at) {
        Sort::Through => {
            if is_bound_end(plains, at) {
                Terminal::Through
            } else {
                name_in_expression(state, plains, at)
            }
        }
        Sort::To => {
            if is_bound_end(plains, at) {
                Terminal::To
            } else {
                name_in_expression(state, plains, at)
            }
        }
        _ => name_in_expression(state, plains, at),
    }
}

fn name_in(state: &State, plains: &[Plain], at: usize) -> Terminal
    requires { at < length plains.now }
    ensures { result ≡ name_in state.now plains.now at }
{
    match state.mode {
        Mode::Special => name_in_special(state, plains, at),
        Mode::CustomName => Terminal::Custom,
        Mode::Use => name_in_use(state, sort_at(plains, at)),
        Mode::Forward => name_in_forward(state, sort_at(plains, at)),
        Mode::Head => Terminal::Named,
        Mode::Include => name_in_include(state, plains, at),
        Mode::Each => name_in_each(state, sort_at(plains, at)),
        Mode::For => name_in_for(state, sort_at(plains, at)),
        Mode::Bounds => name_in_bounds(state, plains, at),
        Mode::BoundEnds => name_in_bounds(state, plains, at),
        Mode::Else => Terminal::If,
        Mode::Media => name_in_media(state, plains, at),
        _ => name_in_expression(state, plains, at),
    }
}

fn behind_sign(state: &State, plains: &[Plain], at: usize) -> Terminal
    requires { at < length plains.now }
    ensures { result ≡ behind_sign state.now plains.now at }
{
    if !spaced_at(plains, at) && behind_dollar(state.before) {
        Terminal::VariableName
    } else if !spaced_at(plains, at) && is(state.before, Terminal::Hash) {
        Terminal::HashName
    } else if is_bang(state.before) {
        behind_bang(sort_at(plains, at))
    } else if is_apart(state, plains, at) {
        Terminal::Other
    } else {
        name_in(state, plains, at)
    }
}

/// The terminal of a name.
pub(crate) fn name_terminal(state: &State, plains: &[Plain], at: usize) -> Terminal
    requires { at < length plains.now }
    ensures { result ≡ name_terminal state.now plains.now at }
{
    if continues(state, plains, at) {
        Terminal::Part
    } else if is_raw(state.mode) {
        Terminal::Raw
    } else {
        behind_sign(state, plains, at)
    }
}
