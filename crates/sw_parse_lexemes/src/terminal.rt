// The terminal of the token at a place.
ghost use Rattle.std.specs.Prelude.{◌≡◌, ◌<◌, length};
ghost use Rattle.sw_parse_lexemes.specs.Terminals.{number_terminal, digits_terminal, loaded_url, string_in_code, string_terminal, goes_on, at_terminal, else_terminal, lone_at, terminal_of};

use crate::ahead::{is_direct, length_at, next_sort, sort_at};
use crate::bracket::{
    bracket_terminal, close_brace, closes_bracket, closes_paren, innermost, open_brace,
    paren_terminal, semicolon,
};
use crate::class::same;
use crate::name::{continues, is_raw, name_terminal};
use crate::plain::Plain;
use crate::sign::{
    bang_terminal, by_operand, comma_terminal, dollar_terminal, dot_terminal, insert_terminal,
    is_text, minus_terminal, or_raw, plus_terminal, star_terminal,
};
use crate::sort::Sort;
use crate::state::{Mode, State};
use sw_parse_terminals::Terminal;

fn number_terminal(mode: Mode) -> Terminal
    ensures { result ≡ number_terminal mode }
{
    if is_raw(mode) {
        Terminal::Raw
    } else {
        Terminal::Number
    }
}

fn digits_terminal(state: &State, plains: &[Plain], at: usize) -> Terminal
    ensures { result ≡ digits_terminal state.now plains.now at }
{
    if continues(state, plains, at) {
        Terminal::Part
    } else {
        number_terminal(state.mode)
    }
}

fn loaded_url(plains: &[Plain], at: usize, named: bool) -> Terminal
    requires { at < length plains.now }
    ensures { result ≡ loaded_url plains.now at named }
{
    if named || same(next_sort(plains, at), Sort::As) {
        Terminal::LoadUrl
    } else {
        Terminal::Other
    }
}

fn string_in_code(state: &State, plains: &[Plain], at: usize, named: bool) -> Terminal
    requires { at < length plains.now }
    ensures { result ≡ string_in_code state.now plains.now at named }
{
    match state.before {
        Terminal::AtCharset => Terminal::Plain,
        Terminal::AtForward => Terminal::LoadUrl,
        Terminal::AtUse => loaded_url(plains, at, named),
        _ => Terminal::Quoted,
    }
}

fn string_terminal(state: &State, plains: &[Plain], at: usize, named: bool) -> Terminal
    requires { at < length plains.now }
    ensures { result ≡ string_terminal state.now plains.now at named }
{
    if is_text(state.mode) {
        Terminal::Raw
    } else {
        string_in_code(state, plains, at, named)
    }
}

fn goes_on(plains: &[Plain], at: usize) -> bool
    requires { at < length plains.now }
    ensures { result ≡ goes_on plains.now at }
{
    1 < length_at(plains, at) && is_direct(plains, at + 1, Sort::OpenInsert)
}

fn at_terminal(state: &State, plains: &[Plain], at: usize, terminal: Terminal) -> Terminal
    requires { at < length plains.now }
    ensures { result ≡ at_terminal state.now plains.now at terminal }
{
    if state.start {
        if goes_on(plains, at) {
            Terminal::AtOther
        } else {
            terminal
        }
    } else {
        or_raw(state.mode, Terminal::Other)
    }
}

fn else_terminal(plains: &[Plain], at: usize) -> Terminal
    requires { at < length plains.now }
    ensures { result ≡ else_terminal plains.now at }
{
    if same(next_sort(plains, at), Sort::If) {
        Terminal::AtElseIf
    } else {
        Terminal::AtElse
    }
}

fn lone_at(state: &State) -> Terminal
    ensures { result ≡ lone_at state.now }
{
    if state.start {
        Terminal::AtInsert
    } else {
        or_raw(state.mode, Terminal::Other)
    }
}

/// The terminal of the token at a place, by what is known before it.
#[tactic(auto, unfolding(crate::specs::Terminals::terminal_of))]
pub(crate) fn terminal_of(state: &State, plains: &[Plain], at: usize) -> Terminal
    requires { at < length plains.now }
    ensures { result ≡ terminal_of state.now plains.now at }
{
    match sort_at(plains, at) {
        Sort::Digits => digits_terminal(state, plains, at),
        Sort::Number => number_terminal(state.mode),
        Sort::Hex => or_raw(state.mode, Terminal::HashName),
        Sort::Quoted => string_terminal(state, plains, at, true),
        Sort::Unnamed => string_terminal(state, plains, at, false),
        Sort::Template => or_raw(state.mode, Terminal::Template),
        Sort::Text => or_raw(state.mode, Terminal::TextPiece),
        Sort::TemplateEnd => or_raw(state.mode, Terminal::TemplateEnd),
        Sort::Url => or_raw(state.mode, Terminal::Url),
        Sort::UrlTemplate => or_raw(state.mode, Terminal::UrlTemplate),
        Sort::Piece => or_raw(state.mode, Terminal::Piece),
        Sort::UrlEnd => or_raw(state.mode, Terminal::UrlEnd),
        Sort::Comment => Terminal::CommentWhole,
        Sort::CommentTemplate => Terminal::CommentTemplate,
        Sort::CommentEnd => Terminal::CommentEnd,
        Sort::Range => or_raw(state.mode, Terminal::Range),
        Sort::OpenInsert => insert_terminal(state, plains, at),
        Sort::CloseInsert => Terminal::InsertEnd,
        Sort::OpenBrace => open_brace(
            state.mode,
            innermost(state.frames.as_slice()),
            length_at(plains, at),
        ),
        Sort::CloseBrace => close_brace(state.mode, innermost(state.frames.as_slice())),
        Sort::OpenParen => paren_terminal(state, plains, at),
        Sort::CloseParen => closes_paren(state.mode, innermost(state.frames.as_slice())),
        Sort::OpenBracket => bracket_terminal(state.mode),
        Sort::CloseBracket => closes_bracket(state.mode, innermost(state.frames.as_slice())),
        Sort::Colon => or_raw(state.mode, Terminal::Colon),
        Sort::Semicolon => semicolon(state.mode, innermost(state.frames.as_slice())),
        Sort::Comma => comma_terminal(state.mode),
        Sort::Dot => dot_terminal(state, plains, at),
        Sort::Ellipsis => or_raw(state.mode, Terminal::Ellipsis),
        Sort::Dollar => dollar_terminal(state, plains, at),
        Sort::Hash => or_raw(state.mode, Terminal::Hash),
        Sort::Exclamation => bang_terminal(state, plains, at),
        Sort::Ampersand => or_raw(state.mode, Terminal::Ampersand),
        Sort::Plus => plus_terminal(state, plains, at),
        Sort::Minus => minus_terminal(state, plains, at),
        Sort::Star => star_terminal(state, plains, at),
        Sort::Slash => or_raw(
            state.mode,
            by_operand(state, Terminal::Divide, Terminal::PrefixSlash),
        ),
        Sort::Percent => or_raw(state.mode, Terminal::Modulo),
        Sort::Equals => or_raw(state.mode, Terminal::Equals),
        Sort::EqualsEquals => or_raw(state.mode, Terminal::Equal),
        Sort::NotEquals => or_raw(state.mode, Terminal::NotEqual),
        Sort::Less => or_raw(state.mode, Terminal::Less),
        Sort::LessEquals => or_raw(state.mode, Terminal::LessEqual),
        Sort::Greater => or_raw(state.mode, Terminal::Greater),
        Sort::GreaterEquals => or_raw(state.mode, Terminal::GreaterEqual),
        Sort::At => lone_at(state),
        Sort::AtUse => at_terminal(state, plains, at, Terminal::AtUse),
        Sort::AtForward => at_terminal(state, plains, at, Terminal::AtForward),
        Sort::AtFunction => at_terminal(state, plains, at, Terminal::AtFunction),
        Sort::AtMixin => at_terminal(state, plains, at, Terminal::AtMixin),
        Sort::AtInclude => at_terminal(state, plains, at, Terminal::AtInclude),
        Sort::AtContent => at_terminal(state, plains, at, Terminal::AtContent),
        Sort::AtReturn => at_terminal(state, plains, at, Terminal::AtReturn),
        Sort::AtWarn => at_terminal(state, plains, at, Terminal::AtWarn),
        Sort::AtDebug => at_terminal(state, plains, at, Terminal::AtDebug),
        Sort::AtError => at_terminal(state, plains, at, Terminal::AtError),
        Sort::AtIf => at_terminal(state, plains, at, Terminal::AtIf),
        Sort::AtElse => at_terminal(state, plains, at, else_terminal(plains, at)),
        Sort::AtElseIf => at_terminal(state, plains, at, Terminal::AtElseIfWhole),
        Sort::AtEach => at_terminal(state, plains, at, Terminal::AtEach),
        Sort::AtFor => at_terminal(state, plains, at, Terminal::AtFor),
        Sort::AtWhile => at_terminal(state, plains, at, Terminal::AtWhile),
        Sort::AtMedia => at_terminal(state, plains, at, Terminal::AtMedia),
        Sort::AtSupports => at_terminal(state, plains, at, Terminal::AtSupports),
        Sort::AtRoot => at_terminal(state, plains, at, Terminal::AtRoot),
        Sort::AtCharset => at_terminal(state, plains, at, Terminal::AtCharset),
        Sort::AtImport => at_terminal(state, plains, at, Terminal::AtImport),
        Sort::AtExtend => at_terminal(state, plains, at, Terminal::AtExtend),
        Sort::AtName => at_terminal(state, plains, at, Terminal::AtOther),
        Sort::Other => or_raw(state.mode, Terminal::Other),
        _ => name_terminal(state, plains, at),
    }
}
