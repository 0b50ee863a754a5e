// What statements begin with.
ghost use Rattle.std.specs.Prelude.{◌≡◌, ◌<◌, length, IsTrue};
ghost use Rattle.sw_parse_grammar.specs.Grammar.{member};
ghost use Rattle.sw_parse_table.specs.Sources.{terminal_at};
ghost use Rattle.sw_scss_parse.specs.Starts.{comment_starts, plain_starts, load_starts, member_starts, flow_starts, worded_starts, statement_starts};

use sw_parse_table::{Source, is_at, number_at};
use sw_parse_terminals::Terminal;

/// Whether a comment that is a statement begins at a place.
pub(crate) fn is_comment(source: &Source, at: usize) -> bool
    ensures { result ≡ member (terminal_at source.now at) comment_starts }
{
    is_at(source, at, Terminal::CommentWhole) || is_at(source, at, Terminal::CommentTemplate)
}

#[tactic(auto, using(crate::proofs::Rows::plain_row))]
fn is_plain_number(number: u8) -> bool
    ensures { result ≡ member number plain_starts }
{
    number == Terminal::Semicolon as u8
        || (Terminal::Raw as u8 <= number && number <= Terminal::Insert as u8)
        || (Terminal::Dollar as u8 <= number && number <= Terminal::WordInsert as u8)
        || (Terminal::Custom as u8 <= number && number <= Terminal::CommentTemplate as u8)
}

/// Whether a statement that begins with no `@` begins at a place, or a `;` stands there.
pub(crate) fn is_plain(source: &Source, at: usize) -> bool
    ensures { result ≡ member (terminal_at source.now at) plain_starts }
{
    is_plain_number(number_at(source, at))
}

/// Whether a statement that loads a module begins at a place.
pub(crate) fn is_load(source: &Source, at: usize) -> bool
    ensures { result ≡ member (terminal_at source.now at) load_starts }
{
    is_at(source, at, Terminal::AtUse) || is_at(source, at, Terminal::AtForward)
}

/// Whether a statement that declares or includes a member begins at a place.
#[tactic(auto, using(crate::proofs::Rows::member_row))]
pub(crate) fn is_member(source: &Source, at: usize) -> bool
    ensures { result ≡ member (terminal_at source.now at) member_starts }
{
    let number = number_at(source, at);
    Terminal::AtFunction as u8 <= number && number <= Terminal::AtContent as u8
}

#[tactic(auto, using(crate::proofs::Rows::flow_row))]
fn is_flow_number(number: u8) -> bool
    ensures { result ≡ member number flow_starts }
{
    (Terminal::AtReturn as u8 <= number && number <= Terminal::AtIf as u8)
        || (Terminal::AtEach as u8 <= number && number <= Terminal::AtWhile as u8)
}

/// Whether a statement that controls the flow begins at a place, or one that says something.
pub(crate) fn is_flow(source: &Source, at: usize) -> bool
    ensures { result ≡ member (terminal_at source.now at) flow_starts }
{
    is_flow_number(number_at(source, at))
}

#[tactic(auto, using(crate::proofs::Rows::worded_row))]
fn is_worded_number(number: u8) -> bool
    ensures { result ≡ member number worded_starts }
{
    (Terminal::AtUse as u8 <= number && number <= Terminal::AtIf as u8)
        || (Terminal::AtEach as u8 <= number && number <= Terminal::AtInsert as u8)
}

fn is_statement_number(number: u8) -> bool
    ensures { result ≡ member number statement_starts }
{
    is_plain_number(number) || is_worded_number(number)
}

/// Whether a statement begins at a place, or a `;` alone.
#[tactic(auto, using(crate::proofs::Rows::begins_some))]
pub(crate) fn begins_statement(source: &Source, at: usize) -> bool
    ensures test { result ≡ member (terminal_at source.now at) statement_starts }
    ensures within { IsTrue result → at < length source.now.lexemes.now }
{
    is_statement_number(number_at(source, at))
}
