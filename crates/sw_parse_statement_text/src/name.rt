// The names of members and modules.
ghost use Rattle.std.specs.Prelude.{◌≡◌, ◌∷◌, [], IfOk, IsTrue, ◌<◌, length};
ghost use Rattle.sw_parse_grammar.specs.Grammar.{member, keep, alt};
ghost use Rattle.sw_parse_terminals.specs.declared.terminal.Terminal.TheVariants.{Named, Star};
ghost use Rattle.sw_parse_terminals.specs.Numbers.{these, just};
ghost use Rattle.sw_parse_table.specs.Parts.{Place, Members};
ghost use Rattle.sw_parse_table.specs.Sources.{terminal_at};
ghost use Rattle.sw_parse_table.specs.Statements.{dollar_name, as_name, as_prefix, member_};
ghost use Rattle.sw_parse_table.specs.Actions.{to_member};
ghost use Rattle.sw_parse_table.specs.Reads.{reader, reads, Reads};
ghost use Rattle.sw_parse_statement_text.specs.Rows.{namespace_names, place_in};

use std::alloc::Global;
use sw_parse_expr_nodes::{is_dollar, kept, skipped};
use sw_parse_grammar::ReadError;
use sw_parse_table::{Source, bytes_at, found, is_at};
use sw_parse_terminals::Terminal;
use sw_text::{Memory, Name};
use sw_tree::Member;

/// `$name`: the place of its name, and the one behind it.
#[tactic(auto, unfolding(sw_parse_grammar::specs::Readers::parse, sw_parse_table::specs::Statements::dollar_name))]
pub fn dollar_name_at(source: &Source, levels: u8, at: usize) -> Result<(usize, usize), ReadError>
    ensures { Reads (λ place. Place place ∷ []) result (reads source.now levels dollar_name at) }
{
    if !is_dollar(source, at) {
        return Err(ReadError::Unexpected(at));
    }
    kept(source, levels, at + 1, Terminal::VariableName)
}

fn is_namespace(source: &Source, at: usize) -> bool
    ensures test { result ≡ member (terminal_at source.now at) namespace_names }
    ensures within { IsTrue result → at < length source.now.lexemes.now }
{
    is_at(source, at, Terminal::Named) || is_at(source, at, Terminal::Star)
}

/// `as name` or `as *` behind `@use`, where it stands: the place of the name or the `*`.
#[tactic(auto, unfolding(sw_parse_grammar::specs::Readers::parse, sw_parse_table::specs::Statements::as_name))]
pub fn as_name_at(
    source: &Source,
    levels: u8,
    at: usize,
) -> Result<(Option<usize>, usize), ReadError>
    ensures { Reads place_in result (reads source.now levels as_name at) }
{
    if !is_at(source, at, Terminal::As) {
        return Ok((None, at));
    }
    if !is_namespace(source, at + 1) {
        return Err(ReadError::Unexpected(at + 1));
    }
    Ok((Some(at + 1), at + 2))
}

/// `as prefix*` behind `@forward`, where it stands: the place of the prefix.
#[tactic(auto, unfolding(sw_parse_grammar::specs::Readers::parse, sw_parse_table::specs::Statements::as_prefix))]
pub fn as_prefix_at(
    source: &Source,
    levels: u8,
    at: usize,
) -> Result<(Option<usize>, usize), ReadError>
    ensures { Reads place_in result (reads source.now levels as_prefix at) }
{
    if !is_at(source, at, Terminal::As) {
        return Ok((None, at));
    }
    let (prefix, place) = kept(source, levels, at + 1, Terminal::Prefix)?;
    let place = skipped(source, levels, place, Terminal::PrefixStar)?;
    Ok((Some(prefix), place))
}

/// The place of the name of a member, with `$` before it or without.
#[tactic(auto, unfolding(sw_parse_grammar::specs::Readers::parse))]
fn member_name_at(source: &Source, levels: u8, at: usize) -> Result<(usize, usize), ReadError>
    ensures { Reads (λ place. Place place ∷ []) result
        (reader source.now levels (alt (keep (just Named)) (dollar_name source.now)) at) }
{
    if is_at(source, at, Terminal::Named) {
        Ok((at, at + 1))
    } else {
        dollar_name_at(source, levels, at)
    }
}

fn member_of(
    alloc: Global,
    source: &Source,
    at: usize,
    place: usize,
    name: usize,
) -> Result<Member, Memory>
    ensures { IfOk result (λ member. to_member source.now at place (Place name ∷ []) ≡ Members member ∷ []) }
{
    Ok(Member {
        variable: is_at(source, name, Terminal::VariableName),
        name: Name::dashed(alloc, bytes_at(source, name))?,
    })
}

/// A name behind `show` or `hide`.
#[tactic(auto, unfolding(sw_parse_grammar::specs::Readers::parse, sw_parse_table::specs::Statements::member_))]
pub fn member_at(
    alloc: Global,
    source: &Source,
    levels: u8,
    at: usize,
) -> Result<(Member, usize), ReadError>
    ensures { Reads (λ member. Members member ∷ []) result (reads source.now levels member_ at) }
{
    let (name, place) = member_name_at(source, levels, at)?;
    let member = found(member_of(alloc, source, at, place, name))?;
    Ok((member, place))
}
