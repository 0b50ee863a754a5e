// Heads that are texts.
ghost use Rattle.std.specs.Prelude.{◌≡◌, ◌∷◌, [], ◌+◌, ◌<◌, length, map, IfOk, IsTrue};
ghost use Rattle.sw_parse_grammar.specs.Grammar.{member, many};
ghost use Rattle.sw_parse_terminals.specs.declared.terminal.Terminal.TheVariants.{Word, Colon};
ghost use Rattle.sw_parse_terminals.specs.Numbers.{just};
ghost use Rattle.sw_parse_table.specs.Parts.{Texts};
ghost use Rattle.sw_parse_table.specs.Sources.{terminal_at, text_between};
ghost use Rattle.sw_parse_table.specs.Expressions.{space, word, word_part, word_insert, signed_insert};
ghost use Rattle.sw_parse_table.specs.Statements.{raw, optional_raw, at_name, property};
ghost use Rattle.sw_parse_table.specs.Reads.{reader, reads, Reads, ReadsValue};
ghost use Rattle.sw_parse_expr_nodes.specs.Views.{insert_of};
ghost use Rattle.sw_parse_statement_text.specs.Rows.{text_in};
ghost use Rattle.sw_parse_statement_heads.specs.Heads.{ReadsHead, rule_head, supports_head, at_root_head, at_head, at_parts};
ghost use Rattle.sw_parse_statement_heads.specs.Rows.{inserted_name, at_name_row};

use std::alloc::Global;
use sw_expr_parse::read_space;
use sw_parse_expr_lists::{Pieces, inserted_at, pieces_at, word_at};
use sw_parse_expr_nodes::{Inserted, given_up, joined, plain_text_of, skipped, text_of};
use sw_parse_grammar::ReadError;
use sw_parse_statement_text::{optional_raw_at, raw_at};
use sw_parse_table::{Source, found, is_at};
use sw_parse_terminals::Terminal;
use sw_text::List;
use sw_tree::{Expr, Text};

/// What stands before the block of an at-rule that Sass doesn't know, or before its end.
#[derive(Drop)]
pub struct AtRuleHead {
    /// The name without `@`.
    pub name: Text,
    /// What is written behind the name.
    pub prelude: Option<Text>,
}

/// Raw text.
fn raw_text_at(
    alloc: Global,
    source: &Source,
    levels: u8,
    at: usize,
) -> Result<(Text, usize), ReadError>
    ensures { Reads (λ text. Texts text ∷ []) result (reads source.now levels raw at) }
{
    raw_at(
        alloc,
        |lower: u8, place: usize| -> Result<(Expr, usize), ReadError>
            ensures { ReadsValue result (reads source.entry.now lower space place) }
        { read_space(alloc, source, lower, place) },
        source,
        levels,
        at,
    )
}

/// Raw text where some stands.
fn optional_text_at(
    alloc: Global,
    source: &Source,
    levels: u8,
    at: usize,
) -> Result<(Option<Text>, usize), ReadError>
    ensures { Reads text_in result (reads source.now levels optional_raw at) }
{
    optional_raw_at(
        alloc,
        |lower: u8, place: usize| -> Result<(Expr, usize), ReadError>
            ensures { ReadsValue result (reads source.entry.now lower space place) }
        { read_space(alloc, source, lower, place) },
        source,
        levels,
        at,
    )
}

/// The selector of a rule.
#[tactic(auto, unfolding(sw_parse_grammar::specs::Readers::parse))]
pub fn rule_head_at(
    alloc: Global,
    source: &Source,
    levels: u8,
    at: usize,
) -> Result<(Text, usize), ReadError>
    ensures { ReadsHead (λ text. Texts text ∷ []) result (reader source.now levels (rule_head source.now) at) }
{
    raw_text_at(alloc, source, levels, at)
}

/// `@supports condition`
#[tactic(auto, unfolding(sw_parse_grammar::specs::Readers::parse))]
pub fn supports_head_at(
    alloc: Global,
    source: &Source,
    levels: u8,
    at: usize,
) -> Result<(Text, usize), ReadError>
    ensures { ReadsHead (λ text. Texts text ∷ []) result (reader source.now levels (supports_head source.now) at) }
{
    let place = skipped(source, levels, at, Terminal::AtSupports)?;
    raw_text_at(alloc, source, levels, place)
}

/// `@at-root` and the selector or the query behind it
#[tactic(auto, unfolding(sw_parse_grammar::specs::Readers::parse))]
pub fn at_root_head_at(
    alloc: Global,
    source: &Source,
    levels: u8,
    at: usize,
) -> Result<(Option<Text>, usize), ReadError>
    ensures { ReadsHead text_in result (reader source.now levels (at_root_head source.now) at) }
{
    let place = skipped(source, levels, at, Terminal::AtRoot)?;
    optional_text_at(alloc, source, levels, place)
}

/// What goes on with a name: the `#{}` in it.
#[tactic(auto, unfolding(sw_parse_table::specs::Expressions::word_part, sw_parse_table::specs::Expressions::part_insert))]
fn name_parts_at(
    alloc: Global,
    source: &Source,
    levels: u8,
    at: usize,
) -> Result<(List<Inserted>, usize), ReadError>
    ensures { Reads (λ list. map insert_of list) result (reader source.now levels (many (word_part source.now)) at) }
{
    pieces_at(
        alloc,
        |lower: u8, place: usize| -> Result<(Expr, usize), ReadError>
            ensures { ReadsValue result (reads source.entry.now lower space place) }
        { read_space(alloc, source, lower, place) },
        source,
        levels,
        at,
        Pieces::Word,
    )
}

/// A `#{}` with which a name begins.
#[tactic(auto, unfolding(sw_parse_table::specs::Expressions::word_insert))]
fn first_insert_at(
    alloc: Global,
    source: &Source,
    levels: u8,
    at: usize,
) -> Result<(Inserted, usize), ReadError>
    ensures { Reads (λ inserted. insert_of inserted ∷ []) result (reads source.now levels word_insert at) }
{
    inserted_at(
        alloc,
        |lower: u8, place: usize| -> Result<(Expr, usize), ReadError>
            ensures { ReadsValue result (reads source.entry.now lower space place) }
        { read_space(alloc, source, lower, place) },
        source,
        levels,
        at,
        Terminal::WordInsert,
    )
}

/// A `#{}` with which a name begins, or one behind a `-`.
#[tactic(auto, unfolding(sw_parse_grammar::specs::Readers::parse))]
fn signed_insert_at(
    alloc: Global,
    source: &Source,
    levels: u8,
    at: usize,
) -> Result<(Inserted, usize), ReadError>
    ensures { Reads (λ inserted. insert_of inserted ∷ []) result (reads source.now levels signed_insert at) }
{
    if is_at(source, at, Terminal::WordMinus) {
        first_insert_at(alloc, source, levels, at + 1)
    } else {
        first_insert_at(alloc, source, levels, at)
    }
}

/// A name that begins with `#{}`: all that stand in it.
#[tactic(auto, unfolding(sw_parse_grammar::specs::Readers::parse))]
fn inserted_name_at(
    alloc: Global,
    source: &Source,
    levels: u8,
    at: usize,
) -> Result<(List<Inserted>, usize), ReadError>
    ensures { Reads (λ list. map insert_of list) result (reader source.now levels (inserted_name source.now) at) }
{
    let (first, place) = signed_insert_at(alloc, source, levels, at)?;
    let (rest, place) = name_parts_at(alloc, source, levels, place)?;
    let list = found(joined(Some(first), rest))?;
    Ok((list, place))
}

/// The `#{}` in the name of an at-rule.
#[tactic(auto, unfolding(sw_parse_grammar::specs::Readers::parse))]
fn name_inserts_at(
    alloc: Global,
    source: &Source,
    levels: u8,
    at: usize,
) -> Result<(List<Inserted>, usize), ReadError>
    ensures { Reads (λ list. map insert_of list) result (reader source.now levels (at_name_row source.now) at) }
{
    if is_at(source, at, Terminal::AtOther) {
        return name_parts_at(alloc, source, levels, at + 1);
    }
    let place = skipped(source, levels, at, Terminal::AtInsert)?;
    inserted_name_at(alloc, source, levels, place)
}

/// The name of an at-rule.
#[tactic(auto, unfolding(sw_parse_grammar::specs::Readers::parse, sw_parse_table::specs::Statements::at_name))]
fn at_name_at(
    alloc: Global,
    source: &Source,
    levels: u8,
    at: usize,
) -> Result<(Text, usize), ReadError>
    ensures { Reads (λ text. Texts text ∷ []) result (reads source.now levels at_name at) }
{
    let (list, place) = name_inserts_at(alloc, source, levels, at)?;
    let text = found(text_of(alloc, source, at, place, list))?;
    Ok((text, place))
}

/// `@name prelude`
#[tactic(auto, unfolding(sw_parse_grammar::specs::Readers::parse))]
pub fn at_head_at(
    alloc: Global,
    source: &Source,
    levels: u8,
    at: usize,
) -> Result<(AtRuleHead, usize), ReadError>
    ensures { ReadsHead at_parts result (reader source.now levels (at_head source.now) at) }
{
    let (name, place) = at_name_at(alloc, source, levels, at)?;
    match optional_text_at(alloc, source, levels, place) {
        Ok((prelude, next)) => Ok((AtRuleHead { name, prelude }, next)),
        Err(error) => Err(given_up(name, error)),
    }
}

/// A word.
fn name_at(
    alloc: Global,
    source: &Source,
    levels: u8,
    at: usize,
) -> Result<(Text, usize), ReadError>
    ensures { Reads (λ text. Texts text ∷ []) result (reads source.now levels word at) }
{
    word_at(
        alloc,
        |lower: u8, place: usize| -> Result<(Expr, usize), ReadError>
            ensures { ReadsValue result (reads source.entry.now lower space place) }
        { read_space(alloc, source, lower, place) },
        source,
        levels,
        at,
    )
}

/// A property with its `:`, whatever is inserted in it.
#[inline(never)]
#[tactic(auto, unfolding(sw_parse_grammar::specs::Readers::parse, sw_parse_table::specs::Statements::property))]
fn any_property_at(
    alloc: Global,
    source: &Source,
    levels: u8,
    at: usize,
) -> Result<(Text, usize), ReadError>
    ensures { ReadsHead (λ text. Texts text ∷ []) result (reads source.now levels property at) }
{
    let (text, place) = name_at(alloc, source, levels, at)?;
    if !is_at(source, place, Terminal::Colon) {
        return Err(given_up(text, ReadError::Unexpected(place)));
    }
    Ok((text, place + 1))
}

/// The same where a word stands with a `:` behind it: nothing is inserted in most of them.
#[inline(always)]
fn plain_property_at(
    alloc: Global,
    source: &Source,
    levels: u8,
    at: usize,
) -> Result<(Text, usize), ReadError>
    requires word { IsTrue (member (terminal_at source.now at) (just Word)) }
    requires colon { IsTrue (member (terminal_at source.now (at + 1)) (just Colon)) }
    requires within { at + 1 < length source.now.lexemes.now }
    ensures { ReadsHead (λ text. Texts text ∷ []) result (reads source.now levels property at) }
{
    let place = at + 1;
    let word = found(plain_text_of(alloc, source, at, place))?;
    Ok((word, place + 1))
}

/// The property of a declaration, with its `:`.
pub fn property_at(
    alloc: Global,
    source: &Source,
    levels: u8,
    at: usize,
) -> Result<(Text, usize), ReadError>
    ensures { ReadsHead (λ text. Texts text ∷ []) result (reads source.now levels property at) }
{
    if is_at(source, at, Terminal::Word) && is_at(source, at + 1, Terminal::Colon) {
        return plain_property_at(alloc, source, levels, at);
    }
    any_property_at(alloc, source, levels, at)
}
