// Conditions: features, and the words between them.
ghost use Rattle.std.specs.Prelude.{◌≡◌, ◌∷◌, [], ◌++◌, ◌<◌, length, IsTrue, OnOk, IfErr};
ghost use Rattle.sw_parse_grammar.specs.Grammar.{many, member};
ghost use Rattle.sw_parse_terminals.specs.declared.terminal.Terminal.TheVariants.{ConditionParen};
ghost use Rattle.sw_parse_terminals.specs.Numbers.{just};
ghost use Rattle.sw_tree.specs.declared.text.Piece.TheVariants as pieces;
ghost use Rattle.sw_parse_table.specs.Parts.{Condition};
ghost use Rattle.sw_parse_table.specs.Sources.{terminal_at};
ghost use Rattle.sw_parse_table.specs.Queries.{feature, paren_feature, not_feature, features, condition};
ghost use Rattle.sw_parse_table.specs.Reads.{reader, reads};
ghost use Rattle.sw_parse_media_queries.specs.Adding.{Adds, parens};
ghost use Rattle.sw_parse_media_queries.specs.Joints.{word_of, text_of, joined};

use crate::piece::{add_text, inserted_at, paren_end_at};
use crate::value::value_parens_at;
use std::alloc::Global;
use sw_parse_grammar::ReadError;
use sw_parse_table::{Source, is_at};
use sw_parse_terminals::Terminal;
use sw_text::List;
use sw_tree::Piece;

/// Which word joins features.
#[derive(Clone, Copy, Debug)]
pub(crate) enum Joint {
    And,
    Or,
}

/// Whether a further feature follows behind the word.
fn is_joined(source: &Source, at: usize, joint: Joint) -> bool
    ensures test { result ≡ member (terminal_at source.now at) (just (word_of joint)) }
    ensures within { IsTrue result → at < length source.now.lexemes.now }
{
    match joint {
        Joint::And => is_at(source, at, Terminal::And),
        Joint::Or => is_at(source, at, Terminal::Or),
    }
}

/// Puts the word behind the pieces, with spaces around it.
fn add_joint(alloc: Global, list: &mut List<Piece>, joint: Joint) -> Result<(), ReadError>
    ensures more { OnOk result (list.new ≡ list.old ++ pieces.Text (text_of joint) ∷ []) }
    ensures memory { IfErr result (λ error. error ≡ ReadError.Memory) }
{
    match joint {
        Joint::And => add_text(alloc, list, " and "),
        Joint::Or => add_text(alloc, list, " or "),
    }
}

/// A condition in parentheses, which open a level.
#[cycle(condition)]
fn condition_parens_at(
    alloc: Global,
    list: &mut List<Piece>,
    source: &Source,
    levels: u8,
    at: usize,
) -> Result<usize, ReadError>
    ensures { Adds list.old list.new result (reader source.now levels (parens ConditionParen Condition) at) }
{
    if !is_at(source, at, Terminal::ConditionParen) {
        return Err(ReadError::Unexpected(at));
    }
    if levels == 0 {
        return Err(ReadError::TooDeep(at));
    }
    add_text(alloc, list, "(")?;
    let place = condition_at(alloc, list, source, levels - 1, at + 1)?;
    paren_end_at(alloc, list, source, levels - 1, place)
}

/// A condition or a feature in parentheses.
#[cycle(condition)]
pub(crate) fn paren_feature_at(
    alloc: Global,
    list: &mut List<Piece>,
    source: &Source,
    levels: u8,
    at: usize,
) -> Result<usize, ReadError>
    ensures { Adds list.old list.new result (reads source.now levels paren_feature at) }
{
    if is_at(source, at, Terminal::ConditionParen) {
        condition_parens_at(alloc, list, source, levels, at)
    } else {
        value_parens_at(alloc, list, source, levels, at)
    }
}

/// The same, or a `#{}`.
#[cycle(condition)]
pub(crate) fn feature_at(
    alloc: Global,
    list: &mut List<Piece>,
    source: &Source,
    levels: u8,
    at: usize,
) -> Result<usize, ReadError>
    ensures { Adds list.old list.new result (reads source.now levels feature at) }
{
    if is_at(source, at, Terminal::WordInsert) {
        inserted_at(alloc, list, source, levels, at, Terminal::WordInsert)
    } else {
        paren_feature_at(alloc, list, source, levels, at)
    }
}

/// `not` and a feature.
#[cycle(condition)]
pub(crate) fn not_feature_at(
    alloc: Global,
    list: &mut List<Piece>,
    source: &Source,
    levels: u8,
    at: usize,
) -> Result<usize, ReadError>
    ensures { Adds list.old list.new result (reads source.now levels not_feature at) }
{
    if !is_at(source, at, Terminal::Not) {
        return Err(ReadError::Unexpected(at));
    }
    add_text(alloc, list, "not ")?;
    feature_at(alloc, list, source, levels, at + 1)
}

/// Any number of further features, each behind the word.
#[cycle(condition)]
pub(crate) fn joined_features_at(
    alloc: Global,
    list: &mut List<Piece>,
    source: &Source,
    levels: u8,
    at: usize,
    joint: Joint,
) -> Result<usize, ReadError>
    ensures { Adds list.old list.new result (reader source.now levels (many (joined source.now joint)) at) }
{
    let mut place = at;
    'features: while is_joined(source, place, joint) {
        add_joint(alloc, list, joint)?;
        place = feature_at(alloc, list, source, levels, place + 1)?;
    }
    Ok(place)
}

/// Any number of further features, all behind the same word.
#[cycle(condition)]
pub(crate) fn features_at(
    alloc: Global,
    list: &mut List<Piece>,
    source: &Source,
    levels: u8,
    at: usize,
) -> Result<usize, ReadError>
    ensures { Adds list.old list.new result (reads source.now levels features at) }
{
    if is_at(source, at, Terminal::And) {
        joined_features_at(alloc, list, source, levels, at, Joint::And)
    } else {
        joined_features_at(alloc, list, source, levels, at, Joint::Or)
    }
}

/// What stands in the parentheses of a condition.
#[cycle(condition)]
fn condition_at(
    alloc: Global,
    list: &mut List<Piece>,
    source: &Source,
    levels: u8,
    at: usize,
) -> Result<usize, ReadError>
    ensures { Adds list.old list.new result (reads source.now levels condition at) }
{
    if is_at(source, at, Terminal::Not) {
        return not_feature_at(alloc, list, source, levels, at);
    }
    let place = feature_at(alloc, list, source, levels, at)?;
    features_at(alloc, list, source, levels, place)
}
