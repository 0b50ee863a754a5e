// Which terminal stands at a place of a query.
ghost use Rattle.std.specs.Prelude.{◌≡◌, length, ◌<◌, IsTrue};
ghost use Rattle.sw_parse_grammar.specs.Grammar.{member};
ghost use Rattle.sw_parse_table.specs.Sources.{terminal_at};
ghost use Rattle.sw_parse_media_queries.specs.Joints.{comparisons, prefixes, names, type_parts};

use sw_parse_table::{Source, is_at};
use sw_parse_terminals::Terminal;

/// Whether values are compared at a place.
pub(crate) fn is_comparison(source: &Source, at: usize) -> bool
    ensures test { result ≡ member (terminal_at source.now at) comparisons }
    ensures within { IsTrue result → at < length source.now.lexemes.now }
{
    is_at(source, at, Terminal::Less)
        || is_at(source, at, Terminal::LessEqual)
        || is_at(source, at, Terminal::Greater)
        || is_at(source, at, Terminal::GreaterEqual)
        || is_at(source, at, Terminal::Equals)
}

/// Whether `not` or `only` before a media type stands at a place.
pub(crate) fn is_prefix(source: &Source, at: usize) -> bool
    ensures { result ≡ member (terminal_at source.now at) prefixes }
{
    is_at(source, at, Terminal::NotType) || is_at(source, at, Terminal::Only)
}

/// Whether a media type begins at a place with a name or a sign.
pub(crate) fn begins_name(source: &Source, at: usize) -> bool
    ensures { result ≡ member (terminal_at source.now at) names }
{
    is_at(source, at, Terminal::Word) || is_at(source, at, Terminal::WordMinus)
}

/// Whether a media type goes on at a place.
pub(crate) fn is_type_part(source: &Source, at: usize) -> bool
    ensures test { result ≡ member (terminal_at source.now at) type_parts }
    ensures within { IsTrue result → at < length source.now.lexemes.now }
{
    is_at(source, at, Terminal::Part) || is_at(source, at, Terminal::PartInsert)
}
