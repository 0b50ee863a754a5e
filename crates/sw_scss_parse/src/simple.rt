// Statements without blocks, with the reader of expressions in them.
ghost use Rattle.std.specs.Prelude.{◌∷◌, []};
ghost use Rattle.sw_parse_table.specs.Parts.{States};
ghost use Rattle.sw_parse_table.specs.Expressions.{space};
ghost use Rattle.sw_parse_table.specs.Statements.{custom, comment, use_, import, extend};
ghost use Rattle.sw_parse_table.specs.Reads.{reads, Reads, ReadsValue};

use std::alloc::Global;
use sw_expr_parse::read_space;
use sw_parse_grammar::ReadError;
use sw_parse_statement_text::{comment_at, custom_at, extend_at, import_at, use_at};
use sw_parse_table::Source;
use sw_tree::{Expr, Statement};

/// `--property: text` and its end.
pub(crate) fn read_custom(
    alloc: Global,
    source: &Source,
    levels: u8,
    at: usize,
) -> Result<(Statement, usize), ReadError>
    ensures { Reads (λ statement. States statement ∷ []) result (reads source.now levels custom at) }
{
    custom_at(
        alloc,
        |lower: u8, place: usize| -> Result<(Expr, usize), ReadError>
            ensures { ReadsValue result (reads source.entry.now lower space place) }
        { read_space(alloc, source, lower, place) },
        source,
        levels,
        at,
    )
}

/// A comment that is a statement.
pub(crate) fn read_comment(
    alloc: Global,
    source: &Source,
    levels: u8,
    at: usize,
) -> Result<(Statement, usize), ReadError>
    ensures { Reads (λ statement. States statement ∷ []) result (reads source.now levels comment at) }
{
    comment_at(
        alloc,
        |lower: u8, place: usize| -> Result<(Expr, usize), ReadError>
            ensures { ReadsValue result (reads source.entry.now lower space place) }
        { read_space(alloc, source, lower, place) },
        source,
        levels,
        at,
    )
}

/// `@use` and its end.
pub(crate) fn read_use(
    alloc: Global,
    source: &Source,
    levels: u8,
    at: usize,
) -> Result<(Statement, usize), ReadError>
    ensures { Reads (λ statement. States statement ∷ []) result (reads source.now levels use_ at) }
{
    use_at(
        alloc,
        |lower: u8, place: usize| -> Result<(Expr, usize), ReadError>
            ensures { ReadsValue result (reads source.entry.now lower space place) }
        { read_space(alloc, source, lower, place) },
        source,
        levels,
        at,
    )
}

/// `@import` and its end.
pub(crate) fn read_import(
    alloc: Global,
    source: &Source,
    levels: u8,
    at: usize,
) -> Result<(Statement, usize), ReadError>
    ensures { Reads (λ statement. States statement ∷ []) result (reads source.now levels import at) }
{
    import_at(
        alloc,
        |lower: u8, place: usize| -> Result<(Expr, usize), ReadError>
            ensures { ReadsValue result (reads source.entry.now lower space place) }
        { read_space(alloc, source, lower, place) },
        source,
        levels,
        at,
    )
}

/// `@extend` and its end.
pub(crate) fn read_extend(
    alloc: Global,
    source: &Source,
    levels: u8,
    at: usize,
) -> Result<(Statement, usize), ReadError>
    ensures { Reads (λ statement. States statement ∷ []) result (reads source.now levels extend at) }
{
    extend_at(
        alloc,
        |lower: u8, place: usize| -> Result<(Expr, usize), ReadError>
            ensures { ReadsValue result (reads source.entry.now lower space place) }
        { read_space(alloc, source, lower, place) },
        source,
        levels,
        at,
    )
}
