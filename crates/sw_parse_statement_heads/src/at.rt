// The end of a statement, namespaces, and lists of places.
ghost use Rattle.std.specs.Prelude.{◌≡◌, ◌∷◌, [], ◌++◌, map, IfOk, IfErr, OnOk};
ghost use Rattle.sw_parse_grammar.specs.Grammar.{prepend};
ghost use Rattle.sw_parse_table.specs.Parts.{Place, States};
ghost use Rattle.sw_parse_table.specs.Values.{namespaced};
ghost use Rattle.sw_parse_table.specs.Statements.{finish};
ghost use Rattle.sw_parse_table.specs.Reads.{reads, Reads};

use std::alloc::Global;
use sw_parse_expr_nodes::given_up;
use sw_parse_grammar::ReadError;
use sw_parse_statement_text::finish_at;
use sw_parse_table::{Source, bytes_at, found, span_at};
use sw_text::{List, Memory, Name};
use sw_tree::{Namespaced, Statement};

/// A statement that was read, and the place behind its end.
pub fn ended(
    source: &Source,
    levels: u8,
    place: usize,
    statement: Statement,
) -> Result<(Statement, usize), ReadError>
    ensures { Reads (λ read. States read ∷ []) result (prepend (States statement ∷ []) (reads source.now levels finish
        place)) }
{
    match finish_at(source, levels, place) {
        Ok(next) => Ok((statement, next)),
        Err(error) => Err(given_up(statement, error)),
    }
}

/// The namespace at a place.
pub fn namespaced(alloc: Global, source: &Source, at: usize) -> Result<Namespaced, Memory>
    ensures { IfOk result (λ namespace. namespace ≡ namespaced source.now at) }
{
    let span = span_at(source, at)?;
    Ok(Namespaced {
        name: Name::new(alloc, bytes_at(source, at))?,
        span,
    })
}

/// Puts a place behind the others.
pub(crate) fn added(list: &mut List<usize>, place: usize) -> Result<(), ReadError>
    ensures more { OnOk result (map Place list.new ≡ map Place list.old ++ Place place ∷ []) }
    ensures memory { IfErr result (λ error. error ≡ ReadError.Memory) }
{
    found(list.push(place))
}
