// The names of functions, mixins and counters.
ghost use Rattle.std.specs.Prelude.{◌≡◌, IfOk};
ghost use Rattle.sw_parse_table.specs.Sources.{span_between};
ghost use Rattle.sw_parse_table.specs.Actions.{name_at};

use std::alloc::Global;
use sw_parse_table::{Source, bytes_at, span_between};
use sw_text::{Memory, Name, Span};

/// The name at a place, and the span of what stands between two places.
pub(crate) fn name_between(
    alloc: Global,
    source: &Source,
    places: (usize, usize),
    name: usize,
) -> Result<(Name, Span), Memory>
    ensures name { IfOk result (λ both. both.0 ≡ name_at source.now name) }
    ensures span { IfOk result (λ both. both.1 ≡ span_between source.now places.0 places.1) }
{
    let span = span_between(source, places.0, places.1)?;
    Ok((Name::dashed(alloc, bytes_at(source, name))?, span))
}
