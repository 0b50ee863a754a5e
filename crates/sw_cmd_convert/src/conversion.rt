// The conversion of a sheet.
ghost use Rattle.std.specs.Prelude.{◌≡◌, ◌≢◌, ◌≤◌, length};
ghost use Rattle.sw_io.specs.Causes.{NoFault, Rose};
ghost use Rattle.sw_cmd_convert.specs.Converted.{converted};
ghost use Rattle.sw_cmd_convert.specs.Ends.{most_bytes, ending_of, EndsOf, EndsBy};

use crate::Ending;
use crate::written::{Written, converted};
use std::alloc::Global;
use std::str;
use sw_cmd_line::Conversion;
use sw_cmd_protocol::send;
use sw_io::{ReadStop, Sink, Source};
use sw_modules::Reader;
use sw_text::Memory;

/// The most bytes that a sheet has.
const MOST_BYTES: usize = 1_048_576;

/// Reads the source to its end as a sheet of the first syntax with the path `in.scss` or `in.sass`, and writes it in the
/// second syntax, or the one line `error CODE PATH L:C L:C` of what keeps it from being written: a fault of its text, or
/// 42 where lines can't hold a statement of it. The sink is flushed. Tells how that ended: an input of more than
/// 1,048,576 bytes or that isn't UTF-8 is no text. No call of the source or the sink fails but the one by whose fault it
/// ends.
pub fn convert<R: Reader, S: Source, K: Sink>(
    alloc: Global,
    reader: &R,
    conversion: Conversion,
    source: &mut S,
    sink: &mut K,
) -> Ending
    ensures ends { EndsBy result R.reads conversion.from conversion.to (S.left source.old) (S.left source.new)
        (K.written sink.old) (K.written sink.new) }
    ensures source_fault { result ≡ Ending.SourceFailed → Rose (S.faults source.old) (S.faults source.new) }
    ensures sink_fault { result ≡ Ending.SinkFailed → Rose (K.faults sink.old) (K.faults sink.new) }
    ensures no_source_fault { result ≢ Ending.SourceFailed → NoFault (S.faults source.old) (S.faults source.new) }
    ensures no_sink_fault { result ≢ Ending.SinkFailed → NoFault (K.faults sink.old) (K.faults sink.new) }
{
    let Ok(mut ahead) = sw_io::Reader::new(alloc) else {
        return Ending::Memory;
    };
    let mut bytes = Vec::new(alloc);
    match ahead.rest(source, MOST_BYTES, &mut bytes) {
        Ok(()) => match str::from_utf8(&bytes) {
            Ok(text) => convert_text(alloc, reader, conversion, text, sink),
            Err(_) => Ending::NoText,
        },
        Err(ReadStop::TooLong | ReadStop::Ended) => Ending::NoText,
        Err(ReadStop::Failed) => Ending::SourceFailed,
        Err(ReadStop::Memory) => Ending::Memory,
    }
}

// The same of a text that was read.
fn convert_text<R: Reader, K: Sink>(
    alloc: Global,
    reader: &R,
    conversion: Conversion,
    text: &str,
    sink: &mut K,
) -> Ending
    requires { length text.now ≤ most_bytes }
    ensures ends { EndsOf result (converted R.reads conversion.from conversion.to text.now) (K.written sink.old) (K.written sink.new) }
    ensures fault { result ≡ Ending.SinkFailed → Rose (K.faults sink.old) (K.faults sink.new) }
    ensures no_fault { result ≢ Ending.SinkFailed → NoFault (K.faults sink.old) (K.faults sink.new) }
{
    match converted(alloc, reader, conversion, text) {
        Err(Memory) => Ending::Memory,
        Ok(written) => match send(sink, written.as_slice()) {
            Ok(()) => ending_of(&written),
            Err(_) => Ending::SinkFailed,
        },
    }
}

// How a conversion ends of which all was written.
fn ending_of(written: &Written) -> Ending
    ensures { result ≡ ending_of written.now }
{
    match written {
        Written::Whole(_) => Ending::Converted,
        Written::Refusal(_) => Ending::Refused,
    }
}
