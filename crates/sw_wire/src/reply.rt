// The text of a reply.
ghost use Rattle.std.specs.Prelude.{◌≡◌, ◌++◌, codes, length, take, IfOk, IfSome, OnOk, OnErr};
ghost use Rattle.std.specs.Option.{option_copied};
ghost use Rattle.sw_wire.specs.Replies.{reply_text, says_text, saying_text, saying_head, kind_word, ran_text, ran_line, cause_word, outcome_text, css_head, css_text, css_behind, error_text, fault_text, not_indentable_text, span_text, pos_text, edit_text, memory_text};

use std::alloc::Global;
use sw_folder::EditFault;
use sw_record::{Cause, Outcome, Reply};
use sw_text::{Fault, Memory, Name, Pos, Span};
use sw_world::{SayKind, Saying};

/// CSS of so many bytes is long: to copy it costs more than two more writes.
const LONG_CSS: usize = 16_384;

/// The number of a statement that lines can't hold. It's none of a compile.
const NOT_INDENTABLE: u16 = 42;

/// Room for the line in front of the CSS, and what stands behind it.
const LINE_ROOM: usize = 32;

/// Writes the reply to a compile behind what stands in `out`: for each message the line `warn PATH L:C L:C N`,
/// `debug PATH L:C L:C N` or `fatal PATH L:C L:C N`, the N bytes of its text and a line feed; for each module whose
/// body ran the line `ran PATH CAUSE`; then `css N`, a line feed, the N bytes and a line feed, or the line
/// `error CODE PATH L:C L:C`. After `Memory`, `out` is as before.
pub fn write_reply(alloc: Global, reply: &Reply, out: &mut Vec<u8>) -> Result<(), Memory>
    ensures ok { OnOk result (out.new.items ≡ out.old.items ++ reply_text reply.now) }
    ensures err { OnErr result (out.new.items ≡ out.old.items) }
{
    let before = out.len();
    match write_parts(alloc, reply, out) {
        Ok(()) => Ok(()),
        Err(Memory) => {
            out.truncate(before);
            Err(Memory)
        }
    }
}

/// Writes the reply to a compile as `write_reply` does, but for the bytes of a long CSS and the line feed behind them:
/// it gives these bytes, which are sent from where they stand, and not copied.
pub fn write_front<'r>(
    alloc: Global,
    reply: &'r Reply,
    out: &mut Vec<u8>,
) -> Result<Option<&'r [u8]>, Memory>
    ensures { IfOk result (λ css. out.old.items ++ reply_text reply.now
        ≡ out.new.items ++ css_behind (option_copied css)) }
{
    write_says(alloc, reply.says.as_slice(), out)?;
    write_ran(reply.ran.as_slice(), out)?;
    if let Some(css) = long_css(&reply.outcome) {
        write_css_head(alloc, css, out)?;
        return Ok(Some(css));
    }
    write_outcome(alloc, &reply.outcome, out)?;
    Ok(None)
}

// The CSS of an outcome, where it is long.
fn long_css(outcome: &Outcome) -> Option<&[u8]>
    ensures { IfSome result (λ css. outcome_text outcome.now ≡ css_text css.now) }
{
    match outcome {
        Outcome::Css(bytes) if bytes.len() >= LONG_CSS => Some(bytes.as_slice()),
        _ => None,
    }
}

fn write_parts(alloc: Global, reply: &Reply, out: &mut Vec<u8>) -> Result<(), Memory>
    ensures ok { OnOk result (out.new.items ≡ out.old.items ++ reply_text reply.now) }
    ensures err { OnErr result (take (length out.old.items) out.new.items ≡ out.old.items) }
{
    write_says(alloc, reply.says.as_slice(), out)?;
    write_ran(reply.ran.as_slice(), out)?;
    write_outcome(alloc, &reply.outcome, out)
}

/// Writes the messages of a reply behind what stands in `out`, as `write_reply` does. After `Memory` what stood there
/// stands there still, with a part of the messages behind it.
pub fn write_says(alloc: Global, says: &[Saying], out: &mut Vec<u8>) -> Result<(), Memory>
    ensures ok { OnOk result (out.new.items ≡ out.old.items ++ says_text says.now) }
    ensures err { OnErr result (take (length out.old.items) out.new.items ≡ out.old.items) }
{
    for saying in says {
        write_saying(alloc, saying, out)?;
    }
    Ok(())
}

fn write_saying(alloc: Global, saying: &Saying, out: &mut Vec<u8>) -> Result<(), Memory>
    ensures ok { OnOk result (out.new.items ≡ out.old.items ++ saying_text saying.now) }
    ensures err { OnErr result (take (length out.old.items) out.new.items ≡ out.old.items) }
{
    let text = saying.text.as_str().as_bytes();
    let head = saying_head(alloc, saying)?;
    out.extend_from_slice(&head)?;
    out.extend_from_slice(text)?;
    out.extend_from_slice(b"\n")?;
    Ok(())
}

fn saying_head(alloc: Global, saying: &Saying) -> Result<Vec<u8>, Memory>
    ensures { IfOk result (λ head. head.items ≡ saying_head saying.now) }
{
    let count = saying.text.as_str().len().to_string(alloc)?;
    let span = span_text(alloc, &saying.span)?;
    let mut head = Vec::new(alloc);
    head.extend_from_slice(kind_word(saying.kind))?;
    head.extend_from_slice(b" ")?;
    head.extend_from_slice(&span)?;
    head.extend_from_slice(b" ")?;
    head.extend_from_slice(count.as_bytes())?;
    head.extend_from_slice(b"\n")?;
    Ok(head)
}

fn kind_word(kind: SayKind) -> &'static [u8]
    ensures { result.now ≡ kind_word kind }
{
    match kind {
        SayKind::Warn => b"warn",
        SayKind::Debug => b"debug",
        SayKind::Fatal => b"fatal",
    }
}

fn write_ran(ran: &[(Name, Cause)], out: &mut Vec<u8>) -> Result<(), Memory>
    ensures ok { OnOk result (out.new.items ≡ out.old.items ++ ran_text ran.now) }
    ensures err { OnErr result (take (length out.old.items) out.new.items ≡ out.old.items) }
{
    for (path, cause) in ran {
        write_line(path, *cause, out)?;
    }
    Ok(())
}

// the line of a body that ran
fn write_line(path: &Name, cause: Cause, out: &mut Vec<u8>) -> Result<(), Memory>
    ensures ok { OnOk result (out.new.items ≡ out.old.items ++ ran_line (path.now, cause)) }
    ensures err { OnErr result (take (length out.old.items) out.new.items ≡ out.old.items) }
{
    out.extend_from_slice(b"ran ")?;
    out.extend_from_slice(path.as_str().as_bytes())?;
    out.extend_from_slice(b" ")?;
    out.extend_from_slice(cause_word(cause))?;
    out.extend_from_slice(b"\n")?;
    Ok(())
}

fn cause_word(cause: Cause) -> &'static [u8]
    ensures { result.now ≡ cause_word cause }
{
    match cause {
        Cause::First => b"first",
        Cause::Text => b"text",
        Cause::Config => b"config",
        Cause::Load => b"load",
        Cause::Member => b"member",
        Cause::Variable => b"variable",
        Cause::Call => b"call",
    }
}

/// Writes the outcome of a compile behind what stands in `out`, as `write_reply` does. After `Memory` what stood there
/// stands there still, with a part of the outcome behind it.
pub(crate) fn write_outcome(
    alloc: Global,
    outcome: &Outcome,
    out: &mut Vec<u8>,
) -> Result<(), Memory>
    ensures ok { OnOk result (out.new.items ≡ out.old.items ++ outcome_text outcome.now) }
    ensures err { OnErr result (take (length out.old.items) out.new.items ≡ out.old.items) }
{
    match outcome {
        Outcome::Css(bytes) => write_css(alloc, bytes.as_slice(), out),
        Outcome::Error(fault) => write_fault(alloc, fault, out),
    }
}

fn write_css(alloc: Global, bytes: &[u8], out: &mut Vec<u8>) -> Result<(), Memory>
    ensures ok { OnOk result (out.new.items ≡ out.old.items ++ css_text bytes.now) }
    ensures err { OnErr result (take (length out.old.items) out.new.items ≡ out.old.items) }
{
    out.reserve(room_of(bytes))?;
    write_css_head(alloc, bytes, out)?;
    out.extend_from_slice(bytes)?;
    out.extend_from_slice(b"\n")?;
    Ok(())
}

// The line in front of the CSS.
fn write_css_head(alloc: Global, bytes: &[u8], out: &mut Vec<u8>) -> Result<(), Memory>
    ensures ok { OnOk result (out.new.items ≡ out.old.items ++ css_head (length bytes.now)) }
    ensures err { OnErr result (take (length out.old.items) out.new.items ≡ out.old.items) }
{
    let count = bytes.len();
    let head = format!(in alloc; "css {count}\n")?;
    out.extend_from_slice(head.as_bytes())?;
    Ok(())
}

fn write_fault(alloc: Global, fault: &Fault, out: &mut Vec<u8>) -> Result<(), Memory>
    ensures ok { OnOk result (out.new.items ≡ out.old.items ++ fault_text fault.now) }
    ensures err { OnErr result (take (length out.old.items) out.new.items ≡ out.old.items) }
{
    let line = fault_line(alloc, fault)?;
    out.extend_from_slice(&line)?;
    Ok(())
}

/// The line `error CODE PATH L:C L:C` of a fault.
pub fn fault_line(alloc: Global, fault: &Fault) -> Result<Vec<u8>, Memory>
    ensures { IfOk result (λ line. line.items ≡ fault_text fault.now) }
{
    error_line(alloc, fault.code.number(), &fault.span)
}

/// The line `error 42 PATH L:C L:C` of a statement that lines can't hold.
pub fn not_indentable_line(alloc: Global, span: &Span) -> Result<Vec<u8>, Memory>
    ensures { IfOk result (λ line. line.items ≡ not_indentable_text span.now) }
{
    error_line(alloc, NOT_INDENTABLE, span)
}

fn error_line(alloc: Global, number: u16, span: &Span) -> Result<Vec<u8>, Memory>
    ensures { IfOk result (λ line. line.items ≡ error_text number span.now) }
{
    let code = number.to_string(alloc)?;
    let span = span_text(alloc, span)?;
    let mut line = Vec::new(alloc);
    line.extend_from_slice(b"error ")?;
    line.extend_from_slice(code.as_bytes())?;
    line.extend_from_slice(b" ")?;
    line.extend_from_slice(&span)?;
    line.extend_from_slice(b"\n")?;
    Ok(line)
}

fn span_text(alloc: Global, span: &Span) -> Result<Vec<u8>, Memory>
    ensures { IfOk result (λ text. text.items ≡ span_text span.now) }
{
    let from = pos_text(alloc, span.from)?;
    let to = pos_text(alloc, span.to)?;
    let mut text = Vec::new(alloc);
    text.extend_from_slice(span.file.as_str().as_bytes())?;
    text.extend_from_slice(b" ")?;
    text.extend_from_slice(&from)?;
    text.extend_from_slice(b" ")?;
    text.extend_from_slice(&to)?;
    Ok(text)
}

fn pos_text(alloc: Global, pos: Pos) -> Result<Vec<u8>, Memory>
    ensures { IfOk result (λ text. text.items ≡ pos_text pos) }
{
    let line = pos.line.to_string(alloc)?;
    let column = pos.column.to_string(alloc)?;
    let mut text = Vec::new(alloc);
    text.extend_from_slice(line.as_bytes())?;
    text.extend_from_slice(b":")?;
    text.extend_from_slice(column.as_bytes())?;
    Ok(text)
}

/// The reply to a put or a removal: the line `ok`, or `refused` with the code of the fault. An edit that found no
/// memory has no reply of its own; its text is that of `memory_reply`. Takes no memory.
pub fn edit_reply(outcome: Result<(), EditFault>) -> &'static [u8]
    ensures { result.now ≡ edit_text outcome }
{
    match outcome {
        Ok(()) => b"ok\n",
        Err(EditFault::BadPath) => b"refused 201\n",
        Err(EditFault::TooLong) => b"refused 202\n",
        Err(EditFault::TooManyFiles) => b"refused 203\n",
        Err(EditFault::NotText) => b"refused 204\n",
        Err(EditFault::NoSuchFile) => b"refused 205\n",
        Err(EditFault::Memory) => b"memory\n",
    }
}

/// The reply to a compile that found no memory: the line `memory`. Takes no memory.
pub fn memory_reply() -> &'static [u8]
    ensures { result.now ≡ memory_text }
{
    b"memory\n"
}

fn room_of(bytes: &[u8]) -> usize {
    bytes.len().saturating_add(LINE_ROOM)
}
