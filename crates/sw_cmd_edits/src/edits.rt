// What comes of an edit.
ghost use Rattle.std.specs.Prelude.{◌≡◌, ◌≤◌, Err, IfOk, IfErr, OnOk, OnErr, length};
ghost use Rattle.std.specs.Io.KnownBytes.{Appends};
ghost use Rattle.sw_folder.specs.Edits.{after_put, after_removal, folder_after};
ghost use Rattle.sw_wire.specs.Replies.{edit_text};
ghost use Rattle.sw_io.specs.Causes.{Cause};
ghost use Rattle.sw_cmd_protocol.specs.Sending.{IsCutShort};
ghost use Rattle.sw_cmd_protocol.specs.Turns.{place};
ghost use Rattle.sw_cmd_edits.specs.Edits.{Puts, PutEnds, PutAnswers, PutStops};

use crate::Editable;
use crate::body::read_body;
use std::alloc::Global;
use sw_cmd_protocol::{Stop, answer};
use sw_folder::{EditFault, unread_fault};
use sw_io::{Reader, Sink, Source};
use sw_text::Name;
use sw_wire::edit_reply;

/// A put whose line was read: the path, and how many bytes follow.
#[derive(Clone, Copy, Debug)]
pub struct Upload<'l> {
    pub alloc: Global,
    pub path: &'l Name,
    pub length: u32,
}

/// Reads the bytes of a put, edits the folder, and sends the reply.
pub fn answer_put<S: Source, K: Sink, F: Editable>(
    upload: &Upload<'_>,
    edited: &mut F,
    reader: &mut Reader,
    source: &mut S,
    sink: &mut K,
) -> Result<(), Stop>
    ensures ok { OnOk result (PutAnswers upload.now.path.now upload.now.length
        (place reader.old (S.left source.old) (K.written sink.old)) (F.folder edited.old)
        (place reader.new (S.left source.new) (K.written sink.new)) (F.folder edited.new)) }
    ensures err { IfErr result (λ stop. PutStops stop upload.now.path.now upload.now.length
        (place reader.old (S.left source.old) (K.written sink.old)) (F.folder edited.old)
        (place reader.new (S.left source.new) (K.written sink.new)) (F.folder edited.new)) }
    ensures rest { F.rest edited.new ≡ F.rest edited.old }
    ensures source_cause { Cause Stop.SourceFailed (S.faults source.old) (S.faults source.new) result }
    ensures sink_cause { Cause Stop.SinkFailed (K.faults sink.old) (K.faults sink.new) result }
{
    let reply = put(upload, edited, reader, source)?;
    answer(sink, reply)
}

/// Takes a file out of the folder, and sends the reply.
pub fn answer_removal<K: Sink, F: Editable>(
    path: &Name,
    edited: &mut F,
    sink: &mut K,
) -> Result<(), Stop>
    ensures ok { OnOk result (Appends (K.written sink.old) (K.written sink.new)
        (edit_text (after_removal path.now (F.folder edited.old)))) }
    ensures err { IfErr result (λ stop. (stop ≡ Stop.SinkFailed)
        × IsCutShort (edit_text (after_removal path.now (F.folder edited.old))) (K.written sink.old)
        (K.written sink.new)) }
    ensures folder { F.folder edited.new
        ≡ folder_after (after_removal path.now (F.folder edited.old)) (F.folder edited.old) }
    ensures rest { F.rest edited.new ≡ F.rest edited.old }
    ensures cause { Cause Stop.SinkFailed (K.faults sink.old) (K.faults sink.new) result }
{
    let reply = remove(path.as_str(), edited);
    answer(sink, reply)
}

// Reads the bytes of a put, judges it and edits the folder; gives the reply. The bytes of a put that is refused for its
// path or its length are dropped as they come.
fn put<S: Source, F: Editable>(
    upload: &Upload<'_>,
    edited: &mut F,
    reader: &mut Reader,
    source: &mut S,
) -> Result<&'static [u8], Stop>
    ensures ok { IfOk result (λ reply. Puts upload.now.path.now upload.now.length reader.old (S.left source.old)
        (F.folder edited.old) reader.new (S.left source.new) (F.folder edited.new) reply.now) }
    ensures err { IfErr result (λ stop. PutEnds stop upload.now.length reader.old (S.left source.old) reader.new
        (S.left source.new)) }
    ensures same { OnErr result (F.folder edited.new ≡ F.folder edited.old) }
    ensures rest { F.rest edited.new ≡ F.rest edited.old }
    ensures bound { OnOk result (length reader.new ≤ 4096) }
    ensures cause { Cause Stop.SourceFailed (S.faults source.old) (S.faults source.new) result }
{
    let count = upload.length;
    let mut body = Vec::new(upload.alloc);
    match unread_fault(upload.path.as_str(), count as usize) {
        Some(fault) => {
            read_body(reader, source, count, false, &mut body)?;
            Ok(edit_reply(Err(fault)))
        }
        None => {
            read_body(reader, source, count, true, &mut body)?;
            keep(upload.path.as_str(), &body, edited)
        }
    }
}

// Puts the file into the folder, and gives the reply.
fn keep<F: Editable>(path: &str, body: &[u8], edited: &mut F) -> Result<&'static [u8], Stop>
    ensures reply { IfOk result (λ reply. reply.now
        ≡ edit_text (after_put path.now body.now (F.folder edited.old))) }
    ensures folder { OnOk result (F.folder edited.new
        ≡ folder_after (after_put path.now body.now (F.folder edited.old)) (F.folder edited.old)) }
    ensures rest { F.rest edited.new ≡ F.rest edited.old }
    ensures same { OnErr result (F.folder edited.new ≡ F.folder edited.old) }
    ensures err { IfErr result (λ stop. stop ≡ Stop.Memory) }
{
    match edited.put(path, body) {
        Ok(()) => Ok(edit_reply(Ok(()))),
        Err(EditFault::Memory) => Err(Stop::Memory),
        Err(fault) => Ok(edit_reply(Err(fault))),
    }
}

// Takes a file out of the folder, and gives the reply.
fn remove<F: Editable>(path: &str, edited: &mut F) -> &'static [u8]
    ensures reply { result.now ≡ edit_text (after_removal path.now (F.folder edited.old)) }
    ensures folder { F.folder edited.new
        ≡ folder_after (after_removal path.now (F.folder edited.old)) (F.folder edited.old) }
    ensures rest { F.rest edited.new ≡ F.rest edited.old }
{
    match edited.remove(path) {
        Ok(()) => edit_reply(Ok(())),
        Err(fault) => edit_reply(Err(fault)),
    }
}
