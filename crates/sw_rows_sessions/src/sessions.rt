// Rows that are whole sessions: requests, each with its reply.
use crate::archive::Section;
use crate::hosts::RowHost;
use crate::listeners::Listener;
use crate::replies::add_reply;
use crate::row::{Look, Row};
use std::alloc::{AllocError, Global};
use sw_rows_files::{add_unescaped, unescaped};

/// The rows of a file of sessions. A head `session NAME` begins one, and `wrong NAME` one that is told wrongly on
/// purpose.
pub fn session_rows(alloc: Global, sections: &[Section]) -> Result<Vec<Row>, AllocError> {
    let mut rows: Vec<Row> = Vec::new(alloc);
    for section in sections.iter() {
        let head = section.head.as_str();
        let body = section.body.as_str();
        if let Some(name) = head.strip_prefix("session ") {
            rows.push(Row::new(alloc, name, Look::Whole)?)?;
        } else if let Some(name) = head.strip_prefix("wrong ") {
            let mut row = Row::new(alloc, name, Look::Whole)?;
            row.is_wrong = true;
            rows.push(row)?;
        } else if let Some(row) = rows.last_mut() {
            add_step(alloc, row, head, body)?;
        }
    }
    Ok(rows)
}

fn add_step(alloc: Global, row: &mut Row, head: &str, body: &str) -> Result<(), AllocError> {
    let (word, rest) = head.split_once(' ').unwrap_or((head, ""));
    match word {
        "" => Ok(()),
        "words" => row.set_words(alloc, rest),
        "folder" => row.add_folder(alloc),
        "file" => add_file(alloc, row, rest, body),
        "disk-fails" => row.set_disk_fails(rest),
        "sink-fails" => row.set_sink_fails(rest),
        "starved" => row.set_starved(rest),
        "host" => {
            row.hosts.push(RowHost::read(alloc, rest)?)?;
            Ok(())
        }
        "detach" => row.detach(alloc, rest),
        "reporter" => {
            row.listeners.push(Listener::read(alloc, rest)?)?;
            Ok(())
        }
        "written" => {
            add_unescaped(body, &mut row.wanted)?;
            row.mark()
        }
        "send" => add_unescaped(body, &mut row.sent),
        "reply" => {
            add_reply(alloc, body, &mut row.wanted)?;
            row.mark()
        }
        "times" => add_times(alloc, row, rest, body),
        "status" => {
            row.status = Some(rest.parse::<u8>().unwrap_or(255));
            Ok(())
        }
        "faults" => {
            row.breaks = true;
            Ok(())
        }
        _ => add_request(alloc, row, head, body),
    }
}

// A file of the disk's folder. A text behind the path of which `escaped` stands has escapes.
fn add_file(alloc: Global, row: &mut Row, rest: &str, body: &str) -> Result<(), AllocError> {
    match rest.strip_suffix(" escaped") {
        Some(path) => {
            let mut bytes = Vec::new(alloc);
            add_unescaped(body, &mut bytes)?;
            row.add_file(alloc, path, &bytes)
        }
        None => row.add_file(alloc, rest, body.as_bytes()),
    }
}

// Bytes that are sent so many times, with `#` for the number of the time. What stands behind ` => ` is the reply to
// each.
fn add_times(alloc: Global, row: &mut Row, rest: &str, body: &str) -> Result<(), AllocError> {
    let (count, reply) = rest.split_once(" => ").unwrap_or((rest, ""));
    for number in 0..count.parse::<u32>().unwrap_or(0) {
        match body.split_once('#') {
            Some((before, after)) => {
                let text = format!(in alloc; "{before}{number}{after}")?;
                add_unescaped(text.as_str(), &mut row.sent)?;
            }
            None => add_unescaped(body, &mut row.sent)?,
        }
        if !reply.is_empty() {
            row.want_line(reply)?;
            row.mark()?;
        }
    }
    Ok(())
}

// A request that begins with `put` has the file's text below it, each other one its reply. What stands behind ` => `,
// or else `ok`, is the reply where none stands below.
fn add_request(alloc: Global, row: &mut Row, head: &str, body: &str) -> Result<(), AllocError> {
    let (request, short) = head.split_once(" => ").unwrap_or((head, "ok"));
    if let Some(path) = request.strip_prefix("put ") {
        add_put(alloc, row, path, body)?;
        row.want_line(short)?;
    } else {
        row.send_line(request)?;
        if body.is_empty() {
            row.want_line(short)?;
        } else {
            add_reply(alloc, body, &mut row.wanted)?;
        }
    }
    row.mark()
}

// A text behind the path of which `escaped` stands has escapes.
fn add_put(alloc: Global, row: &mut Row, path: &str, body: &str) -> Result<(), AllocError> {
    match path.strip_suffix(" escaped") {
        Some(path) => {
            let text = unescaped(alloc, body)?;
            row.put(alloc, path, text.as_str())
        }
        None => row.put(alloc, path, body),
    }
}
