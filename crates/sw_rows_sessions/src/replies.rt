// Replies as a row writes them, without counts of bytes, and as they are.
use crate::row::Look;
use std::alloc::{AllocError, Global};
use sw_rows_files::add_unescaped;

/// Adds a reply. Its lines stand as they are but for two kinds: a message's text stands behind ` | ` in the place of
/// its count, and the line `css` has no count, and the CSS to the end below it.
pub fn add_reply(alloc: Global, reply: &str, bytes: &mut Vec<u8>) -> Result<(), AllocError> {
    let (lines, css) = cut_css(reply.trim_end_matches('\n'));
    if !lines.is_empty() {
        for line in lines.split('\n') {
            add_line(alloc, line, bytes)?;
        }
    }
    match css {
        Some(css) => add_css(alloc, css, bytes),
        None => Ok(()),
    }
}

// The lines before the line `css`, and the lines behind it, if there is one.
fn cut_css(reply: &str) -> (&str, Option<&str>) {
    if reply == "css" {
        return ("", Some(""));
    }
    if let Some(css) = reply.strip_prefix("css\n") {
        return ("", Some(css));
    }
    if let Some((lines, css)) = reply.split_once("\ncss\n") {
        return (lines, Some(css));
    }
    match reply.strip_suffix("\ncss") {
        Some(lines) => (lines, Some("")),
        None => (reply, None),
    }
}

fn add_line(alloc: Global, line: &str, bytes: &mut Vec<u8>) -> Result<(), AllocError> {
    match line.split_once(" | ") {
        Some((head, text)) => {
            let mut said = Vec::new(alloc);
            add_unescaped(text, &mut said)?;
            add_counted(alloc, head, &said, bytes)
        }
        None => {
            bytes.extend_from_slice(line.as_bytes())?;
            bytes.extend_from_slice(b"\n")
        }
    }
}

/// Adds the outcome of a compile. The last line of CSS ends with a line feed that isn't written in `css`.
pub fn add_css(alloc: Global, css: &str, bytes: &mut Vec<u8>) -> Result<(), AllocError> {
    if css.is_empty() {
        return add_counted(alloc, "css", b"", bytes);
    }
    let text = format!(in alloc; "{css}\n")?;
    add_counted(alloc, "css", text.as_bytes(), bytes)
}

fn add_counted(
    alloc: Global,
    head: &str,
    text: &[u8],
    bytes: &mut Vec<u8>,
) -> Result<(), AllocError> {
    let count = text.len();
    let line = format!(in alloc; "{head} {count}\n")?;
    bytes.extend_from_slice(line.as_bytes())?;
    bytes.extend_from_slice(text)?;
    bytes.extend_from_slice(b"\n")
}

/// What of the replies to one compile is compared.
pub fn looked_at(alloc: Global, look: Look, replies: &[u8]) -> Result<Vec<u8>, AllocError> {
    match std::str::from_utf8(replies) {
        Ok(text) if look != Look::Whole => outcome(alloc, look, text),
        _ => replies.to_vec(alloc),
    }
}

fn outcome(alloc: Global, look: Look, replies: &str) -> Result<Vec<u8>, AllocError> {
    let mut bytes = Vec::new(alloc);
    let mut is_css = false;
    for line in replies.split_inclusive('\n') {
        is_css = is_css || line.starts_with("css ");
        if is_css || !line.starts_with("ran ") {
            bytes.extend_from_slice(shortened(look, is_css, line).as_bytes())?;
        }
    }
    Ok(bytes)
}

fn shortened(look: Look, is_css: bool, line: &str) -> &str {
    if look == Look::AnyFault && !is_css && line.starts_with("error ") {
        "error\n"
    } else {
        line
    }
}
