// What a path is, and the segments of a text.
ghost use Rattle.std.specs.Prelude.{◌≡◌, ◌∷◌, ◌<◌, length, nat_eq, IfSome};
ghost use Rattle.std.specs.List.{ends_with, list_all, list_any};
ghost use Rattle.std.specs.Option.{option_copied};
ghost use Rattle.sw_folder.specs.Paths.{segments, rest_segments, is_dot, is_dot_dot, is_path_byte, is_segment, is_path, is_underscore};

const MOST_PATH: usize = 255;

/// Whether a text is a path of a folder: 1 to 255 bytes, which are segments of letters, digits, `.`, `_`, `-` and `@`
/// joined by single slashes, none of them `.` or `..`.
#[tactic(auto, unfolding(crate::specs::Paths::is_path))]
pub fn is_path(text: &str) -> bool
    ensures { result ≡ is_path text.now }
{
    text.len() <= MOST_PATH && all_segments(text)
}

fn all_segments(text: &str) -> bool
    ensures { result ≡ list_all is_segment (segments text.now) }
{
    let mut left = Some(text);
    while let Some(part) = left {
        let (segment, rest) = first_segment(part);
        if !is_segment(segment) {
            return false;
        }
        left = rest;
    }
    true
}

/// The part of a text before its first slash, and what stands behind that slash, if there is one.
pub(crate) fn first_segment(text: &str) -> (&str, Option<&str>)
    ensures parts { segments text.now ≡ result.0.now ∷ rest_segments (option_copied result.1) }
    ensures shorter { IfSome result.1 (λ rest. length rest.now < length text.now) }
{
    match text.split_once('/') {
        Some((segment, rest)) => (segment, Some(rest)),
        None => (text, None),
    }
}

fn is_segment(segment: &str) -> bool
    ensures { result ≡ is_segment segment.now }
{
    !segment.is_empty() && all_path_bytes(segment) && !is_dot(segment) && !is_dot_dot(segment)
}

fn all_path_bytes(segment: &str) -> bool
    ensures { result ≡ list_all is_path_byte segment.now }
{
    segment.bytes().all(is_path_byte)
}

pub(crate) fn is_dot(segment: &str) -> bool
    ensures { result ≡ is_dot segment.now }
{
    segment == "."
}

pub(crate) fn is_dot_dot(segment: &str) -> bool
    ensures { result ≡ is_dot_dot segment.now }
{
    segment == ".."
}

fn is_path_byte(byte: u8) -> bool
    ensures { result ≡ is_path_byte byte }
{
    byte >= b'a' && byte <= b'z'
        || byte >= b'@' && byte <= b'Z'
        || byte >= b'0' && byte <= b'9'
        || byte == b'.'
        || byte == b'_'
        || byte == b'-'
}

pub(crate) fn has_underscore(text: &str) -> bool
    ensures { result ≡ list_any is_underscore text.now }
{
    text.bytes().any(is_underscore)
}

fn is_underscore(byte: u8) -> bool
    ensures { result ≡ is_underscore byte }
{
    byte == b'_'
}

pub(crate) fn ends_with(name: &str, ending: &str) -> bool
    ensures { result ≡ ends_with nat_eq name.now ending.now }
{
    name.ends_with(ending)
}
