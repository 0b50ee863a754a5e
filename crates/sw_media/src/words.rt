// Keywords and types.
ghost use Rattle.std.specs.Prelude.{◌≡◌, IfOk};
ghost use Rattle.sw_text_scan.specs.Pieces.{piece};
ghost use Rattle.sw_media.specs.Words.{white, name_end, word, is_at, is_connector, is_value, is_type_at};

use std::alloc::Global;
use sw_text::{Memory, Name};
use sw_text_scan::{Class, begins_name, piece, run_end};

/// The place behind white space.
pub fn white(bytes: &[u8], at: usize) -> usize
    ensures { result ≡ white bytes.now at }
{
    run_end(bytes, Class::White, at)
}

/// The place behind a name.
pub fn name_end(bytes: &[u8], at: usize) -> usize
    ensures { result ≡ name_end bytes.now at }
{
    run_end(bytes, Class::Name, at)
}

/// What stands between two places.
pub fn text_of(alloc: Global, text: &str, from: usize, to: usize) -> Result<Name, Memory>
    ensures { IfOk result (λ name. name ≡ piece text.now from to) }
{
    Name::new(alloc, piece(text, from, to))
}

fn word(text: &str, at: usize) -> &str
    ensures { result.now ≡ word text.now at }
{
    piece(text, at, name_end(text.as_bytes(), at))
}

/// Whether a keyword stands at a place.
#[tactic(auto, unfolding(crate::specs::Words::is_at))]
pub fn is_at(keyword: &str, text: &str, at: usize) -> bool
    ensures { result ≡ is_at keyword.now text.now at }
{
    word(text, at) == keyword
}

fn is_connector(name: &str) -> bool
    ensures { result ≡ is_connector name.now }
{
    name == "and" || name == "or" || name == "not"
}

fn is_value(name: &str) -> bool
    ensures { result ≡ is_value name.now }
{
    name == "true" || name == "false" || name == "null"
}

/// Whether a type may stand at a place.
#[tactic(auto, unfolding(crate::specs::Words::is_type_at))]
pub fn is_type_at(text: &str, at: usize) -> bool
    ensures { result ≡ is_type_at text.now at }
{
    begins_name(text.as_bytes(), at) && !(is_connector(word(text, at)) || is_value(word(text, at)))
}
