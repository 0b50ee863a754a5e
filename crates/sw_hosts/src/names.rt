// The names of host functions.
ghost use Rattle.std.specs.Prelude.{◌≡◌, bytes_eq};
ghost use Rattle.sw_text.specs.Names.{dash, dashed};
ghost use Rattle.sw_hosts.specs.Names.{is_name};

use sw_text_scan::{Class, begins_name, run_end};

/// Whether all of a text is a name.
#[tactic(auto, unfolding(crate::specs::Names::is_name))]
pub fn is_name(text: &str) -> bool
    ensures { result ≡ is_name text.now }
{
    let bytes = text.as_bytes();
    begins_name(bytes, 0) && run_end(bytes, Class::Name, 0) == bytes.len()
}

fn dash(byte: u8) -> u8
    ensures { result ≡ dash byte }
{
    if byte == b'_' { b'-' } else { byte }
}

/// Whether a name is stored so: with `-` for each `_`. Takes no memory.
#[tactic(auto, using(crate::proofs::Dashes::more, crate::proofs::Dashes::differ, crate::proofs::Dashes::through, crate::proofs::Dashes::other_length))]
pub fn is_stored_as(stored: &[u8], name: &[u8]) -> bool
    ensures { result ≡ bytes_eq stored.now (dashed name.now) }
{
    if stored.len() != name.len() {
        return false;
    }
    'bytes: for at in 0..stored.len() {
        if stored[at] != dash(name[at]) {
            return false;
        }
    }
    true
}
