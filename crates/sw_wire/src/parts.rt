// The parts of a line.
ghost use Rattle.std.specs.Prelude.{◌≡◌, ◌∷◌, [], option_map};
ghost use Rattle.sw_wire.specs.Words.{words_of};
ghost use Rattle.sw_wire.specs.Requests.{parts_seen, parts_by};

use crate::words::{cut_word, word_text};

/// The parts of a line, before it is looked what its name asks for.
#[derive(Clone, Copy, Debug)]
pub enum Parts<'l> {
    /// The word `end` alone.
    End,
    /// A name, a word behind it, and what is left behind that, where something is.
    Named {
        name: &'l [u8],
        word: &'l str,
        more: Option<&'l [u8]>,
    },
}

/// The parts of a line; none where it is one word alone other than `end`, or where the second one isn't made of the
/// bytes 0x21 to 0x7E.
pub fn line_parts<'l>(line: &'l [u8]) -> Option<Parts<'l>>
    ensures { option_map parts_seen result ≡ parts_by (words_of line.now) }
{
    let (name, more) = cut_word(line);
    match more {
        None => bare_parts(name),
        Some(rest) => named_parts(name, rest),
    }
}

// a line of one word
fn bare_parts<'l>(name: &'l [u8]) -> Option<Parts<'l>>
    ensures { option_map parts_seen result ≡ parts_by (name.now ∷ []) }
{
    if name == b"end".as_slice() {
        Some(Parts::End)
    } else {
        None
    }
}

// a line of this word and those of `rest`
fn named_parts<'l>(name: &'l [u8], rest: &'l [u8]) -> Option<Parts<'l>>
    ensures { option_map parts_seen result ≡ parts_by (name.now ∷ words_of rest.now) }
{
    let (word, more) = cut_word(rest);
    match word_text(word) {
        None => None,
        Some(word) => Some(Parts::Named { name, word, more }),
    }
}
