// The words of a line.
ghost use Rattle.std.specs.Prelude.{◌≡◌, ◌∷◌, ◌<◌, true, false, length, IfSome, MatchOption};
ghost use Rattle.std.specs.List.{list_all};
ghost use Rattle.sw_wire.specs.Words.{words_of, rest_words, is_plain, is_word};

use std::str;

/// The first word, and what stands behind the space after it, where there is one.
pub fn cut_word(text: &[u8]) -> (&[u8], Option<&[u8]>)
    ensures words { words_of text.now ≡ result.0.now ∷ rest_words result.1 }
    ensures shorter { IfSome result.1 (λ rest. length rest.now < length text.now) }
{
    for (i, byte) in text.iter().enumerate() {
        if *byte == b' ' {
            return (&text[..i], Some(&text[i + 1..]));
        }
    }
    (text, None)
}

/// The word as text, where it is one.
pub fn word_text(word: &[u8]) -> Option<&str>
    ensures { MatchOption result (is_word word.now ≡ false)
        (λ text. (is_word word.now ≡ true) × (text.now ≡ word.now)) }
{
    if !is_word(word) {
        return None;
    }
    match str::from_utf8(word) {
        Ok(text) => Some(text),
        Err(_) => None,
    }
}

fn is_word(word: &[u8]) -> bool
    ensures { result ≡ is_word word.now }
{
    !word.is_empty() && all_plain(word)
}

fn all_plain(bytes: &[u8]) -> bool
    ensures { result ≡ list_all is_plain bytes.now }
{
    for byte in bytes {
        if !is_plain(*byte) {
            return false;
        }
    }
    true
}

fn is_plain(byte: u8) -> bool
    ensures { result ≡ is_plain byte }
{
    byte >= 33 && byte <= 126
}
