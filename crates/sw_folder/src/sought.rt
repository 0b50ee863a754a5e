// By what a path is looked up.
ghost use Rattle.std.specs.Prelude.{◌≡◌, bytes_eq};
ghost use Rattle.std.proofs.Common.{ap, rules};
ghost use Rattle.std.specs.Cmp.{partial_equiv_from_equiv};
ghost use Rattle.std.specs.Cmp.Lexicographic.{bytes_decides, nat_list_eq_equiv};
ghost use Rattle.std.specs.Cmp.Rules.{hashing};
ghost use Rattle.std.specs.Hash as fed;

use indexmap::Equivalent;
use std::hash::{Hash, Hasher};
use std::marker::Model;
use sw_text::Name;

/// A text that is looked up among paths, and isn't copied for that. Contracts see its bytes.
#[derive(Drop)]
pub(crate) struct Sought<'a> {
    text: &'a str,
}

impl<'a> Model for Sought<'a> {
    ghost use Rattle.std.specs.Prelude.{List, ℕ};

    ghost Value = { List ℕ };

    ghost view = { λ sought. sought.text.now };
}

impl<'a> Sought<'a> {
    #[inline(always)]
    pub(crate) fn new(text: &'a str) -> Sought<'a>
        ensures { result ≡ text.now }
    {
        Sought { text }
    }

    #[inline(always)]
    fn is(&self, text: &str) -> bool
        ensures { result ≡ bytes_eq self.now text.now }
    {
        self.text == text
    }
}

impl<'a> PartialEq for Sought<'a> {
    ghost eq = { λ a b. bytes_eq a b };

    ghost laws = { partial_equiv_from_equiv nat_list_eq_equiv };

    fn eq(&self, other: &Sought<'a>) -> bool {
        self.is(other.text)
    }
}

impl<'a> Eq for Sought<'a> {
    ghost laws = { nat_list_eq_equiv };
}

impl<'a> Hash for Sought<'a> {
    ghost hash_input = { λ sought. fed.str sought };

    ghost respects_eq = { Prim.search (hashing, rules) };

    fn hash<H: Hasher>(&self, state: &mut H) {
        self.text.hash(state);
    }
}

impl<'a> Equivalent<Name> for &Sought<'a> {
    ghost equivalent = { λ sought name. bytes_eq sought.now name };

    ghost respects_hash = { λ sought name same. ap fed.str ((bytes_decides sought.now name).0 same) };

    ghost respects_eq = { λ sought a b. nat_list_eq_equiv.congr sought.now a b };

    fn equivalent(&self, key: &Name) -> bool {
        self.is(key.as_str())
    }
}
