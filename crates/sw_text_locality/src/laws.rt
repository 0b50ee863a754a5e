// What is kept of a name is read again as it.
ghost use Rattle.std.specs.Prelude.{List, ℕ};
ghost use Rattle.sw_text_locality.specs.Names.{KeepsName};

/// A law: a name that is read, with the space that closes a hexadecimal escape at its end, is read again as that name,
/// and as no more than it, wherever it's written before what goes on no name.
pub fn keeps_names()
    ensures { (text : List ℕ) (place : ℕ) → KeepsName text place }
{}
