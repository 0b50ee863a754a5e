// What cutting and white space are.
ghost use Rattle.std.specs.Prelude.{◌≡◌, List, ℕ, Bool, true};
ghost use Rattle.sw_eval_raw_text.specs.Cutting.{nothing, cut_from, IsCut};
ghost use Rattle.sw_eval_raw_text.specs.Spacing.{unspaced, spaced, is_single};
ghost use Rattle.sw_eval_raw_text.specs.declared.spacing.Reading.{Reading};

/// A law: the parts of an import joined by their commas are the text, and no part holds a comma, outside strings and
/// brackets, behind which a string or `url(` stands.
pub fn cuts_are_all()
    ensures { (text : List ℕ) → IsCut text (cut_from nothing text) }
{}

/// A law: special text is as the sheet writes it but for its white space outside of strings, which is single spaces.
pub fn only_white_space_goes()
    ensures same { (is_last : Bool) (r : Reading) (text : List ℕ)
        → unspaced r (spaced is_last r text) ≡ unspaced r text }
    ensures single { (is_last : Bool) (r : Reading) (text : List ℕ) → is_single r (spaced is_last r text) ≡ true }
{}
