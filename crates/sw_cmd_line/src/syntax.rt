// The syntaxes of sheets.
ghost use Rattle.std.specs.Prelude.{◌≡◌};
ghost use Rattle.sw_cmd_line.specs.Forms.{syntax_of};

/// How a sheet is written (Sass documentation, "Syntax").
#[derive(Clone, Copy, Debug, PartialEq, Eq)]
pub enum Syntax {
    /// With braces and semicolons.
    Scss,
    /// In lines, by their indents.
    Indented,
}

/// Which way a sheet is converted.
#[derive(Clone, Copy, Debug, PartialEq, Eq)]
pub struct Conversion {
    /// The syntax of the sheet.
    pub from: Syntax,
    /// The syntax in which it is written.
    pub to: Syntax,
}

/// The syntax that a word names.
pub(crate) fn syntax_of(word: &str) -> Option<Syntax>
    ensures { result ≡ syntax_of word.now }
{
    if word == "scss" {
        Some(Syntax::Scss)
    } else if word == "sass" {
        Some(Syntax::Indented)
    } else {
        None
    }
}
