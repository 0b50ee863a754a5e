// The languages in which files are written.
ghost use Rattle.std.specs.Prelude.{◌≡◌};
ghost use Rattle.sw_parse_file.specs.Files.{language_of};

use sw_text::Name;

/// In which language the text of a file is written.
#[derive(Clone, Copy, Debug, PartialEq, Eq)]
pub enum Language {
    Scss,
    /// The indented syntax of Sass.
    Indented,
    /// Plain CSS.
    Css,
}

/// The language that the extension of a path names.
#[tactic(auto, unfolding(crate::specs::Files::language_of))]
pub fn language_of(path: &Name) -> Option<Language>
    ensures { result ≡ language_of path.now }
{
    let path = path.as_str().as_bytes();
    if path.ends_with(".scss".as_bytes()) {
        Some(Language::Scss)
    } else if path.ends_with(".sass".as_bytes()) {
        Some(Language::Indented)
    } else if path.ends_with(".css".as_bytes()) {
        Some(Language::Css)
    } else {
        None
    }
}
