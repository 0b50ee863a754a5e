// What lines that are written stand for.
ghost use Rattle.std.specs.Prelude.{List, ℕ};
ghost use Rattle.sw_convert_laid.specs.Blocks.{Statements, HasSigns, StatementsAreLaid};
ghost use Rattle.sw_convert_laid.specs.Held.{AreLine};
ghost use Rattle.sw_convert_laid.specs.LineFeeds.{StandBeforeLineFeed};
ghost use Rattle.sw_convert_laid.specs.Rows.{Row, HasLayout};
ghost use Rattle.sw_convert_spelling.specs.Spelt.{Spelt};

/// A law: lines that are written token by token, each a statement or what stands before its block, stand for these
/// tokens: between two of them a `;`, an empty `{` before deeper lines, and as many empty `}` as blocks end.
pub fn lines_are_laid(text: &str)
    ensures { (mark : List ℕ) (rows : List Row) → HasLayout text.now mark rows }
{
    let _end = text.len();
}

/// A law: tokens that stand before a space, and leave nothing open there, stand before a line feed too, where their
/// last byte goes on over no line, and no `url(` stands among them but in a url without `#{}`.
pub fn tokens_stand_before_line_feeds()
    ensures { (list : List Spelt) (after : List ℕ) → StandBeforeLineFeed list after }
{}

/// A law: the signs that the lines of statements stand for are those of these statements: a `;` behind each that has no
/// block, and braces around the statements of each block.
pub fn blocks_are_told_by_lines()
    ensures { (statements : Statements) → HasSigns statements }
{}

/// A law: tokens that stand before a space are a line where a test of their kinds, and of the white space between them,
/// tells so.
pub fn lines_are_told_by_their_tokens()
    ensures { (row : Row) (rest : List ℕ) → AreLine row rest }
{}

/// A law: a text that is statements in lines, whose blocks each hold one, stands for the tokens of these statements, with
/// a `;` behind each that has no block, and braces around the statements of each block.
pub fn statements_are_laid(text: &str)
    ensures { (mark : List ℕ) (statements : Statements) → StatementsAreLaid text.now mark statements }
{
    let _end = text.len();
}
