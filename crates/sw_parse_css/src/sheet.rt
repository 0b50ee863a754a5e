// From a text of plain CSS to its sheet.
ghost use Rattle.std.specs.Prelude.{map, Err};
ghost use Rattle.sw_text.specs.Places.{Text};
ghost use Rattle.sw_parse_table.specs.Parts.{States};
ghost use Rattle.sw_parse_css.specs.Seen.{seen, seen_of};
ghost use Rattle.sw_parse_css.specs.Sheets.{Whole, forms};
ghost use Rattle.sw_parse_css.specs.Reads.{reader, ReadsStatements};
ghost use Rattle.sw_parse_css.specs.Reading.{fault_at, seen_read, css_of, Returns, Obeys, IsReading, TellsDepth};

use crate::ReadEnd;
use crate::block::given_up;
use crate::body::Within;
use crate::pass::lexemes_of;
use crate::read::read_statements;
use crate::seen::{number_at, span_at};
use std::alloc::Global;
use sw_parse_grammar::ReadError;
use sw_parse_table::Source;
use sw_text::{Fault, FaultCode, List, Shared, SheetText};
use sw_tokens::{Syntax, Tokens};
use sw_tree::{Sheet, Statement};

// How many levels of brackets and blocks may be open.
const LEVELS: u8 = 128;

/// The sheet of a text of plain CSS, in time that is linear in its bytes. A string or a comment that isn't closed is a
/// fault at its first character. Else a fault stands at the first token with which no sheet goes on, or at the end of
/// the text; where the token is the first that opens level 129, the fault is of depth.
pub fn read_css(alloc: Global, text: &Shared<SheetText>) -> Result<Shared<Sheet>, ReadEnd>
    ensures result { Returns result (css_of text.now) }
    ensures grammar { Obeys text.now result }
{
    let tokens = Tokens::of_syntax(alloc, text, Syntax::Css)?;
    read_tokens(alloc, &tokens)
}

/// A law: what `read_css` gives for a text is what the grammar says of it. The tree is what the whole list of tokens
/// derives, and the only one; a fault stands where no sheet goes on. A fault of depth comes exactly where a token is
/// the first that opens a level more than may be open.
pub fn sheets_are_of_the_grammar()
    ensures grammar { (sheet : Text) → IsReading sheet (css_of sheet) }
    ensures depth { (sheet : Text) → TellsDepth sheet (css_of sheet) }
{}

fn read_tokens(alloc: Global, tokens: &Tokens) -> Result<Shared<Sheet>, ReadEnd>
    ensures { Returns result (seen_read (seen_of tokens.now)) }
{
    let lexemes = lexemes_of(alloc, tokens)?;
    let source = Source {
        tokens,
        lexemes: lexemes.as_slice(),
    };
    read_source(alloc, &source)
}

fn read_source(alloc: Global, source: &Source) -> Result<Shared<Sheet>, ReadEnd>
    ensures { Returns result (seen_read (seen source.now)) }
{
    match whole_at(alloc, source, LEVELS) {
        Ok((statements, _)) => Ok(Shared::new(alloc, Sheet { statements })?),
        Err(ReadError::Memory) => Err(ReadEnd::Memory),
        Err(ReadError::Unexpected(at)) => fault_at(FaultCode::Syntax, source, at),
        Err(ReadError::TooDeep(at)) => fault_at(FaultCode::Depth, source, at),
    }
}

/// All statements of a sheet, behind which the text ends.
#[tactic(auto, unfolding(sw_parse_grammar::specs::Readers::parse))]
fn whole_at(
    alloc: Global,
    source: &Source,
    levels: u8,
) -> Result<(List<Statement>, usize), ReadError>
    ensures { ReadsStatements result (reader (seen source.now) levels (forms (seen source.now) Whole) 0) }
{
    let (list, place) = read_statements(alloc, source, levels, 0, Within::Outside)?;
    if number_at(source, place) != 0 {
        return Err(given_up(list, ReadError::Unexpected(place)));
    }
    Ok((list, place))
}

fn fault_at(code: FaultCode, source: &Source, at: usize) -> Result<Shared<Sheet>, ReadEnd>
    ensures { Returns result (Err (fault_at (seen source.now) code at)) }
{
    let span = span_at(source, at)?;
    Err(ReadEnd::Fault(Fault { code, span }))
}
