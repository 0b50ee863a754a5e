// From a text to its sheet.
ghost use Rattle.std.specs.Prelude.{◌≡◌, map, All};
ghost use Rattle.sw_text.specs.Places.{Text};
ghost use Rattle.sw_tokens.specs.Listed.{Listed};
ghost use Rattle.sw_parse_terminals.specs.Lies.{LexemeLies};
ghost use Rattle.sw_parse_lexemes.specs.Lexemes.{lexemes_of};
ghost use Rattle.sw_parse_table.specs.Parts.{States, Whole};
ghost use Rattle.sw_parse_table.specs.Table.{forms};
ghost use Rattle.sw_parse_table.specs.Reads.{reader, Reads};
ghost use Rattle.sw_scss_parse.specs.Seen.{source_of};
ghost use Rattle.sw_scss_parse.specs.Readings.{source_read, sheet_of_tokens, sheet_of, Returns, IsSeen, Saw, SawText, ReadsSource, TellsDepth, IsReading, TellsTextDepth};

use crate::fault::{end_of, end_without_tokens};
use crate::statements::read_statements;
use std::alloc::Global;
use sw_expr_parse::ReadEnd;
use sw_parse_expr_nodes::given_up;
use sw_parse_grammar::ReadError;
use sw_parse_lexemes::lexemes_of;
use sw_parse_table::{Source, number_at};
use sw_text::{List, Shared, SheetText};
use sw_tokens::Tokens;
use sw_tree::{Sheet, Statement};

// How many levels of brackets may be open.
const LEVELS: u8 = 128;

/// The sheet of a text, in time that is linear in its bytes. A string, a comment or a `#{` that isn't closed is a fault
/// at its first character. Else a fault stands at the whole first token with which no sheet can go on, or at the end of
/// the text; where the token is the first that opens level 129, the fault is of depth.
pub fn read(alloc: Global, text: &Shared<SheetText>) -> Result<Shared<Sheet>, ReadEnd>
    ensures result { Returns result (sheet_of text.now) }
    ensures seen { SawText text.now result }
{
    match Tokens::of(alloc, text) {
        Ok(tokens) => read_list(alloc, &tokens),
        Err(fault) => Err(end_without_tokens(fault)),
    }
}

/// The sheet of a list of tokens, or the fault of the first with which none can go on.
pub fn read_list(alloc: Global, tokens: &Tokens) -> Result<Shared<Sheet>, ReadEnd>
    ensures result { Returns result (sheet_of_tokens tokens.now) }
    ensures seen { Saw tokens.now result }
{
    let lexemes = lexemes_of(alloc, tokens)?;
    let source = Source {
        tokens,
        lexemes: lexemes.as_slice(),
    };
    read_source(alloc, &source)
}

/// A law: what `read` gives for a text, and `read_list` for its tokens, is what the grammar says of them. The tree is
/// what the whole list of tokens derives, and the only one; a fault stands where no sheet can go on. A fault of depth
/// comes exactly where a token is the first that opens a level more than may be open. Where the tokens lie in the text,
/// each is to the grammar what `lexemes_of` says.
pub fn sheets_are_of_the_grammar()
    ensures grammar { (sheet : Text) → IsReading sheet (sheet_of sheet) }
    ensures depth { (sheet : Text) → TellsTextDepth sheet (sheet_of sheet) }
    ensures list_grammar { (listed : Listed) → ReadsSource (source_of listed) (sheet_of_tokens listed) }
    ensures list_depth { (listed : Listed) → TellsDepth (source_of listed) (sheet_of_tokens listed) }
    ensures tokens { (listed : Listed) → (source_of listed).tokens.now ≡ listed }
    ensures seen { (listed : Listed) → All (LexemeLies listed.sheet.bytes) (lexemes_of listed.sheet.bytes listed.list)
        → IsSeen listed }
{}

fn read_source(alloc: Global, source: &Source) -> Result<Shared<Sheet>, ReadEnd>
    ensures { Returns result (source_read source.now) }
{
    match whole_at(alloc, source, LEVELS) {
        Ok((statements, _)) => Ok(Shared::new(alloc, Sheet { statements })?),
        Err(error) => Err(end_of(source, error)),
    }
}

/// All statements of a sheet, behind which the text ends.
#[tactic(auto, unfolding(sw_parse_grammar::specs::Readers::parse))]
fn whole_at(
    alloc: Global,
    source: &Source,
    levels: u8,
) -> Result<(List<Statement>, usize), ReadError>
    ensures { Reads (λ list. map States list) result (reader source.now levels (forms source.now Whole) 0) }
{
    let (list, place) = read_statements(alloc, source, levels, 0)?;
    if number_at(source, place) != 0 {
        return Err(given_up(list, ReadError::Unexpected(place)));
    }
    Ok((list, place))
}
