// A sheet with its tokens as the grammar sees them.
ghost use Rattle.std.specs.Prelude.{All};
ghost use Rattle.sw_parse_terminals.specs.Lies.{LexemeLies};

use sw_parse_terminals::Lexeme;
use sw_tokens::Tokens;

/// What a sheet is read from: its tokens, and what each of them is to the grammar.
#[derive(Drop)]
pub struct Source<'a> {
    pub tokens: &'a Tokens,
    pub lexemes: &'a [Lexeme],
    ghost lie: { All (LexemeLies tokens.now.sheet.bytes) lexemes.now },
}
