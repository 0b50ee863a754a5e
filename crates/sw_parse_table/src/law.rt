// What the table's reader answers is what the table says.
ghost use Rattle.std.specs.Prelude.{ℕ};
ghost use Rattle.sw_parse_table.specs.declared.source.Source.{Source};
ghost use Rattle.sw_parse_table.specs.Parts.{Form};
ghost use Rattle.sw_parse_table.specs.Reads.{IsOfTheTable, TellsDepth};

/// A law: what the reader of the table answers of a form is the one tree that the tokens derive, or the first token
/// with which no text of the form goes on, or the first token that opens a level too many. The last comes wherever the
/// tokens up to one begin the form and it is the first that opens a level more than may be open.
pub fn readings_are_of_the_table()
    ensures grammar { (source : Source) (levels at : ℕ) (form : Form) → IsOfTheTable source levels form at }
    ensures depth { (source : Source) (levels at : ℕ) (form : Form) → TellsDepth source levels form at }
{}
