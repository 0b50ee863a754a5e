// Statements put behind those before them.
ghost use Rattle.std.specs.Prelude.{◌≡◌, ◌∷◌, [], ◌++◌, map, IfErr, OnOk};
ghost use Rattle.sw_parse_table.specs.Parts.{States};

use sw_parse_grammar::ReadError;
use sw_parse_table::found;
use sw_text::Memory;
use sw_tree::Statement;

#[inline(always)]
fn pushed(list: &mut Vec<Statement>, statement: Statement) -> Result<(), Memory>
    ensures { OnOk result (list.new.items ≡ list.old.items ++ statement ∷ []) }
{
    list.push(statement)?;
    Ok(())
}

/// Puts a statement behind the others.
#[inline(always)]
pub fn put(list: &mut Vec<Statement>, statement: Statement) -> Result<(), ReadError>
    ensures more { OnOk result (map States list.new.items ≡ map States list.old.items ++ States statement ∷ []) }
    ensures memory { IfErr result (λ error. error ≡ ReadError.Memory) }
{
    found(pushed(list, statement))
}
