// Imports of plain CSS.
ghost use Rattle.sw_eval_walk.specs.Going.{Goes_on};
ghost use Rattle.sw_eval_statements.specs.Imports.{inserted_pieces, inserted_texts, plain_import, import_by, css_import, sheet_import, import};

use crate::places::is_css;
use crate::texts::statement_text;
use sw_eval_questions::Stop;
use sw_eval_raw_text::{all_plain, filled_all, inserted_of, parts_of, template};
use sw_eval_state::fails;
use sw_eval_walk::{Below, Level, Returned, TextKind, Walk, pieces};
use sw_text::{FaultCode, List, Name};
use sw_tree::{Import, Parts, Piece};
use sw_world::World;

// The texts of the values in pieces.
fn inserted_pieces<W: World, B: Below<W>>(
    walk: &mut Walk,
    below: B,
    all: &[Piece],
    world: &mut W,
) -> Result<List<Name>, Stop>
    requires { B.fits below }
    ensures { Goes_on W.gives (inserted_pieces (B.values below) all.now) walk.old world.old result walk.new
        world.new }
{
    let texts = pieces(walk, Level::outside(below), TextKind::Sheet, all, world)?;
    let values = inserted_of(walk.alloc, all, texts.as_slice())?;
    Ok(values)
}

// The texts of the values in a text.
fn inserted_texts<W: World, B: Below<W>>(
    walk: &mut Walk,
    below: B,
    parts: &Parts,
    world: &mut W,
) -> Result<List<Name>, Stop>
    requires { B.fits below }
    ensures { Goes_on W.gives (inserted_texts (B.values below) parts.now) walk.old world.old result walk.new
        world.new }
{
    match parts {
        Parts::Plain(_) => Ok(List::new(walk.alloc)),
        Parts::Mixed(all) => inserted_pieces(walk, below, all.as_slice(), world),
    }
}

// Imports of plain CSS, of which these are the parts.
fn plain_import<W: World, B: Below<W>>(
    walk: &mut Walk,
    below: B,
    parts: &[Name],
    statement: &Import,
    world: &mut W,
) -> Result<Returned, Stop>
    requires { B.fits below }
    ensures { Goes_on W.gives (plain_import (B.values below) parts.now statement.now) walk.old world.old result
        walk.new world.new }
{
    let values = inserted_texts(walk, below, &statement.text.parts, world)?;
    let texts = filled_all(walk.alloc, parts, values.as_slice())?;
    walk.state.import_all(texts.as_slice(), &statement.span)?;
    Ok(None)
}

// They may load plain CSS alone.
fn import_by<W: World, B: Below<W>>(
    walk: &mut Walk,
    below: B,
    parts: &[Name],
    statement: &Import,
    world: &mut W,
) -> Result<Returned, Stop>
    requires { B.fits below }
    ensures { Goes_on W.gives (import_by (B.values below) parts.now statement.now) walk.old world.old result
        walk.new world.new }
{
    let are_plain = all_plain(walk.alloc, parts)?;
    if !are_plain {
        return fails(FaultCode::Import, &statement.span);
    }
    plain_import(walk, below, parts, statement, world)
}

// In a file of plain CSS it is one, as it is written.
fn css_import<W: World, B: Below<W>>(
    walk: &mut Walk,
    below: B,
    statement: &Import,
    world: &mut W,
) -> Result<Returned, Stop>
    requires { B.fits below }
    ensures { Goes_on W.gives (css_import (B.values below) statement.now) walk.old world.old result walk.new
        world.new }
{
    let text = statement_text(walk, below, &statement.text, world)?;
    walk.state.import_one(text, &statement.span)?;
    Ok(None)
}

// Elsewhere the text is cut into parts before the values in it are known.
fn sheet_import<W: World, B: Below<W>>(
    walk: &mut Walk,
    below: B,
    statement: &Import,
    world: &mut W,
) -> Result<Returned, Stop>
    requires { B.fits below }
    ensures { Goes_on W.gives (sheet_import (B.values below) statement.now) walk.old world.old result walk.new
        world.new }
{
    if is_css(&statement.span) {
        return css_import(walk, below, statement, world);
    }
    let template = template(walk.alloc, &statement.text.parts)?;
    let parts = parts_of(walk.alloc, template.as_str())?;
    import_by(walk, below, parts.as_slice(), statement, world)
}

// `@import`
#[inline(never)]
pub(crate) fn import<W: World, B: Below<W>>(
    walk: &mut Walk,
    below: B,
    statement: &Import,
    world: &mut W,
) -> Result<Returned, Stop>
    requires { B.fits below }
    ensures { Goes_on W.gives (import (B.values below) statement.now) walk.old world.old result walk.new world.new }
{
    if walk.state.nesting.prefix.is_some() {
        return fails(FaultCode::BadPlace, &statement.span);
    }
    sheet_import(walk, below, statement, world)
}
