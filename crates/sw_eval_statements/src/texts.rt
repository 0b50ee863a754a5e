// Texts of statements.
ghost use Rattle.sw_eval_walk.specs.Going.{Goes_on};
ghost use Rattle.sw_eval_statements.specs.Texts.{sheet_text, raw_text};

use sw_eval_questions::Stop;
use sw_eval_walk::{Below, Level, TextKind, Walk, text};
use sw_text::Name;
use sw_tree::Text;
use sw_world::World;

// A text of a statement, with the values in it.
pub(crate) fn statement_text<W: World, B: Below<W>>(
    walk: &mut Walk,
    below: B,
    it: &Text,
    world: &mut W,
) -> Result<Name, Stop>
    requires { B.fits below }
    ensures { Goes_on W.gives (sheet_text (B.values below) it.now) walk.old world.old result walk.new world.new }
{
    text(
        walk,
        Level::outside(below),
        TextKind::Sheet,
        &it.parts,
        &it.span,
        world,
    )
}

// A text that may be left out.
pub(crate) fn raw_text<W: World, B: Below<W>>(
    walk: &mut Walk,
    below: B,
    it: &Option<Text>,
    world: &mut W,
) -> Result<Name, Stop>
    requires { B.fits below }
    ensures { Goes_on W.gives (raw_text (B.values below) it.now) walk.old world.old result walk.new world.new }
{
    match it {
        Some(text) => statement_text(walk, below, text, world),
        None => Ok(Name::new(walk.alloc, "")?),
    }
}
