// Messages.
ghost use Rattle.std.specs.Prelude.{◌≡◌};
ghost use Rattle.sw_eval_questions.specs.Did.{IsReturn};
ghost use Rattle.sw_eval_state.specs.declared.state.State.{State};
ghost use Rattle.sw_eval_walk.specs.Going.{Goes_on};
ghost use Rattle.sw_eval_statements.specs.Messages.{kind_of, said_by, said, saying};

use sw_eval_literals::message;
use sw_eval_questions::Stop;
use sw_eval_state::fails;
use sw_eval_walk::{Below, Level, Returned, Walk, value_of};
use sw_text::{FaultCode, Name, Span};
use sw_tree::{Level as SayLevel, Say};
use sw_world::{SayKind, World};

fn kind_of(level: SayLevel) -> SayKind
    ensures { result ≡ kind_of level }
{
    match level {
        SayLevel::Warn => SayKind::Warn,
        SayLevel::Debug => SayKind::Debug,
        SayLevel::Error => SayKind::Fatal,
    }
}

// What comes behind a message.
fn said_by(level: SayLevel, span: &Span) -> Result<Returned, Stop>
    ensures { (s : State) → IsReturn result s (said_by level span.now s) }
{
    match level {
        SayLevel::Warn => Ok(None),
        SayLevel::Debug => Ok(None),
        SayLevel::Error => fails(FaultCode::UserError, span),
    }
}

// Says a text.
fn said<W: World>(
    walk: &mut Walk,
    level: SayLevel,
    text: Name,
    span: &Span,
    world: &mut W,
) -> Result<Returned, Stop>
    ensures { Goes_on W.gives (said level text span.now) walk.old world.old result walk.new world.new }
{
    walk.state.noted(&text, span)?;
    let _said = walk.ask_say(kind_of(level), text, span, world)?;
    said_by(level, span)
}

// Says the value of an expression.
#[inline(never)]
pub(crate) fn saying<W: World, B: Below<W>>(
    walk: &mut Walk,
    below: B,
    statement: &Say,
    world: &mut W,
) -> Result<Returned, Stop>
    requires { B.fits below }
    ensures { Goes_on W.gives (saying (B.values below) statement.now) walk.old world.old result walk.new world.new }
{
    let value = value_of(walk, Level::outside(below), &statement.value, world)?;
    let text = message(walk.alloc, &value, &statement.value.span)?;
    said(walk, statement.level, text, &statement.span, world)
}
