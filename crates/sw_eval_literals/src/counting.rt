// Which numbers a loop counts.
ghost use Rattle.std.specs.Prelude.{◌≡◌, ◌<◌, IfOk};
ghost use Rattle.sw_units.specs.Numbers.{converted};
ghost use Rattle.sw_eval_literals.specs.Answers.{Returns};
ghost use Rattle.sw_eval_literals.specs.Counting.{counted, count_from, whole, counting};

use crate::chain::number_in;
use crate::making::number_code;
use crate::refused::{Refused, fails};
use std::marker::Model;
use sw_fixed::{Fixed, SCALE};
use sw_text::{FaultCode, Memory, Span};
use sw_units::{Number, Units, convert};
use sw_values::Value;

/// The numbers of a loop: from a first one on, one more or one less at each turn.
#[derive(Drop)]
pub struct Counting {
    first: Fixed,
    units: Units,
    down: bool,
    turns: u128,
}

impl Model for Counting {
    ghost use Rattle.sw_eval_literals.specs.Counting.{Count, AreHeld};

    ghost Value = { Count };

    ghost view = { λ counting. record {
      first = counting.first;
      units = counting.units;
      down = counting.down;
      turns = counting.turns;
    } };

    ghost invariant = { λ counting. AreHeld (record {
      first = counting.first;
      units = counting.units;
      down = counting.down;
      turns = counting.turns;
    }) };
}

// From a whole number to another that is counted in its units.
fn count_from(from: &Number, to: Fixed, through: bool) -> Result<Counting, Memory>
    ensures { IfOk result (λ counting. counting ≡ count_from from.now to through) }
{
    let units = from.units.share()?;
    let between = (to.mantissa() - from.value.mantissa()).unsigned_abs() / SCALE;
    let turns = if through { between + 1 } else { between };
    Ok(Counting {
        first: from.value,
        units,
        down: from.value.cmp(to).is_gt(),
        turns,
    })
}

// From a number to another that is counted in its units, if both are whole.
fn whole(from: &Number, to: &Number, through: bool, span: &Span) -> Result<Counting, Refused>
    ensures { Returns result (whole from.now (converted to.now from.now.units) through span.now) }
{
    match convert(to, &from.units) {
        Ok(to) => match (from.value.whole(), to.whole()) {
            (Some(_), Some(_)) => Ok(count_from(from, to, through)?),
            (Some(_), None) => fails(FaultCode::ArgumentFault, span),
            (None, _) => fails(FaultCode::ArgumentFault, span),
        },
        Err(fault) => fails(number_code(fault), span),
    }
}

impl Counting {
    /// The numbers from one value on to another, which is counted in the units of the first; the last one with
    /// `through` alone. All faults stand here: `TypeFault` where a value is no number, `UnitFault` or `NumberRange`
    /// where the second one can't be counted in those units, and `ArgumentFault` where one isn't whole.
    #[tactic(auto, unfolding(crate::specs::Counting::counting))]
    pub fn between(
        from: &Value,
        to: &Value,
        through: bool,
        span: &Span,
    ) -> Result<Counting, Refused>
        ensures { Returns result (counting from.now to.now through span.now) }
    {
        match (number_in(from), number_in(to)) {
            (Some(from), Some(to)) => whole(from, to, through, span),
            (Some(_), None) => fails(FaultCode::TypeFault, span),
            (None, _) => fails(FaultCode::TypeFault, span),
        }
    }

    /// How many numbers there are.
    pub fn turns(&self) -> u128
        ensures { result ≡ self.now.turns }
    {
        self.turns
    }

    /// The number of a turn; the first turn is turn 0.
    pub fn number(&self, turn: u32) -> Result<Value, Memory>
        requires { turn < self.now.turns }
        ensures { IfOk result (λ value. value ≡ counted self.now turn) }
    {
        let step = Fixed::from_whole(turn as i64);
        let moved = if self.down {
            self.first.sub(step)
        } else {
            self.first.add(step)
        };
        match moved {
            Ok(number) => Ok(Value::number(number, self.units.share()?)),
            Err(_) => unreachable!(),
        }
    }
}
