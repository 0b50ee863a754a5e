// A world that answers each question with what fits it.
ghost use Rattle.std.specs.Prelude.{IfOk};
ghost use Rattle.sw_world.specs.Questions.{IsLoad, Fits};

use std::alloc::Global;
use sw_text::{Memory, Name};
use sw_tree::Kind;
use sw_values::{Node, Value};
use sw_world::{Answer, Question, World};

/// Every variable but `gone` is one of `lib.scss`, and has the value `v`. It finds no memory at one question, until it
/// is fed.
#[derive(Clone, Copy, Debug)]
pub struct Told {
    /// How many questions it answered.
    pub answered: u32,
    starves_at: Option<u32>,
}

impl Told {
    /// It answers so many questions, and finds no memory at the next.
    pub fn starving_at(at: u32) -> Told {
        Told {
            answered: 0,
            starves_at: Some(at),
        }
    }

    /// From now on it finds memory at each question, also at the one where it starved.
    pub fn feed(&mut self) {
        self.starves_at = None;
    }

    /// Whether it has starved.
    pub fn was_fed(&self) -> bool {
        self.starves_at.is_none()
    }
}

fn value(alloc: Global) -> Result<Value, Memory> {
    let text = Name::new(alloc, "v")?;
    match Value::of(Node::Text {
        text,
        quoted: false,
    }) {
        Ok(value) => Ok(value),
        Err(_) => Err(Memory),
    }
}

fn answer(alloc: Global, op: &Question) -> Result<Answer, Memory>
    requires { IsLoad op.now → ⊥ }
    ensures { IfOk result (λ a. Fits op.now a) }
{
    match op {
        Question::Find {
            kind: Kind::Variable,
            name,
            ..
        } if name.as_str() != "gone" => {
            let name = name.share()?;
            let path = Name::new(alloc, "lib.scss")?;
            Ok(Answer::Owner { path, name })
        }
        Question::Find { .. } => Ok(Answer::NoMember),
        Question::Get { .. } => {
            let value = value(alloc)?;
            Ok(Answer::Value(value))
        }
        Question::Put { .. } | Question::Say { .. } => Ok(Answer::Done),
        Question::Call { .. } => Ok(Answer::Hosted(None)),
        Question::Load { .. } => unreachable!(),
    }
}

impl World for Told {
    ghost gives = { λ before op answer after. Unit {0} };

    fn ask(&mut self, alloc: Global, op: &Question) -> Result<Answer, Memory> {
        if self.starves_at == Some(self.answered) {
            return Err(Memory);
        }
        let answer = answer(alloc, op)?;
        self.answered = self.answered.saturating_add(1);
        Ok(answer)
    }
}
