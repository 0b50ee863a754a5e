// Questions that are no loads.
ghost use Rattle.std.specs.Prelude.{◌≡◌, ◌++◌, ◌∷◌, [], bytes_eq, IfOk, OnOk, OnErr, None, Some};
ghost use Rattle.std.specs.Map.{lookup};
ghost use Rattle.sw_world.specs.Questions.{IsLoad, Fits};
ghost use Rattle.sw_world.specs.declared.answer.Answer.TheVariants.{Value as Value_answer};
ghost use Rattle.sw_modules.specs.Names.{found, value_of, no_value};
ghost use Rattle.sw_modules.specs.Outside.{plain};
ghost use Rattle.sw_modules.specs.State.{with_variable};

use crate::Live;
use std::alloc::Global;
use sw_text::{Memory, Name, Span};
use sw_values::Value;
use sw_world::{Answer, Confirms, ConfirmsNamed, Hosts, NamedVariables, Question, SayKind, World};

impl<'a> Live<'a> {
    /// The answer to a question that is no load. After `Memory` the state and the host are as before.
    pub fn answer<H: Hosts>(&mut self, op: &Question, hosts: &mut H) -> Result<Answer, Memory>
        requires { IsLoad op.now → ⊥ }
        ensures plain { IfOk result (λ answer. plain (record { answer = H.answer; after = H.after }) op.now
            (record { live = self.old; hosts = H.state hosts.old })
            ≡ (answer, record { live = self.new; hosts = H.state hosts.new })) }
        ensures fits { IfOk result (λ answer. Fits op.now answer) }
        ensures err { OnErr result (self.new ≡ self.old) }
        ensures hosts_err { OnErr result (hosts.new ≡ hosts.old) }
    {
        match op {
            Question::Load { .. } => unreachable!(),
            Question::Find {
                site,
                space,
                kind,
                name,
            } => self.find(site, space, *kind, name),
            Question::Get { owner, name } => Ok(Answer::Value(self.value_of(owner, name)?)),
            Question::Put { owner, name, value } => {
                self.put(owner, name, value)?;
                Ok(Answer::Done)
            }
            Question::Say { kind, span, text } => {
                self.say(*kind, span, text)?;
                Ok(Answer::Done)
            }
            Question::Call { name, args } => {
                let given = hosts.call(self.allocator(), name, args.get())?;
                Ok(Answer::Hosted(given))
            }
        }
    }

    fn value_of(&self, owner: &Name, name: &Name) -> Result<Value, Memory>
        ensures { IfOk result (λ value. value ≡ value_of self.now owner.now name.now) }
    {
        match self.loaded().find(owner, self.recent.module) {
            None => Ok(Value::null()),
            Some((_, held)) => match held.variables.find(name, self.recent.variable) {
                None => Ok(Value::null()),
                Some((_, value)) => value.share(),
            },
        }
    }
}

/// A live state and the host's functions, which answer every question but loads.
#[derive(Drop)]
pub struct Asked<'b, 'a, H: Hosts> {
    pub live: &'b mut Live<'a>,
    pub hosts: &'b mut H,
}

impl<'b, 'a, H: Hosts> World for Asked<'b, 'a, H> {
    ghost use Rattle.std.specs.Prelude.{◌≡◌};
    ghost use Rattle.sw_modules.specs.Outside.{plain};

    // the same borrows, at what is outside next
    ghost gives = { λ w op answer t. (plain (record { answer = H.answer; after = H.after }) op
        (record { live = w.live.now; hosts = H.state w.hosts.now })
        ≡ (answer, record { live = t.live.now; hosts = H.state t.hosts.now })) × (t.live.ghost_name ≡ w.live.ghost_name)
        × (t.hosts.ghost_name ≡ w.hosts.ghost_name) };

    fn ask(&mut self, _alloc: Global, op: &Question) -> Result<Answer, Memory> {
        self.live.answer(op, self.hosts)
    }
}

impl<'b, 'a, H: Hosts> Confirms for Asked<'b, 'a, H> {
    #[tactic(auto, using(crate::proofs::Confirming::answer_stays))]
    fn confirms(&mut self, op: &Question, kept: &Answer) -> bool {
        self.live.confirms(op, kept)
    }
}

impl<'b, 'a, H: Hosts> ConfirmsNamed for Asked<'b, 'a, H> {
    #[tactic(auto, using(crate::proofs::Confirming::answer_stays))]
    fn confirms_named(&mut self, named: &NamedVariables) -> bool {
        self.live.confirms_named(named)
    }
}
