// The ends of loads.
ghost use Rattle.std.specs.Prelude.{◌≡◌, ◌<◌, ◌+◌, ◌-◌, ◌++◌, ◌∷◌, [], false, length, take, bytes_eq, IfOk, OnOk, OnErr};
ghost use Rattle.indexmap.specs.IndexMap.{insert_entry};
ghost use Rattle.sw_world.specs.Questions.{IsLoad};
ghost use Rattle.sw_world.specs.declared.answer.Answer.TheVariants.{Refused};
ghost use Rattle.sw_modules.specs.Interfaces.{brought};
ghost use Rattle.sw_modules.specs.Uses.{is_taken, no_uses, with_one, first_uses};
ghost use Rattle.sw_modules.specs.State.{below, changed_below, closed, module_of, used_by, loaded_now, path_in, uses_in, with_use};
ghost use Rattle.sw_modules.specs.Loads.{refused, first_untaken, used_unless, interface_at_end, ended_by, left_by, AnswersLoad};

use crate::interfaces::brought_of;
use crate::loads::{below, counts, first_untaken, refused, takes, truncate_at, use_at};
use crate::uses::Source;
use crate::{Entry, Live, Module, Opened, UsesCounts};
use sw_text::{Fault, FaultCode, List, Memory, Name, Shared, Span};
use sw_world::{Answer, End, Finish, Given, How, Question};

impl<'a> Live<'a> {
    /// The answer to the innermost open load, whose body ended so. At its end the module is recorded and used; a name
    /// of a `with` that it didn't take refuses the load, and so does a namespace that stands for a module already, or
    /// a member that another forward brought from elsewhere. After `Memory` the state is as before.
    pub fn end(&mut self, op: &Question, end: &End) -> Result<Answer, Memory>
        requires is_load { IsLoad op.now }
        requires is_open { 0 < length self.old.opened }
        ensures ok { IfOk result (λ answer. ended_by op.now (path_in self.old.opened) end.now self.old
            ≡ (answer, self.new)) }
        ensures kind { IfOk result AnswersLoad }
        ensures closes { OnOk result (length self.new.opened + 1 ≡ length self.old.opened) }
        ensures err { OnErr result (self.new ≡ self.old) }
    {
        let Question::Load {
            span,
            how,
            config,
            ..
        } = op
        else {
            unreachable!()
        };
        match end {
            End::Done(finish) => self.end_done(how, config.get().as_slice(), finish, span),
            End::Fault(fault) => self.end_faulted(fault),
        }
    }

    /// Closes the innermost open load, which this fault ended.
    #[inline(never)]
    fn end_faulted(&mut self, fault: &Fault) -> Result<Answer, Memory>
        requires { 0 < length self.old.opened }
        ensures answer { IfOk result (λ answer. answer ≡ Refused fault.now) }
        ensures after { OnOk result (self.new ≡ closed self.old) }
        ensures closes { OnOk result (length self.new.opened + 1 ≡ length self.old.opened) }
        ensures err { OnErr result (self.new ≡ self.old) }
    {
        let fault = fault.share()?;
        self.close();
        Ok(Answer::Refused(fault))
    }

    fn end_done(
        &mut self,
        how: &How,
        config: &[Given],
        finish: &Shared<Finish>,
        span: &Span,
    ) -> Result<Answer, Memory>
        requires { 0 < length self.old.opened }
        ensures ok { IfOk result (λ answer. used_unless (first_untaken config.now finish.now.taken) how.now
            (path_in self.old.opened) (interface_at_end (path_in self.old.opened) finish.now self.old) finish.now.taken
            span.now (loaded_now finish.now self.old) ≡ (answer, self.new)) }
        ensures kind { IfOk result AnswersLoad }
        ensures closes { OnOk result (length self.new.opened + 1 ≡ length self.old.opened) }
        ensures err { OnErr result (self.new ≡ self.old) }
    {
        match first_untaken(config, finish.get().taken.as_slice()) {
            Some(given) => self.end_refused(FaultCode::NotConfigurable, &given.span, finish),
            None => {
                let brought = self.brought_at_end(how, finish)?;
                if takes(below(&self.opened), how, brought.as_slice()) {
                    return self.end_refused(FaultCode::MemberConflict, span, finish);
                }
                let (path, taken) = self.end_used(how, brought, finish)?;
                Ok(Answer::Loaded { path, taken })
            }
        }
    }

    /// What a use of the innermost open load's module brings, whose body ended so.
    fn brought_at_end(&self, how: &How, finish: &Shared<Finish>) -> Result<List<Entry>, Memory>
        requires { 0 < length self.now.opened }
        ensures { IfOk result (λ entries. entries
            ≡ brought how.now (interface_at_end (path_in self.now.opened) finish.now self.now)) }
    {
        if let How::Use { .. } = how {
            return Ok(List::new(self.alloc));
        }
        let held = Module::of(self.alloc, finish)?;
        match self.opened.last() {
            Some(load) => brought_of(self.alloc, how, &load.path, &held, &load.uses.forwarded),
            None => unreachable!(),
        }
    }

    /// Records the module of the innermost open load, which is refused.
    #[inline(never)]
    fn end_refused(
        &mut self,
        code: FaultCode,
        span: &Span,
        finish: &Shared<Finish>,
    ) -> Result<Answer, Memory>
        requires { 0 < length self.old.opened }
        ensures answer { IfOk result (λ answer. answer ≡ refused code span.now) }
        ensures state { OnOk result (self.new ≡ loaded_now finish.now self.old) }
        ensures closes { OnOk result (length self.new.opened + 1 ≡ length self.old.opened) }
        ensures err { OnErr result (self.new ≡ self.old) }
    {
        let answer = refused(code, span)?;
        self.record(finish)?;
        Ok(answer)
    }

    /// Records the module of the innermost open load, and that the one below uses it: its path, and the names that it
    /// took.
    fn end_used(
        &mut self,
        how: &How,
        brought: List<Entry>,
        finish: &Shared<Finish>,
    ) -> Result<(Name, Shared<List<Name>>), Memory>
        requires is_open { 0 < length self.old.opened }
        requires free { is_taken how.now brought (uses_in (below self.old.opened)) ≡ false }
        ensures answer { IfOk result (λ used. used ≡ (path_in self.old.opened, finish.now.taken)) }
        ensures state { OnOk result (self.new ≡ record (loaded_now finish.now self.old) {
          opened = with_use how.now (path_in self.old.opened) brought (below self.old.opened);
        }) }
        ensures closes { OnOk result (length self.new.opened + 1 ≡ length self.old.opened) }
        ensures err { OnErr result (self.new ≡ self.old) }
    {
        let taken = self.taken_by(finish)?;
        let path = self.path()?;
        let counts = counts(below(&self.opened));
        self.use_below(how, &path, brought)?;
        match self.record(finish) {
            Ok(()) => Ok((path, taken)),
            Err(memory) => {
                self.drop_use_below(counts);
                Err(memory)
            }
        }
    }

    /// The load below the innermost one, if there is one, uses the module at this path too.
    fn use_below(&mut self, how: &How, path: &Name, brought: List<Entry>) -> Result<(), Memory>
        ensures ok { OnOk result (self.new
            ≡ record self.old { opened = changed_below (with_one how.now path.now brought) self.old.opened }) }
        ensures err { OnErr result (self.new ≡ self.old) }
        ensures same_count { length self.new.opened ≡ length self.old.opened }
    {
        let source = Source {
            path: path.share()?,
            near: self.loaded.len(),
            brought,
        };
        let count = self.opened.len();
        if count > 1 {
            use_at(&mut self.opened, count - 2, how, source)
        } else {
            Ok(())
        }
    }

    /// It keeps the first uses of each kind.
    fn drop_use_below(&mut self, counts: UsesCounts)
        ensures { self.new ≡ record self.old { opened = changed_below (first_uses counts) self.old.opened } }
    {
        let count = self.opened.len();
        if count > 1 {
            truncate_at(&mut self.opened, count - 2, counts);
        }
    }

    /// Closes the entry, whose body ended so; at its end the module is recorded. After `Memory` the state is as before.
    pub fn leave(&mut self, end: &End) -> Result<(), Memory>
        requires { 0 < length self.old.opened }
        ensures ok { OnOk result (self.new ≡ left_by end.now self.old) }
        ensures err { OnErr result (self.new ≡ self.old) }
    {
        match end {
            End::Done(finish) => self.record(finish),
            End::Fault(_) => {
                self.close();
                Ok(())
            }
        }
    }

    /// Closes the innermost open load, of which nothing is recorded. Takes no memory.
    pub fn close(&mut self)
        requires { 0 < length self.old.opened }
        ensures after { self.new ≡ closed self.old }
        ensures closes { length self.new.opened + 1 ≡ length self.old.opened }
    {
        self.opened.pop();
    }

    /// The path of the innermost open load.
    fn path(&self) -> Result<Name, Memory>
        requires { 0 < length self.now.opened }
        ensures { IfOk result (λ path. path ≡ path_in self.now.opened) }
    {
        match self.opened.last() {
            Some(load) => load.path.share(),
            None => unreachable!(),
        }
    }

    /// Records the module of the innermost open load. What can fail comes first.
    fn record(&mut self, finish: &Shared<Finish>) -> Result<(), Memory>
        requires { 0 < length self.old.opened }
        ensures state { OnOk result (self.new ≡ loaded_now finish.now self.old) }
        ensures closes { OnOk result (length self.new.opened + 1 ≡ length self.old.opened) }
        ensures err { OnErr result (self.new ≡ self.old) }
    {
        let path = self.path()?;
        self.put_out(finish)?;
        match self.add_module(&path, finish) {
            Ok(()) => {
                self.close_into(&path);
                Ok(())
            }
            Err(memory) => {
                self.take_back();
                Err(memory)
            }
        }
    }

    /// Adds the output of a body that ended.
    fn put_out(&mut self, finish: &Shared<Finish>) -> Result<(), Memory>
        ensures ok { OnOk result (self.new
            ≡ record self.old { outputs = self.old.outputs ++ finish.now.css ∷ [] }) }
        ensures err { OnErr result (self.new ≡ self.old) }
    {
        self.outputs.add(finish)
    }

    /// Takes the last output back.
    fn take_back(&mut self)
        ensures { self.new
            ≡ record self.old { outputs = take (length self.old.outputs - 1) self.old.outputs } }
    {
        self.outputs.take_back();
    }

    /// Adds the module at a path that this body left behind, as yet without its uses.
    fn add_module(&mut self, path: &Name, finish: &Shared<Finish>) -> Result<(), Memory>
        ensures ok { OnOk result (self.new
            ≡ record self.old {
              loaded = insert_entry bytes_eq self.old.loaded path.now (module_of finish.now no_uses);
            }) }
        ensures err { OnErr result (self.new ≡ self.old) }
    {
        self.loaded.add_ended(self.alloc, path, finish)
    }

    /// Closes the innermost open load, whose uses become those of the module at this path.
    fn close_into(&mut self, path: &Name)
        requires { 0 < length self.old.opened }
        ensures after { self.new ≡ record self.old {
          opened = below self.old.opened;
          loaded = used_by self.old.loaded path.now (uses_in self.old.opened);
        } }
        ensures closes { length self.new.opened + 1 ≡ length self.old.opened }
    {
        let Some(Opened { path: _, uses }) = self.opened.pop() else {
            unreachable!()
        };
        self.loaded.set_uses(path, uses);
    }
}
