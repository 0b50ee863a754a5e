// What a compile has come to so far.
ghost use Rattle.std.specs.Prelude.{◌≡◌, ◌++◌, ◌∷◌, [], Ok, IfOk, OnOk};
ghost use Rattle.sw_world.specs.Body.{Goes, Ends, answers};
ghost use Rattle.sw_keeper.specs.Steps.{job_at, run_of};

use crate::context::Opening;
use crate::kept::KeptRun;
use std::alloc::Global;
use std::marker::Model;
use sw_modules::Reader;
use sw_record::{Cause, Run, Trace};
use sw_text::{List, Memory, Name, Shared};
use sw_tree::Sheet;
use sw_world::{End, Engine, Pairs};

/// The run of a body that ended.
#[inline(never)]
pub(crate) fn run_ended<E: Engine>(
    alloc: Global,
    opening: &Opening,
    sheet: &Shared<Sheet>,
    seen: Pairs,
    end: End,
) -> Result<Run<E>, Memory>
    requires goes { Goes (E.body (job_at sheet.now opening.now)) [] seen }
    requires ends { E.body (job_at sheet.now opening.now) (answers seen) ≡ Ends end }
    ensures { IfOk result (λ run. run
        ≡ record { sheet = sheet.now; run = run_of (job_at sheet.now opening.now) opening.now.text seen end }) }
{
    let trace = Trace {
        path: opening.path.share()?,
        text: opening.text.share()?,
        sheet: sheet.share()?,
        config: opening.config.share()?,
        seen,
        end,
    };
    Run::new(alloc, trace)
}

/// The runs that ended in a compile, kept ones and new ones, and the modules whose bodies ran, each with its cause;
/// both in the order in which the bodies ended.
#[derive(Drop)]
pub(crate) struct Results<R: Reader, E: Engine> {
    runs: List<KeptRun<R, E>>,
    ran: List<(Name, Cause)>,
}

impl<R: Reader, E: Engine> Model for Results<R, E> {
    ghost use Rattle.std.specs.Coded.{codes};
    ghost use Rattle.sw_tree.specs.contracts.expr.ExprKind as expr;
    ghost use Rattle.sw_tree.specs.contracts.statement.Statement as statement;
    ghost use Rattle.sw_values.specs.contracts.plain.Plain as plain;
    ghost use Rattle.sw_keeper.specs.Results as specs;

    ghost Value = { specs.Results };

    ghost coded = { Prim.hlevel (codes, expr.the_row.coded, statement.the_row.coded, plain.the_row.coded) };

    ghost view = { λ results. record { runs = results.runs; ran = results.ran } };
}

impl<R: Reader, E: Engine> Results<R, E> {
    /// None ended yet. Takes no memory.
    pub(crate) fn new(alloc: Global) -> Results<R, E>
        ensures { result ≡ record { runs = []; ran = [] } }
    {
        Results {
            runs: List::new(alloc),
            ran: List::new(alloc),
        }
    }

    /// How many runs ended.
    pub(crate) fn len(&self) -> usize {
        self.runs.len()
    }

    /// The runs, and the modules whose bodies ran.
    pub(crate) fn into_parts(self) -> (List<KeptRun<R, E>>, List<(Name, Cause)>)
        ensures { result ≡ (self.runs, self.ran) }
    {
        let Results { runs, ran } = self;
        (runs, ran)
    }

    /// Adds the run of the body of the module at this path, which ran for this cause.
    pub(crate) fn add(
        &mut self,
        alloc: Global,
        path: Name,
        run: Run<E>,
        cause: Cause,
    ) -> Result<(), Memory>
        requires { R.reads run.run.path run.run.text ≡ Ok run.sheet }
        ensures runs { OnOk result (self.new.runs ≡ self.old.runs ++ run.run ∷ []) }
        ensures ran { OnOk result (self.new.ran ≡ self.old.ran ++ (path, cause) ∷ []) }
    {
        self.runs.push(KeptRun::new(Shared::new(alloc, run)?))?;
        self.ran.push((path, cause))?;
        Ok(())
    }

    /// Takes a kept run over, in constant time, and gives its end.
    pub(crate) fn take_over(&mut self, run: &Shared<Run<E>>) -> Result<End, Memory>
        requires { R.reads run.now.run.path run.now.run.text ≡ Ok run.now.sheet }
        ensures end { IfOk result (λ end. end ≡ run.now.run.end) }
        ensures runs { OnOk result (self.new ≡ record self.old { runs = self.old.runs ++ run.now.run ∷ [] }) }
    {
        self.runs.push(KeptRun::new(run.share()?))?;
        run.get().end().share()
    }
}
