// Runs that are kept.
ghost use Rattle.std.specs.Prelude.{◌≡◌, [], IfOk};
ghost use Rattle.std.specs.Option.{option_copied};
ghost use Rattle.sw_world.specs.Body.{Goes, Ends, answers};
ghost use Rattle.sw_record.specs.Kept.{IsKept, kept_of, job_of, printed_of};
ghost use Rattle.sw_record.specs.Tails.{IsTail};

use crate::tail::tail_of;
use crate::{Tail, Trace};
use std::alloc::Global;
use std::marker::{Model, PhantomData};
use sw_css_print::{Printed, print_one};
use sw_text::{Memory, Name, Shared};
use sw_tree::Sheet;
use sw_world::{Config, End, Engine, Pairs};

/// A body that ran from its start to its end, with the sheet that it ran. Its questions and its end are those of the
/// engine's body; where it ended well, its output is kept as it is printed.
#[derive(Drop)]
pub struct Run<E: Engine> {
    trace: Trace,
    printed: Option<Shared<Printed>>,
    tail: Tail,
    of: PhantomData<E>,
}

impl<E: Engine> Model for Run<E> {
    ghost use Rattle.std.specs.Coded.{codes};
    ghost use Rattle.sw_tree.specs.contracts.expr.ExprKind as expr;
    ghost use Rattle.sw_tree.specs.contracts.statement.Statement as statement;
    ghost use Rattle.sw_values.specs.contracts.plain.Plain as plain;
    ghost use Rattle.std.specs.Prelude.{◌≡◌};
    ghost use Rattle.sw_record.specs.Kept.{Kept, IsKept, kept_of, printed_of};
    ghost use Rattle.sw_record.specs.Tails.{IsTail};

    ghost Value = { Kept };

    ghost coded = { Prim.hlevel (codes, expr.the_row.coded, statement.the_row.coded, plain.the_row.coded) };

    ghost view = { λ run. kept_of run.trace };

    ghost invariant = { λ run. IsKept E.body (kept_of run.trace) × (run.printed ≡ printed_of run.trace.end)
        × IsTail run.trace.seen run.tail };
}

impl<E: Engine> Run<E> {
    /// The run of a body that left this trace. Prints its output.
    pub fn new(alloc: Global, trace: Trace) -> Result<Run<E>, Memory>
        requires goes { Goes (E.body (job_of (kept_of trace))) [] trace.seen }
        requires ends { E.body (job_of (kept_of trace)) (answers trace.seen) ≡ Ends trace.end }
        ensures { IfOk result (λ run. run ≡ kept_of trace) }
    {
        let Trace {
            path,
            text,
            sheet,
            config,
            seen,
            end,
        } = trace;
        let printed = printed_of(alloc, &end)?;
        let seen = seen.with_shared_configs()?;
        let tail = tail_of(alloc, &seen)?;
        Ok(Run {
            trace: Trace {
                path,
                text,
                sheet,
                config,
                seen,
                end,
            },
            printed,
            tail,
            of: PhantomData,
        })
    }

    /// The path of the module whose body ran.
    pub fn path(&self) -> &Name
        ensures { result.now ≡ self.now.run.path }
    {
        &self.trace.path
    }

    /// The text that the body ran.
    pub fn text(&self) -> &Name
        ensures { result.now ≡ self.now.run.text }
    {
        &self.trace.text
    }

    /// The tree that the body ran, shared rather than copied.
    pub fn sheet(&self) -> &Shared<Sheet>
        ensures { result.now ≡ self.now.sheet }
    {
        &self.trace.sheet
    }

    /// The configuration that the body was given, its names in their order.
    pub fn config(&self) -> &Config
        ensures { result.now ≡ self.now.run.config }
    {
        &self.trace.config
    }

    /// The questions with their answers, in order.
    pub fn seen(&self) -> &Pairs
        ensures seen { result.now ≡ self.now.run.seen }
        ensures is_kept { IsKept E.body self.now }
    {
        &self.trace.seen
    }

    /// The questions behind its last load, as they are asked again at once.
    pub(crate) fn tail(&self) -> &Tail
        ensures { IsTail self.now.run.seen result.now }
    {
        &self.tail
    }

    /// How the body ended: with what it leaves behind, or with its fault.
    pub fn end(&self) -> &End
        ensures end { result.now ≡ self.now.run.end }
        ensures is_kept { IsKept E.body self.now }
    {
        &self.trace.end
    }

    /// Its output as it is printed: none exactly where it ended with a fault.
    pub fn printed(&self) -> Option<&Shared<Printed>>
        ensures { option_copied result ≡ printed_of self.now.run.end }
    {
        self.printed.as_ref()
    }
}

// The printed output of a body that ended so.
fn printed_of(alloc: Global, end: &End) -> Result<Option<Shared<Printed>>, Memory>
    ensures { IfOk result (λ printed. printed ≡ printed_of end.now) }
{
    match end {
        End::Done(finish) => {
            let printed = print_one(alloc, finish.get().css.get())?;
            Ok(Some(Shared::new(alloc, printed)?))
        }
        End::Fault(_) => Ok(None),
    }
}
