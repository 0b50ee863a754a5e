// What runs and scans are, whatever the count of steps in their definitions.
ghost use Rattle.std.specs.Prelude.{◌≡◌, ◌<◌, ◌≤◌, [], List, ℕ};
ghost use Rattle.sw_text_scan.specs.declared.brackets.Stops.{Stops};
ghost use Rattle.sw_text_scan.specs.declared.runs.Class.{Class};
ghost use Rattle.sw_text_scan.specs.Brackets.{stop_at, stop_behind, StopsByStep};
ghost use Rattle.sw_text_scan.specs.Runs.{next, run_end};

/// A law: a run goes on where its class takes something, and ends where it takes nothing.
pub fn runs_are_longest()
    ensures goes_on { (c : Class) (text : List ℕ) (at : ℕ)
        → at < next c text at → run_end c text at ≡ run_end c text (next c text at) }
    ensures ends { (c : Class) (text : List ℕ) (at : ℕ) → next c text (run_end c text at) ≤ run_end c text at }
{}

/// A law: a scan for the end of a text stops at the first place outside strings and brackets that ends it, and else
/// goes on by a step, whatever is open.
pub fn stops_at_the_first()
    ensures first { (to : Stops) (text : List ℕ) (at : ℕ) → stop_at to text at ≡ stop_behind to text [] at }
    ensures step { (to : Stops) (text closers : List ℕ) (at : ℕ) → StopsByStep to text closers at }
{}
