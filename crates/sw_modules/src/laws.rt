// What follows from the definitions.
ghost use Rattle.sw_modules.specs.Calls.{CallsLead};
ghost use Rattle.sw_modules.specs.Law.{ComesBy};
ghost use Rattle.sw_modules.specs.Ends.{EndsByBodies};

/// A body that was answered as what is outside would answer it is where the evaluation from nothing comes by.
pub fn comes_by()
    ensures { ComesBy }
{}

/// Every evaluation, and each run in it, ends as the body of its text ends, or with the fault with which that text
/// doesn't read: the fault that stands in the definition where turns or loads are used up never comes.
pub fn ends_by_bodies()
    ensures { EndsByBodies }
{}

/// An evaluation leaves the host's functions as they are after the calls in it, in order.
pub fn calls_lead()
    ensures { CallsLead }
{}
