// What follows from the definitions.
ghost use Rattle.sw_keeper.specs.Latest.{KeepsTheLatest, KeptIsOne};
ghost use Rattle.sw_keeper.specs.Outputs.{CssIsOfRuns};

/// After a compile each path has the list of kept runs that its own runs make of the one before: of these each is taken
/// out of the list and put in front of it, and the list is cut to eight.
pub fn keeps_the_latest()
    ensures { KeepsTheLatest }
{}

/// The kept runs before a compile and its runs give those after it: there is one such table alone.
pub fn kept_is_one()
    ensures { KeptIsOne }
{}

/// The CSS of a compile is the page of the outputs of its runs that ended well, in the order in which they ended; so
/// the CSS of modules doesn't stand in the order in which they are loaded first.
pub fn css_is_of_runs()
    ensures { CssIsOfRuns }
{}
