// What follows from the definitions.
ghost use Rattle.sw_record.specs.Ran.{RanIsOne};

/// The kept runs and the runs of a compile give which bodies ran, each with its cause: there is one such list alone.
pub fn ran_is_one()
    ensures { RanIsOne }
{}
