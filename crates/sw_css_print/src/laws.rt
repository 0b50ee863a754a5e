// What follows from the definitions.
ghost use Rattle.sw_css_print.specs.Parts.{JoinIsPrint};

/// The page of some outputs is what their parts are joined to.
#[tactic(auto, using(crate::proofs::Joins::joins))]
pub fn join_is_print()
    ensures { JoinIsPrint }
{}
