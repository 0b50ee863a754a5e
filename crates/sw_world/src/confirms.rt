// What confirms variables that are named.
ghost use Rattle.std.specs.Prelude.{◌≡◌};
ghost use Rattle.std.specs.Bool.{OnTrue};
ghost use Rattle.sw_world.specs.Body.{Pair};
ghost use Rattle.sw_world.specs.Named.{IsNamed};

use crate::{Confirms, NamedVariables};

/// A world that tells of all variables of a module at once whether it answers the questions for them as before.
pub trait ConfirmsNamed: Confirms {
    /// True only where all questions that these variables stand for are answered so and that changes nothing. False
    /// where one is answered otherwise, and where it would have to be asked to tell. Takes no memory.
    fn confirms_named(&mut self, named: &NamedVariables) -> bool
        ensures given { OnTrue result ((pair : Pair) → IsNamed named.now pair
            → Self.gives self.old pair.0 pair.1 self.old) }
        ensures same { self.new ≡ self.old };
}
