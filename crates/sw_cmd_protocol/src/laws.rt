// What follows from the definitions, for every protocol.
ghost use Rattle.std.specs.Prelude.{◌≡◌, ◌⊎◌, ℕ, List, Option, Some};
ghost use Rattle.sw_cmd_protocol.specs.declared.stop.Stop.{Stop};
ghost use Rattle.sw_cmd_protocol.specs.Script.{script, End};
ghost use Rattle.sw_cmd_protocol.specs.Endings.{IsBrokenOff};
ghost use Rattle.sw_cmd_protocol.specs.Served.{surroundings, Served};
ghost use Rattle.sw_cmd_protocol.specs.Exactly.{Grows, EndsExactly, AnswersAll};
ghost use Rattle.sw_cmd_protocol.specs.One.{OneMark, OneTranscript};

use crate::Protocol;

/// Where what a line begins stays as it is whatever follows, and over a source that tells its bytes: what no fault and
/// no want of memory breaks off ends exactly as the script of all these bytes calls for, and it has answered that
/// script.
pub fn ends_exactly<E, O, R, P: Protocol<E, O, R>>()
    ensures { Grows P.rules.grammar
        → (most : ℕ) (stop : Stop) (bytes : List ℕ) (left written written_now : Option (List ℕ))
        (ran ran_now : List (List ℕ)) (held held_now : P.Held)
        (s : Served P.rules most stop (surroundings (Some bytes) written held ran)
        (surroundings left written_now held_now ran_now))
        → EndsExactly P.rules.grammar most stop bytes s.taken }
{}

/// There too, a script of at most so many requests and then the line `end`, over a sink that tells its bytes, is
/// carried out whole, unless a fault or want of memory breaks it off.
pub fn answers_all<E, O, R, P: Protocol<E, O, R>>()
    ensures { Grows P.rules.grammar
        → (most : ℕ) (stop : Stop) (bytes before now : List ℕ) (left : Option (List ℕ)) (ran ran_now : List (List ℕ))
        (held held_now : P.Held)
        (s : Served P.rules most stop (surroundings (Some bytes) (Some before) held ran)
        (surroundings left (Some now) held_now ran_now)) → (script P.rules.grammar most bytes).ending ≡ End
        → IsBrokenOff stop ⊎ ((stop ≡ Stop.Ended)
        × AnswersAll P.rules most bytes s.marks before now ran ran_now held held_now) }
{}
