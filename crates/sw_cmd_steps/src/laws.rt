// What follows from the contract of `serve_steps`.
ghost use Rattle.std.specs.Prelude.{◌≡◌, ◌⊎◌, ◌≤◌, ℕ, List, Option, Some, length};
ghost use Rattle.sw_modules.specs.Fresh.{Setting};
ghost use Rattle.sw_cmd_protocol.specs.declared.stop.Stop.{Stop};
ghost use Rattle.sw_cmd_protocol.specs.Script.{script, End};
ghost use Rattle.sw_cmd_protocol.specs.Transcript.{turns, held_after};
ghost use Rattle.sw_cmd_protocol.specs.Endings.{IsBrokenOffAlone};
ghost use Rattle.sw_cmd_protocol.specs.Exactly.{AnswersAll, EndsExactlyAlone};
ghost use Rattle.sw_cmd_protocol.specs.One.{OneTranscript};
ghost use Rattle.sw_cmd_steps.specs.Script.{Event, grammar};
ghost use Rattle.sw_cmd_steps.specs.Transcript.{Mark, steps, refusal};
ghost use Rattle.sw_cmd_steps.specs.Served.{surroundings, nothing_held, Served};

/// Over a source that tells its bytes, answers that no fault and no want of memory breaks off end exactly as the script
/// of all these bytes calls for, and they are those to that script.
pub fn ends_exactly()
    ensures { (setting : Setting) (most : ℕ) (stop : Stop) (bytes : List ℕ) (left written written_now : Option (List ℕ))
        (ran ran_now : List (List ℕ))
        (s : Served setting most stop (surroundings (Some bytes) written ran) (surroundings left written_now ran_now))
        → EndsExactlyAlone grammar most stop bytes s.served.taken }
{}

/// A script of at most so many requests and then the line `end`, over a source and a sink that tell their bytes, is
/// carried out whole, unless the source or the sink failed or memory ran out.
pub fn answers_all()
    ensures { (setting : Setting) (most : ℕ) (stop : Stop) (bytes before now : List ℕ) (left : Option (List ℕ))
        (ran ran_now : List (List ℕ))
        (s : Served setting most stop (surroundings (Some bytes) (Some before) ran)
        (surroundings left (Some now) ran_now)) → (script grammar most bytes).ending ≡ End
        → IsBrokenOffAlone stop ⊎ ((stop ≡ Stop.Ended)
        × AnswersAll (steps setting) most bytes s.served.marks before now ran ran_now nothing_held s.holds) }
{}

/// The requests and what the refused steps ran give the marks of all requests, and so their replies: for the same bytes
/// there is one transcript.
pub fn transcript_is_one()
    ensures { (setting : Setting) → OneTranscript (steps setting) refusal }
{}

/// No more numbers are given than requests are carried out, so that they don't run out.
pub fn numbers_are_few()
    ensures { (setting : Setting) (events : List Event) (marks : List Mark)
        → (held_after nothing_held (turns (steps setting) nothing_held events marks)).given ≤ length marks }
{}
