// What follows from the contract of `serve`.
ghost use Rattle.std.specs.Prelude.{◌≡◌, ◌⊎◌, ℕ, List, Option, Some};
ghost use Rattle.sw_world.specs.Hosts.{HostState};
ghost use Rattle.sw_modules.specs.Fresh.{Setting};
ghost use Rattle.sw_cmd_protocol.specs.declared.stop.Stop.{Stop};
ghost use Rattle.sw_cmd_protocol.specs.Script.{script, End};
ghost use Rattle.sw_cmd_protocol.specs.Endings.{IsBrokenOffAlone};
ghost use Rattle.sw_cmd_protocol.specs.Exactly.{AnswersAll, EndsExactlyAlone};
ghost use Rattle.sw_cmd_protocol.specs.One.{OneTranscript};
ghost use Rattle.sw_cmd_session.specs.Script.{grammar};
ghost use Rattle.sw_cmd_session.specs.Transcript.{session, refusal};
ghost use Rattle.sw_cmd_session.specs.Served.{surroundings, nothing_held, Served};

/// Over a source that tells its bytes, a session that no fault and no want of memory breaks off ends exactly as the
/// script of all these bytes calls for, and it has answered that script.
pub fn ends_exactly()
    ensures { (setting : Setting) (most : ℕ) (stop : Stop) (bytes : List ℕ) (left written written_now : Option (List ℕ))
        (ran ran_now : List (List ℕ)) (hosts hosts_now : HostState)
        (s : Served setting most stop (surroundings (Some bytes) written ran hosts)
        (surroundings left written_now ran_now hosts_now))
        → EndsExactlyAlone grammar most stop bytes s.served.taken }
{}

/// A script of at most so many requests and then the line `end`, over a source and a sink that tell their bytes, is
/// carried out whole, unless the source or the sink failed or memory ran out.
pub fn answers_all()
    ensures { (setting : Setting) (most : ℕ) (stop : Stop) (bytes before now : List ℕ) (left : Option (List ℕ))
        (ran ran_now : List (List ℕ)) (hosts hosts_now : HostState)
        (s : Served setting most stop (surroundings (Some bytes) (Some before) ran hosts)
        (surroundings left (Some now) ran_now hosts_now)) → (script grammar most bytes).ending ≡ End
        → IsBrokenOffAlone stop ⊎ ((stop ≡ Stop.Ended)
        × AnswersAll (session setting) most bytes s.served.marks before now ran ran_now (nothing_held hosts) s.holds) }
{}

/// The requests, what is held at first and what the refused compiles ran and left give the marks of all requests, and
/// so their replies: for the same bytes there is one transcript.
pub fn transcript_is_one()
    ensures { (setting : Setting) → OneTranscript (session setting) refusal }
{}
