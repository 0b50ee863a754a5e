// What follows from the contract of `poll_folder`.
ghost use Rattle.std.specs.Prelude.{◌≡◌, ◌⊎◌, ℕ, List, [], Option, Some};
ghost use Rattle.sw_io.specs.Disks.{Course};
ghost use Rattle.sw_cmd_line.specs.Forms.{Target};
ghost use Rattle.sw_modules.specs.Fresh.{Setting};
ghost use Rattle.sw_keeper.specs.Keeping.{Table};
ghost use Rattle.sw_cmd_protocol.specs.declared.stop.Stop.{Stop};
ghost use Rattle.sw_cmd_protocol.specs.Script.{script, End};
ghost use Rattle.sw_cmd_protocol.specs.Transcript.{AreMarks};
ghost use Rattle.sw_cmd_protocol.specs.Endings.{IsBrokenOff};
ghost use Rattle.sw_cmd_protocol.specs.Exactly.{EndsExactly, AnswersAll};
ghost use Rattle.sw_cmd_run.specs.Poll.{Event, Mark, held, grammar, poll};
ghost use Rattle.sw_cmd_run.specs.Listings.{ReadInTurn};
ghost use Rattle.sw_cmd_run.specs.Served.{surroundings, Served};

/// Over a source that tells its bytes, a poll that no fault and no want of memory breaks off ends exactly as the script
/// of all these bytes calls for, and it has answered that script.
pub fn poll_ends_exactly()
    ensures { (setting : Setting) (target : Target) (most : ℕ) (stop : Stop) (bytes : List ℕ)
        (left written written_now : Option (List ℕ)) (course course_now : Option Course) (ran ran_now : List (List ℕ))
        (s : Served setting target most stop (surroundings (Some bytes) written course ran)
        (surroundings left written_now course_now ran_now))
        → EndsExactly grammar most stop bytes s.served.taken }
{}

/// At most so many lines `scan` and then the line `end`, over a source and a sink that tell their bytes, are answered
/// whole, unless a fault or want of memory breaks the poll off.
pub fn poll_answers_all()
    ensures { (setting : Setting) (target : Target) (most : ℕ) (stop : Stop) (bytes before now : List ℕ)
        (left : Option (List ℕ)) (course course_now : Option Course) (ran ran_now : List (List ℕ))
        (s : Served setting target most stop (surroundings (Some bytes) (Some before) course ran)
        (surroundings left (Some now) course_now ran_now)) → (script grammar most bytes).ending ≡ End
        → IsBrokenOff stop ⊎ ((stop ≡ Stop.Ended)
        × AnswersAll (poll setting) most bytes s.served.marks before now ran ran_now (held target course []) s.holds) }
{}

/// Over a disk that tells its folders the scans read what it lists, one listing after the other.
pub fn scans_read_in_turn()
    ensures { (setting : Setting) (target : Target) (c : Course) (kept : Table) (events : List Event)
        (marks : List Mark) → AreMarks (poll setting) (held target (Some c) kept) events marks → ReadInTurn c marks }
{}
