// The rule of the tables of names.
ghost use Rattle.std.specs.Prelude.{◌≡◌, true};
ghost use Rattle.sw_builtins.specs.Tables.{math, string, list, maps, color, meta, global, names_rise};

/// The names of each table stand in the order of the alphabet, so none stands twice.
pub fn names_stand_once()
    ensures math { names_rise math ≡ true }
    ensures string { names_rise string ≡ true }
    ensures list { names_rise list ≡ true }
    ensures map { names_rise maps ≡ true }
    ensures color { names_rise color ≡ true }
    ensures meta { names_rise meta ≡ true }
    ensures global { names_rise global ≡ true }
{}
