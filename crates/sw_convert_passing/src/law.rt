// Tokens are read as what they are written as.
ghost use Rattle.sw_convert_passing.specs.Heads.{HeadsAreTold};
ghost use Rattle.sw_convert_passing.specs.Laws.{FlagsAreTold, RowsAreTold, ValuesAreTold};
ghost use Rattle.sw_convert_passing.specs.Standing.{SignsStand};
ghost use Rattle.sw_convert_passing.specs.Written.{PassedIsSeen};

/// A law: what is passed token by token is what the grammar sees of these tokens.
pub fn tokens_are_passed()
    ensures { PassedIsSeen }
{}

/// A law: wherever a value may begin, the tokens that are written of one are the terminals that are meant, in each mode in
/// which values stand, through any number of brackets in each other; so are values with commas and colons between them,
/// and flags behind a value.
pub fn values_are_told()
    ensures values { ValuesAreTold }
    ensures rows { RowsAreTold }
    ensures flags { FlagsAreTold }
{}

/// A law: where a statement begins, the head of a declaration, of a variable's assignment or of an at-rule that takes a
/// value is what it is written as, and a value may begin behind it.
pub fn heads_are_told()
    ensures { HeadsAreTold }
{}

/// A law: in any text no `+`, `-` or `/` that is a sign before a value stands behind another value, and no `-` or `+` of a
/// number does without white space before it.
pub fn signs_stand_apart()
    ensures { SignsStand }
{}
