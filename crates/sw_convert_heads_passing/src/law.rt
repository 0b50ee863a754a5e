// Tokens are read as what they are written as.
ghost use Rattle.sw_convert_heads_passing.specs.Blocks.{BlocksClose, BlocksEnd, BlocksOpen, EndsAreTold};
ghost use Rattle.sw_convert_heads_passing.specs.Comments.{RunsAreSeen};
ghost use Rattle.sw_convert_heads_passing.specs.Flow.{BoundsAreTold, FlowHeadsAreTold, LoneHeadsAreTold};
ghost use Rattle.sw_convert_heads_passing.specs.Heads.{TextHeadsAreTold};
ghost use Rattle.sw_convert_heads_passing.specs.Loads.{LoadsAreTold};
ghost use Rattle.sw_convert_heads_passing.specs.Media.{MediaIsTold};
ghost use Rattle.sw_convert_heads_passing.specs.Members.{MembersAreTold};
ghost use Rattle.sw_convert_heads_passing.specs.Properties.{CustomHeadsAreTold, PropertyHeadsAreTold};
ghost use Rattle.sw_convert_heads_passing.specs.RawTexts.{RawTextsAreTold};
ghost use Rattle.sw_convert_heads_passing.specs.Sheets.{SheetsAreTold};
ghost use Rattle.sw_convert_heads_passing.specs.Statements.{StatementsAreTold};

/// A law: wherever raw text may begin, in a rule, an at-rule or a custom property, its tokens are the terminals that are
/// meant, through any number of brackets in each other.
pub fn raw_texts_are_told()
    ensures { RawTextsAreTold }
{}

/// A law: where a statement begins, the name of an at-rule that takes text is what it is written as, with values in it or
/// without, and its text may begin behind it.
pub fn text_heads_are_told()
    ensures { TextHeadsAreTold }
{}

/// A law: where a statement begins, the name of a declaration or of a custom property is what it is written as, with values
/// in it or without, and a value or a text may begin behind its `:`.
pub fn property_heads_are_told()
    ensures properties { PropertyHeadsAreTold }
    ensures customs { CustomHeadsAreTold }
{}

/// A law: where a statement begins, `@use` and `@forward` are what they are written as, with their namespaces, prefixes,
/// members and configurations.
pub fn loads_are_told()
    ensures { LoadsAreTold }
{}

/// A law: where a statement begins, `@media` and its queries are what they are written as, through any number of parentheses
/// in each other.
pub fn media_is_told()
    ensures { MediaIsTold }
{}

/// A law: where a statement begins, the heads of functions, mixins, `@include` and `@content` are what they are written as,
/// with parameters and arguments.
pub fn members_are_told()
    ensures { MembersAreTold }
{}

/// A law: where a statement begins, the heads of `@each`, `@for`, `@else`, `@charset` and of the assignment of another
/// module's variable are what they are written as, and so is the word between the bounds of `@for`.
pub fn flow_heads_are_told()
    ensures heads { FlowHeadsAreTold }
    ensures bounds { BoundsAreTold }
    ensures alone { LoneHeadsAreTold }
{}

/// A law: behind a statement, a head or a block, `;`, `{` and `}` are what they are written as, and a statement may begin
/// behind them.
pub fn blocks_are_told()
    ensures ends { EndsAreTold }
    ensures opening { BlocksOpen }
    ensures closing { BlocksClose }
    ensures last { BlocksEnd }
{}

/// A law: in a sheet that isn't written in lines, the tokens of statements are what they are written as, with blocks of
/// further ones in them and loud comments between them; and what is read so is what the grammar sees.
pub fn statements_are_told()
    ensures told { StatementsAreTold }
    ensures seen { RunsAreSeen }
{}

/// A law: the grammar sees of a sheet that isn't written in lines what its statements are written as, token by token.
pub fn sheets_are_told()
    ensures { SheetsAreTold }
{}
