// What follows from the definitions.
ghost use Rattle.std.specs.Prelude.{◌≡◌};
ghost use Rattle.sw_convert_alike.specs.Expressions.{Like, LikeText};
ghost use Rattle.sw_convert_alike.specs.Statements.{Alike, LikeComment, LikeRaw};
ghost use Rattle.sw_convert_alike.specs.Told.{number_of, string_of, variable_of, words_of};
ghost use Rattle.sw_tree.specs.declared.expr.Expr.{Expr};
ghost use Rattle.sw_tree.specs.declared.sheet.Sheet.{Sheet};
ghost use Rattle.sw_tree.specs.declared.text.Text.{Text};

/// A law: each sheet is alike itself, and what is alike is alike the other way round.
pub fn alike_is_reflexive_and_symmetric()
    ensures reflexive { (sheet : Sheet) → Alike sheet sheet }
    ensures symmetric { (sheet other : Sheet) → Alike sheet other → Alike other sheet }
{}

/// A law: sheets that are alike have as many statements, of the same kinds in the same order.
pub fn alike_sheets_have_the_same_statements()
    ensures { (sheet other : Sheet) → Alike sheet other → words_of sheet ≡ words_of other }
{}

/// A law: of expressions that are alike both are one number, one variable, or strings of one text, or neither is.
pub fn alike_values_are_the_same()
    ensures numbers { (value other : Expr) → Like value other → number_of value ≡ number_of other }
    ensures variables { (value other : Expr) → Like value other → variable_of value ≡ variable_of other }
    ensures strings { (value other : Expr) → Like value other → string_of value ≡ string_of other }
{}

/// A law: texts that are alike as they stand are alike as raw text and as comments.
pub fn texts_are_alike_as_they_stand()
    ensures raw { (text other : Text) → LikeText text other → LikeRaw text other }
    ensures comment { (text other : Text) → LikeText text other → LikeComment text other }
{}
