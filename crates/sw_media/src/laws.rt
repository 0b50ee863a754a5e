// What reading and joining are as a whole.
ghost use Rattle.std.specs.Prelude.{List, ℕ};
ghost use Rattle.sw_media.specs.declared.query.Query.{Query};
ghost use Rattle.sw_media.specs.Laws.{IsOneList, ReadsLists, JoinsInOrder, CountsQueries};

/// A law: a text is one list of media queries at most, as the grammar of queries has it row by row; `read` answers with this list,
/// and with a fault exactly where there is none or where it is too long.
pub fn reads_the_grammar()
    ensures one { (text : List ℕ) → IsOneList text }
    ensures read { (text : List ℕ) → ReadsLists text }
{}

/// A law: `join` gives one query for each outer query and, in it, for each inner one with which it isn't dropped, in this order; and
/// what it counts before is how many these are, as far as the limit can tell.
pub fn joins_in_order()
    ensures order { (outers inners : List Query) → JoinsInOrder outers inners }
    ensures count { (outers inners : List Query) → CountsQueries outers inners }
{}
