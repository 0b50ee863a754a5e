// What reading, nesting and writing are as a whole.
ghost use Rattle.std.specs.Prelude.{◌≤◌, List, Bool, ℕ};
ghost use Rattle.sw_selector.specs.declared.selector.Part.{Part};
ghost use Rattle.sw_selector.specs.Depth.{list_depth};
ghost use Rattle.sw_selector.specs.Laws.{IsOneList, ReadsLists, NestsInOrder, NestsEachPair, WritesOthers, ReadsBack};

use crate::Selectors;
use crate::reader::LEVELS;

/// A law: a text is one list of selectors at most, as the grammar of selectors has it row by row; `read` answers with
/// this list, and with a fault exactly where there is none or where it is too long.
pub fn reads_the_grammar()
    ensures one { (text : List ℕ) → IsOneList text }
    ensures read { (text : List ℕ) → ReadsLists text }
{}

/// A law: the nested selectors are, for each parent, each child, in this order.
pub fn nests_in_order()
    ensures order { (at_root : Bool) (parents child : List (List Part)) → NestsInOrder at_root parents child }
    ensures count { (at_root : Bool) (parents child : List (List Part)) → NestsEachPair at_root parents child }
{}

/// A law: in no selectors do more than 128 pseudos with selectors stand in each other.
pub fn never_too_deep(selectors: &Selectors)
    ensures { list_depth 0 selectors.now ≤ LEVELS }
{
    let _ = selectors.as_slice();
}

/// A law: `write` leaves out the complex selectors in which a placeholder stands, and no others.
pub fn writes_all_others()
    ensures { (list : List (List Part)) → WritesOthers list }
{}

/// A law: what `write` writes of selectors that were read from a text is read as these selectors without the complex
/// selectors in which a placeholder stands. Where none is left, the empty text is written.
pub fn written_reads_back()
    ensures { (text : List ℕ) (list : List (List Part)) → ReadsBack text list }
{}
