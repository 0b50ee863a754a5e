// Frames in one vector.
ghost use Rattle.std.specs.Prelude.{◌≡◌, ℕ, List, ◌-◌, ◌<◌, ◌≤◌, nat_le, if◌then◌else◌, [], ◌∷◌, ◌++◌, false, length, take, drop, OnOk, OnErr, None, MatchOption};
ghost use Rattle.std.specs.Option.{option_copied};
ghost use Rattle.sw_values.specs.declared.plain.Plain.{Plain};
ghost use Rattle.sw_scope.specs.declared.mark.FrameMark.{FrameMark};
ghost use Rattle.sw_scope.specs.Cut.{back, frames, IsCut};
ghost use Rattle.sw_scope.specs.Frames.{Variable, look_in, all_flow};
ghost use Rattle.sw_scope.specs.Index.{AreIndexed, head_index, head_with};
ghost use Rattle.sw_scope.specs.Stack.{seen, set_on, declare_on, put_on, popped};

use crate::find::{flows, seen, start_of};
use crate::index::{Index, MANY, grown};
use crate::mark::{FrameKind, FrameMark};
use std::alloc::Global;
use std::marker::Model;
use std::mem;
use sw_text::{List, Memory, Name};
use sw_values::Value;

/// The local variables of running code. Contracts see the frames, each with the number of the one on which it stands,
/// the innermost first.
pub(crate) struct Frames {
    vars: List<(Name, Value)>,
    marks: List<FrameMark>,
    alloc: Global,
}

impl Drop for Frames {
    fn drop(self) {
        let Frames {
            vars: _,
            marks: _,
            alloc: _,
        } = self;
    }
}

impl Model for Frames {
    ghost use Rattle.std.specs.Prelude.{List, length};
    ghost use Rattle.std.specs.Coded.{codes};
    ghost use Rattle.sw_values.specs.contracts.plain.Plain as p;
    ghost use Rattle.sw_scope.specs.Stack.{Standing};
    ghost use Rattle.sw_scope.specs.Cut.{frames, back, IsCut};
    ghost use Rattle.sw_scope.specs.Index.{AreIndexed};

    ghost Value = { List Standing };

    ghost coded = { Prim.hlevel (codes, p.the_row.coded) };

    ghost view = { λ s. frames s.marks s.vars };

    ghost invariant = { λ s. IsCut (back s.marks) (length s.vars) × AreIndexed (back s.marks) s.vars };
}

impl Frames {
    /// No frame. Takes no memory.
    pub fn new(alloc: Global) -> Frames
        ensures { result ≡ [] }
    {
        Frames {
            vars: List::new(alloc),
            marks: List::new(alloc),
            alloc,
        }
    }

    /// How many frames there are: the number of the innermost one.
    pub fn len(&self) -> usize
        ensures { result ≡ length self.now }
    {
        self.marks.len()
    }

    /// The value of a name in the innermost frame that is seen and has it; `None` where none has. Takes no memory.
    pub fn look(&self, name: &Name) -> Option<&Value>
        ensures { option_copied result ≡ look_in (seen self.now) name.now }
    {
        match seen(self.marks.as_slice(), self.vars.as_slice(), name) {
            Some(at) => Some(&self.vars.as_slice()[at].1),
            None => None,
        }
    }

    /// Whether all frames that are seen are of flow; so it is where there are none. Takes no memory.
    pub fn all_flow(&self) -> bool
        ensures { result ≡ all_flow (seen self.now) }
    {
        flows(self.marks.as_slice())
    }

    /// Gives the variable that is seen a value. Where none is seen the value comes back. Takes no memory.
    pub fn set(&mut self, name: Name, value: Value) -> Option<(Name, Value)>
        ensures set { self.new ≡ set_on self.old (name, value) }
        ensures seen { MatchOption result ((v : Plain) × (look_in (seen self.old) name ≡ Some v))
            (λ back. (look_in (seen self.old) name ≡ None) × (back ≡ (name, value)) × (self.new ≡ self.old)) }
    {
        match seen(self.marks.as_slice(), self.vars.as_slice(), &name) {
            Some(at) => {
                self.vars.set(at, (name, value));
                None
            }
            None => Some((name, value)),
        }
    }

    /// A new variable of the innermost frame. After `Memory`, which comes exactly where none was found,
    /// all is as before.
    pub fn declare(&mut self, name: Name, value: Value) -> Result<(), Memory>
        ensures ok { OnOk result (self.new ≡ declare_on self.old (name, value)) }
        ensures err { OnErr result (self.new ≡ self.old) }
    {
        self.vars.push((name, value))?;
        if is_noted(self.marks.as_slice(), self.vars.len()) {
            note(self.alloc, &mut self.marks, self.vars.as_slice());
        }
        Ok(())
    }

    /// A new frame, which stands on the one of this number, or on the innermost where that isn't there.
    /// After `Memory`, which comes exactly where none was found, all is as before.
    pub fn put(&mut self, number: usize, kind: FrameKind) -> Result<(), Memory>
        ensures ok { OnOk result (self.new ≡ put_on self.old number kind) }
        ensures err { OnErr result (self.new ≡ self.old) }
    {
        let below = lower(number, self.marks.len());
        let start = self.vars.len();
        self.marks.push(FrameMark {
            kind,
            below,
            start,
            index: None,
        })
    }

    /// Takes the innermost frame away with its variables, if one is there. Takes no memory.
    pub fn pop(&mut self)
        ensures { self.new ≡ popped self.old }
    {
        if let Some(start) = pop_start(&mut self.marks) {
            self.vars.truncate(start);
        }
    }
}

// Takes the last mark away, and tells where its variables start.
fn pop_start(marks: &mut List<FrameMark>) -> Option<usize>
    ensures { MatchOption result ((marks.old ≡ []) × (marks.new ≡ []))
        (λ start. (m : FrameMark) × (m.start ≡ start) × (marks.old ≡ marks.new ++ m ∷ [])) }
{
    match marks.pop() {
        Some(mark) => Some(mark.start),
        None => None,
    }
}

// Whether the innermost of frames up to here has an index, or so many variables that it gets one.
fn is_noted(marks: &[FrameMark], end: usize) -> bool
    ensures { result ≡ false → head_index (back marks.now) ≡ None }
{
    let count = marks.len();
    if count == 0 {
        return false;
    }
    let mark = &marks[count - 1];
    mark.index.is_some() || end.saturating_sub(mark.start) == MANY
}

fn swap_last(marks: &mut Vec<FrameMark>, index: Option<Index>) -> Option<Index>
    ensures new { back marks.new.items ≡ head_with index (back marks.old.items) }
    ensures old { result ≡ head_index (back marks.old.items) }
{
    let count = marks.len();
    if count == 0 {
        return None;
    }
    let last = count - 1;
    let mark = FrameMark {
        kind: marks[last].kind,
        below: marks[last].below,
        start: marks[last].start,
        index,
    };
    let FrameMark { index: before, .. } = mem::replace(&mut marks[last], mark);
    before
}

// Gives the innermost frame an index, and takes the one that it had.
fn swap_index(alloc: Global, marks: &mut List<FrameMark>, index: Option<Index>) -> Option<Index>
    ensures new { back marks.new ≡ head_with index (back marks.old) }
    ensures old { result ≡ head_index (back marks.old) }
{
    let mut all = mem::replace(marks, List::new(alloc)).into_vec();
    let before = swap_last(&mut all, index);
    *marks = List::from_vec(all);
    before
}

// The variables from a place on.
fn from(vars: &[(Name, Value)], start: usize) -> &[(Name, Value)]
    requires { start ≤ length vars.now }
    ensures { result.now ≡ drop start vars.now }
{
    &vars[start..]
}

// Keeps the index of the innermost frame, which has a new variable.
fn note(alloc: Global, marks: &mut List<FrameMark>, vars: &[(Name, Value)])
    requires some { 0 < length vars.now }
    requires cut { IsCut (back marks.old) (length vars.now - 1) }
    requires indexed { AreIndexed (back marks.old) (take (length vars.now - 1) vars.now) }
    ensures frames { (vs : List Variable) → frames marks.new vs ≡ frames marks.old vs }
    ensures cut { (n : ℕ) → IsCut (back marks.old) n → IsCut (back marks.new) n }
    ensures indexed { AreIndexed (back marks.new) vars.now }
{
    let count = marks.len();
    if count == 0 {
        return;
    }
    let start = start_of(marks.as_slice(), count - 1);
    let before = swap_index(alloc, marks, None);
    let after = grown(alloc, before, from(vars, start));
    let _ = swap_index(alloc, marks, after);
}

// The lower one.
fn lower(number: usize, count: usize) -> usize
    ensures lower { result ≡ (if nat_le number count then number else count) }
    ensures within { result ≤ count }
{
    if number <= count { number } else { count }
}
