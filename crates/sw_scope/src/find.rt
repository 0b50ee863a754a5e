// Looking for names, from the innermost frame down along what each stands on.
ghost use Rattle.std.specs.Prelude.{◌≡◌, ◌+◌, ◌<◌, ◌≤◌, length, drop, take, get_or, IfSome};
ghost use Rattle.sw_scope.specs.declared.mark.FrameMark.{FrameMark};
ghost use Rattle.sw_scope.specs.Frames.{place, is_flow};
ghost use Rattle.sw_scope.specs.Cut.{back, found, flows, IsCut, StandsLower};
ghost use Rattle.sw_scope.specs.Index.{IsIndexed, AreIndexed};

use crate::mark::{FrameKind, FrameMark};
use sw_text::Name;
use sw_values::Value;

// The last place of a name.
fn find(vars: &[(Name, Value)], name: &Name) -> Option<usize>
    ensures place { result ≡ place vars.now name.now }
    ensures within { IfSome result (λ i. i < length vars.now) }
{
    let mut left = vars.len();
    while left > 0 {
        left -= 1;
        if vars[left].0.same(name) {
            return Some(left);
        }
    }
    None
}

// The last place of a name in a part of the variables, counted from where the part starts.
fn find_in(vars: &[(Name, Value)], start: usize, end: usize, name: &Name) -> Option<usize>
    requires start { start ≤ end }
    requires end { end ≤ length vars.now }
    ensures place { result ≡ place (drop start (take end vars.now)) name.now }
    ensures within { IfSome result (λ i. start + i < end) }
{
    find(&vars[start..end], name)
}

// The last place of a name in a frame that ends here, counted from where it starts.
fn place_in(mark: &FrameMark, vars: &[(Name, Value)], end: usize, name: &Name) -> Option<usize>
    requires start { mark.now.start ≤ end }
    requires end { end ≤ length vars.now }
    requires indexed { IsIndexed mark.now.index (drop mark.now.start (take end vars.now)) }
    ensures place { result ≡ place (drop mark.now.start (take end vars.now)) name.now }
    ensures within { IfSome result (λ i. mark.now.start + i < end) }
{
    match &mark.index {
        Some(index) => index.get(name),
        None => find_in(vars, mark.start, end, name),
    }
}

// Where the variables of the frame behind the first ones start.
pub(crate) fn start_of(marks: &[FrameMark], number: usize) -> usize
    requires { number < length marks.now }
    ensures { (d : FrameMark) → result ≡ (get_or marks.now number d).start }
{
    marks[number].start
}

// The place of the variable that a name means. Frames that aren't seen are jumped over.
pub(crate) fn seen(marks: &[FrameMark], vars: &[(Name, Value)], name: &Name) -> Option<usize>
    requires cut { IsCut (back marks.now) (length vars.now) }
    requires indexed { AreIndexed (back marks.now) vars.now }
    ensures found { result ≡ found (length marks.now) (back marks.now) vars.now name.now }
    ensures within { IfSome result (λ i. i < length vars.now) }
{
    let mut number = marks.len();
    let mut end = vars.len();
    while number > 0 {
        let mark = &marks[number - 1];
        if let Some(at) = place_in(mark, vars, end, name) {
            return Some(mark.start + at);
        }
        number = mark.below;
        end = start_of(marks, number);
    }
    None
}

fn is_flow(kind: FrameKind) -> bool
    ensures { result ≡ is_flow kind }
{
    kind == FrameKind::Flow
}

// Whether all frames that are seen are of flow.
pub(crate) fn flows(marks: &[FrameMark]) -> bool
    requires { StandsLower (back marks.now) }
    ensures { result ≡ flows (length marks.now) (back marks.now) }
{
    let mut number = marks.len();
    while number > 0 {
        let mark = &marks[number - 1];
        if !is_flow(mark.kind) {
            return false;
        }
        number = mark.below;
    }
    true
}
