// What is opened: the rule and the at-rules of an inner frame.
ghost use Rattle.std.specs.Prelude.{◌≡◌, [], ◌∷◌, ◌++◌, IfOk};
ghost use Rattle.std.specs.Option.{option_copied};
ghost use Rattle.sw_css_tree.specs.Output.{is_outside, reopened, inner_rule, innermost_frame, without};

use crate::here::last;
use crate::names::is_bare;
use crate::{Frame, Rule, Wrapper};
use std::alloc::Global;
use sw_text::{List, Memory, Name, Shared};

/// Neither a rule nor an at-rule stands round what follows.
pub fn is_outside(frames: &[Frame]) -> bool
    ensures { result ≡ is_outside (innermost_frame frames.now) }
{
    match last(frames) {
        None => true,
        Some(frame) => frame.rule.is_none() && frame.wrappers.get().as_slice().is_empty(),
    }
}

/// The selector that is opened once more inside an at-rule.
pub fn reopened(name: &str, rule: Option<&Rule>) -> Result<Option<Name>, Memory>
    ensures { IfOk result (λ selector. selector ≡ reopened name.now (option_copied rule.entry)) }
{
    match rule {
        None => Ok(None),
        Some(rule) => {
            if is_bare(name) {
                return Ok(None);
            }
            Ok(Some(rule.selector.share()?))
        }
    }
}

/// The rule of an at-rule's frame.
pub fn inner_rule(selector: Option<Name>, latest: usize) -> Option<Rule>
    ensures { result ≡ inner_rule latest selector }
{
    match selector {
        None => None,
        Some(selector) => Some(Rule { selector, latest }),
    }
}

/// The at-rules but the one of a number, and then another.
pub fn inner_wrappers(
    alloc: Global,
    around: &[Wrapper],
    left: Option<usize>,
    inner: Wrapper,
) -> Result<Shared<List<Wrapper>>, Memory>
    ensures { IfOk result (λ wrappers. wrappers ≡ without left around.now ++ inner ∷ []) }
{
    let mut wrappers = List::new(alloc);
    for wrapper in around {
        if left != Some(wrapper.number) {
            wrappers.push(Wrapper {
                number: wrapper.number,
                name: wrapper.name.share()?,
                prelude: wrapper.prelude.share()?,
            })?;
        }
    }
    wrappers.push(inner)?;
    Shared::new(alloc, wrappers)
}
