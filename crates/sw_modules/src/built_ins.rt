// Built-in modules.
ghost use Rattle.std.specs.Prelude.{◌≡◌, nat_eq, length, IfOk, OnErr};
ghost use Rattle.std.specs.List.{starts_with};
ghost use Rattle.sw_modules.specs.BuiltIns.{is_sass, is_built_in};
ghost use Rattle.sw_modules.specs.Loads.{refused, first_explicit, built_in_unless, built_in_used, AnswersLoad};

use crate::Live;
use crate::interfaces::brought_of_built_in;
use crate::live::MOST_OPEN;
use crate::loads::{first_explicit, refused};
use crate::uses::Source;
use sw_builtins::member;
use sw_text::{FaultCode, Memory, Name, Span};
use sw_world::{Answer, Given, How};

/// Whether a URL or a path is that of a built-in module, if there is one.
pub(crate) fn is_sass(url: &str) -> bool
    ensures { result ≡ is_sass url.now }
{
    url.starts_with("sass:")
}

/// Whether there is a built-in module of this URL.
fn is_built_in(url: &str) -> bool
    ensures { result ≡ is_built_in url.now }
{
    match member(url, 0) {
        Some(_) => true,
        None => false,
    }
}

impl<'a> Live<'a> {
    /// The answer to the load of a built-in module. The refusals come in this order: there is no such module; 64 loads
    /// are open; a `with` gives values to it; its namespace stands for a module already, or a forward of it brings what
    /// another one brought from elsewhere. After `Memory` the state is as before.
    pub(crate) fn use_built_in(
        &mut self,
        url: &Name,
        span: &Span,
        how: &How,
        config: &[Given],
    ) -> Result<Answer, Memory>
        ensures ok { IfOk result (λ answer. built_in_used url.now span.now how.now config.now self.old
            ≡ (answer, self.new)) }
        ensures kind { IfOk result AnswersLoad }
        ensures same_depth { length self.new.opened ≡ length self.old.opened }
        ensures err { OnErr result (self.new ≡ self.old) }
    {
        if !is_built_in(url.as_str()) {
            return refused(FaultCode::NotFound, span);
        }
        if self.opened.len() >= MOST_OPEN {
            return refused(FaultCode::Depth, span);
        }
        match first_explicit(config) {
            Some(given) => refused(FaultCode::NotConfigurable, &given.span),
            None => {
                let brought = brought_of_built_in(self.alloc, how, url)?;
                let source = Source {
                    path: url.share()?,
                    near: 0,
                    brought,
                };
                self.used_at_once(how, source, span)
            }
        }
    }
}
