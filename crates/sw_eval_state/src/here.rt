// Where the running code was written.
ghost use Rattle.std.specs.Prelude.{◌≡◌, IfOk};
ghost use Rattle.sw_eval_state.specs.Callables.{here_of};

use sw_scope::Mark;
use sw_text::{Memory, Shared};
use sw_tree::Content;

/// In whose text code stands.
#[derive(Clone, Copy, Debug)]
pub enum Inside {
    Sheet,
    Function,
    Mixin,
}

/// Where the running code was written.
#[derive(Drop)]
pub struct Here {
    /// The number of its site, 0 for the body's own module.
    pub site: usize,
    pub inside: Inside,
    /// The content block that the running mixin was given.
    pub content: Option<Shared<Block>>,
}

/// A content block, and where it was written: the innermost frame there, and as for `Here`.
#[derive(Drop)]
pub struct Block {
    pub content: Shared<Content>,
    pub mark: Option<Mark>,
    pub site: usize,
    pub inside: Inside,
    pub outer: Option<Shared<Block>>,
}

fn share_block(block: &Option<Shared<Block>>) -> Result<Option<Shared<Block>>, Memory>
    ensures { IfOk result (λ shared. shared ≡ block.now) }
{
    match block {
        Some(block) => Ok(Some(block.share()?)),
        None => Ok(None),
    }
}

impl Here {
    /// One more owner of its parts, in constant time.
    pub fn share(&self) -> Result<Here, Memory>
        ensures { IfOk result (λ here. here ≡ self.now) }
    {
        Ok(Here {
            site: self.site,
            inside: self.inside,
            content: share_block(&self.content)?,
        })
    }
}

impl Block {
    /// Where its code was written.
    pub fn here(&self) -> Result<Here, Memory>
        ensures { IfOk result (λ here. here ≡ here_of self.now) }
    {
        Ok(Here {
            site: self.site,
            inside: self.inside,
            content: share_block(&self.outer)?,
        })
    }
}
