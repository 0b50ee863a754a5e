// The blocks of an output, which know the last of them that is written.
ghost use Rattle.std.specs.Prelude.{◌≡◌, ◌<◌, ◌≤◌, [], ◌∷◌, ◌++◌, length, OnOk, OnErr, suc};
ghost use Rattle.sw_css_tree.specs.Output.{is_written, written_end, line_added, one_or_none};

use crate::{Block, Line};
use std::alloc::Global;
use std::marker::Model;
use sw_text::Memory;

/// Blocks in the order of opening.
#[derive(Debug)]
pub struct Blocks {
    items: Vec<Block>,
    // the place past the last block that is written
    written: usize,
}

impl Drop for Blocks {
    fn drop(self) {
        let Blocks {
            items: _,
            written: _,
        } = self;
    }
}

impl Model for Blocks {
    ghost use Rattle.std.specs.Prelude.{◌≡◌, List};
    ghost use Rattle.sw_css_tree.specs.declared.block.Block.{Block};
    ghost use Rattle.sw_css_tree.specs.Output.{written_end};

    ghost Value = { List Block };

    ghost view = { λ blocks. blocks.items.items };

    ghost invariant = { λ blocks. blocks.written ≡ written_end blocks.items.items };
}

impl Blocks {
    /// No block. Takes no memory.
    pub fn new(alloc: Global) -> Blocks
        ensures { result ≡ [] }
    {
        Blocks {
            items: Vec::new(alloc),
            written: 0,
        }
    }

    /// The blocks in the order of opening, also those of which nothing is written.
    pub fn as_slice(&self) -> &[Block]
        ensures { result.now ≡ self.now }
    {
        self.items.as_slice()
    }

    /// How many blocks there are, also those of which nothing is written.
    pub fn len(&self) -> usize
        ensures { result ≡ length self.now }
    {
        self.items.len()
    }

    /// The place past the last block that is written.
    pub fn written_end(&self) -> usize
        ensures { result ≡ written_end self.now }
    {
        self.written
    }

    /// Puts a block behind the others. After an error they are as before.
    pub fn push(&mut self, block: Block) -> Result<(), Memory>
        ensures ok { OnOk result (self.new ≡ self.old ++ block ∷ []) }
        ensures err { OnErr result (self.new ≡ self.old) }
    {
        let written = block.is_written();
        self.items.push(block)?;
        if written {
            self.written = self.items.len();
        }
        Ok(())
    }

    /// Puts up to two blocks behind the others. After an error they are as before.
    pub fn push_some(&mut self, own: Option<Block>, inner: Option<Block>) -> Result<(), Memory>
        ensures ok { OnOk result (self.new ≡ self.old ++ (one_or_none own ++ one_or_none inner)) }
        ensures err { OnErr result (self.new ≡ self.old) }
    {
        match own {
            None => self.push_one(inner),
            Some(own) => match inner {
                None => self.push(own),
                Some(inner) => self.push_two(own, inner),
            },
        }
    }

    fn push_one(&mut self, block: Option<Block>) -> Result<(), Memory>
        ensures ok { OnOk result (self.new ≡ self.old ++ one_or_none block) }
        ensures err { OnErr result (self.new ≡ self.old) }
    {
        match block {
            None => Ok(()),
            Some(block) => self.push(block),
        }
    }

    fn push_two(&mut self, own: Block, inner: Block) -> Result<(), Memory>
        ensures ok { OnOk result (self.new ≡ self.old ++ (own ∷ inner ∷ [])) }
        ensures err { OnErr result (self.new ≡ self.old) }
    {
        let count = self.items.len();
        let written = self.written;
        self.push(own)?;
        match self.push(inner) {
            Ok(()) => Ok(()),
            Err(fault) => {
                self.items.truncate(count);
                self.written = written;
                Err(fault)
            }
        }
    }

    /// Puts a line behind the lines of a block after which none is written. After an error all is as before.
    pub fn add_line(&mut self, at: usize, line: Line) -> Result<(), Memory>
        requires within { at < length self.old }
        requires last { written_end self.old ≤ suc at }
        ensures ok { OnOk result (self.new ≡ line_added self.old at line) }
        ensures err { OnErr result (self.new ≡ self.old) }
    {
        push_line(&mut self.items, at, line)?;
        if self.items[at].is_written() {
            self.written = at + 1;
        }
        Ok(())
    }
}

// Puts a line behind the lines of a block.
fn push_line(blocks: &mut Vec<Block>, at: usize, line: Line) -> Result<(), Memory>
    requires { at < length blocks.old.items }
    ensures ok { OnOk result (blocks.new.items ≡ line_added blocks.old.items at line) }
    ensures err { OnErr result (blocks.new.items ≡ blocks.old.items) }
{
    blocks[at].lines.push(line)?;
    Ok(())
}
