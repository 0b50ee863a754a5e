// Whether a mixin has `@content`.
ghost use Rattle.std.specs.Prelude.{◌≡◌};
ghost use Rattle.sw_eval_calls.specs.Contents.{has_content, block_has, branches_have, content_has};

use sw_text::Shared;
use sw_tree::{Branch, Content, Statement};

// Whether a statement is `@content`, or one in its blocks is.
#[cycle(contents)]
#[tactic(auto, using(crate::proofs::Unrolled::of_if, crate::proofs::Unrolled::of_at_rule, crate::proofs::Unrolled::of_variable, crate::proofs::Unrolled::of_assignment, crate::proofs::Unrolled::of_declaration, crate::proofs::Unrolled::of_custom, crate::proofs::Unrolled::of_use, crate::proofs::Unrolled::of_forward, crate::proofs::Unrolled::of_callable, crate::proofs::Unrolled::of_return, crate::proofs::Unrolled::of_say, crate::proofs::Unrolled::of_charset, crate::proofs::Unrolled::of_import, crate::proofs::Unrolled::of_extend, crate::proofs::Unrolled::of_comment))]
fn has_content(statement: &Statement) -> bool
    ensures { result ≡ has_content statement.now }
{
    match statement {
        Statement::Content(_) => true,
        Statement::Properties(properties) => block_has(properties.block.as_slice()),
        Statement::Rule(rule) => block_has(rule.block.as_slice()),
        Statement::Include { content, .. } => content_has(content),
        Statement::If {
            branches,
            otherwise,
            ..
        } => {
            if branches_have(branches.as_slice()) {
                return true;
            }
            match otherwise {
                Some(block) => block_has(block.as_slice()),
                None => false,
            }
        }
        Statement::Each(each) => block_has(each.block.as_slice()),
        Statement::For(count) => block_has(count.block.as_slice()),
        Statement::While(repeat) => block_has(repeat.block.as_slice()),
        Statement::Media(media) => block_has(media.block.as_slice()),
        Statement::Supports(supports) => block_has(supports.block.as_slice()),
        Statement::AtRoot(root) => block_has(root.block.as_slice()),
        Statement::AtRule(rule) => match &rule.block {
            Some(block) => block_has(block.as_slice()),
            None => false,
        },
        Statement::Variable(_)
        | Statement::Assignment(_)
        | Statement::Declaration(_)
        | Statement::Custom(_)
        | Statement::Use(_)
        | Statement::Forward(_)
        | Statement::Callable(_)
        | Statement::Return(_)
        | Statement::Say(_)
        | Statement::Charset(_)
        | Statement::Import(_)
        | Statement::Extend(_)
        | Statement::Comment(_) => false,
    }
}

/// Whether `@content` stands among these statements or in their blocks.
#[cycle(contents)]
pub fn block_has(block: &[Statement]) -> bool
    ensures { result ≡ block_has block.now }
{
    'statements: for statement in block {
        if has_content(statement) {
            return true;
        }
    }
    false
}

#[cycle(contents)]
fn branches_have(branches: &[Branch]) -> bool
    ensures { result ≡ branches_have branches.now }
{
    'branches: for branch in branches {
        if block_has(branch.block.as_slice()) {
            return true;
        }
    }
    false
}

#[cycle(contents)]
fn content_has(content: &Option<Shared<Content>>) -> bool
    ensures { result ≡ content_has content.now }
{
    match content {
        Some(content) => block_has(content.get().block.as_slice()),
        None => false,
    }
}
