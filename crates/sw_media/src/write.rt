// How media queries are written.
ghost use Rattle.std.specs.Prelude.{◌≡◌, ◌++◌, [], IfOk, OnOk};
ghost use Rattle.std.specs.String.{string_bytes};
ghost use Rattle.sw_media.specs.Writing.{separated, joined, condition_text, modifier_text, behind_type, typed_text, query_text, queries_text};

use crate::{Condition, Modifier, Queries, Query};
use std::alloc::Global;
use sw_text::{Memory, Name};

impl Queries {
    /// The queries as CSS has them: ` and ` and ` or ` between features, `, ` between queries.
    pub fn write(&self, alloc: Global) -> Result<Name, Memory>
        ensures { IfOk result (λ text. text ≡ queries_text self.now) }
    {
        let text = queries_text(alloc, self.as_slice())?;
        Name::new(alloc, text.as_str())
    }
}

#[tactic(auto, unfolding(crate::specs::Writing::queries_text))]
fn queries_text(alloc: Global, list: &[Query]) -> Result<String, Memory>
    ensures { IfOk result (λ text. string_bytes text ≡ queries_text list.now) }
{
    let mut out = String::new(alloc);
    'list: for query in list {
        separate(&mut out, ", ")?;
        write_query(alloc, &mut out, query)?;
    }
    Ok(out)
}

fn separate(out: &mut String, separator: &str) -> Result<(), Memory>
    ensures { OnOk result (string_bytes out.new ≡ separated separator.now (string_bytes out.old)) }
{
    if !out.is_empty() {
        out.push_str(separator)?;
    }
    Ok(())
}

#[tactic(auto, unfolding(crate::specs::Writing::joined))]
fn joined(alloc: Global, separator: &str, texts: &[Name]) -> Result<String, Memory>
    ensures { IfOk result (λ text. string_bytes text ≡ joined separator.now texts.now) }
{
    let mut out = String::new(alloc);
    'texts: for text in texts {
        separate(&mut out, separator)?;
        out.push_str(text.as_str())?;
    }
    Ok(out)
}

fn denied_text(alloc: Global, feature: &str) -> Result<String, Memory>
    ensures { IfOk result (λ text. string_bytes text ≡ condition_text (Condition.Not feature.now)) }
{
    let mut out = String::new(alloc);
    out.push_str("not ")?;
    out.push_str(feature)?;
    Ok(out)
}

/// A condition as CSS has it.
pub fn condition_text(alloc: Global, condition: &Condition) -> Result<String, Memory>
    ensures { IfOk result (λ text. string_bytes text ≡ condition_text condition.now) }
{
    match condition {
        Condition::And(features) => joined(alloc, " and ", features.as_slice()),
        Condition::Or(features) => joined(alloc, " or ", features.as_slice()),
        Condition::Not(feature) => denied_text(alloc, feature.as_str()),
    }
}

fn modifier_text(modifier: Modifier) -> &'static str
    ensures { result.now ≡ modifier_text modifier }
{
    match modifier {
        Modifier::Unmodified => "",
        Modifier::Not => "not ",
        Modifier::Only => "only ",
    }
}

#[tactic(auto, unfolding(crate::specs::Writing::behind_type))]
fn write_behind_type(out: &mut String, text: &str) -> Result<(), Memory>
    ensures { OnOk result (string_bytes out.new ≡ string_bytes out.old ++ behind_type text.now) }
{
    if !text.is_empty() {
        out.push_str(" and ")?;
        out.push_str(text)?;
    }
    Ok(())
}

fn write_typed(
    out: &mut String,
    modifier: Modifier,
    medium: &Option<Name>,
    text: &str,
) -> Result<(), Memory>
    ensures { OnOk result (string_bytes out.new ≡ string_bytes out.old ++ typed_text modifier medium.now text.now) }
{
    match medium {
        None => {
            out.push_str(text)?;
            Ok(())
        }
        Some(name) => {
            out.push_str(modifier_text(modifier))?;
            out.push_str(name.as_str())?;
            write_behind_type(out, text)
        }
    }
}

#[tactic(auto, unfolding(crate::specs::Writing::query_text))]
fn write_query(alloc: Global, out: &mut String, query: &Query) -> Result<(), Memory>
    ensures { OnOk result (string_bytes out.new ≡ string_bytes out.old ++ query_text query.now) }
{
    let text = condition_text(alloc, &query.condition)?;
    write_typed(out, query.modifier, &query.medium, text.as_str())
}
