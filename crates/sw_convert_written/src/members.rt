// Writing loads, callables and includes up to their end or their block.
ghost use Rattle.std.specs.Prelude.{◌≡◌, ◌++◌, ◌≤◌, length, drop, map, OnOk, codes, true};
ghost use Rattle.sw_convert_spelling.specs.Strings.{string_text};
ghost use Rattle.sw_convert_written.specs.Heads.{as_text, given_text, given_behind, use_text, prefix_text, member_text, filter_text, forward_text, default_text, param_text, comma_behind, rest_text, params_text, none_in, has_none, mixin_params, param_guard, function_params, callable_head, given_behind_name, include_text, using_behind, content_text};
ghost use Rattle.sw_convert_written.specs.Expressions.{with_commas};

use crate::bytes::put;
use crate::commas::put_comma;
use crate::escapes::put_apart;
use crate::expr::{put_arguments, put_call_opening, put_expr, put_namespace};
use crate::heads::{put_flag, put_word};
use crate::kinds::is_url;
use crate::names::{put_dollar_name, put_name, put_text};
use crate::strings::put_escaped;
use sw_text::{Memory, Name};
use sw_tree::{
    Argument, Callable, ContentCall, Expr, Filter, Forward, Given, Kind, Member, Mixin, Namespace,
    Param, Params, Use,
};

fn put_string(out: &mut Vec<u8>, text: &Name) -> Result<(), Memory>
    ensures { OnOk result (out.new.items ≡ out.old.items ++ string_text text.now) }
{
    out.push(b'"')?;
    put_escaped(out, text.as_str().as_bytes())?;
    out.push(b'"')?;
    Ok(())
}

fn put_as(out: &mut Vec<u8>, namespace: &Namespace) -> Result<(), Memory>
    ensures { OnOk result (out.new.items ≡ out.old.items ++ as_text namespace.now) }
{
    match namespace {
        Namespace::Default(_) => Ok(()),
        Namespace::Written(name) => {
            out.extend_from_slice(b" as ")?;
            put_text(out, name)
        }
        Namespace::Without => {
            out.extend_from_slice(b" as *")?;
            Ok(())
        }
    }
}

#[tactic(auto, using(crate::proofs::Joins::appends))]
fn put_given(out: &mut Vec<u8>, given: &Given) -> Result<(), Memory>
    ensures { OnOk result (out.new.items ≡ out.old.items ++ given_text given.now) }
{
    let from = out.len();
    put_dollar_name(out, &given.name)?;
    out.extend_from_slice(b": ")?;
    put_expr(out, &given.value)?;
    put_flag(out, from, given.default, b"!default")
}

fn put_givens(out: &mut Vec<u8>, givens: &[Given]) -> Result<(), Memory>
    ensures { OnOk result (out.new.items ≡ out.old.items ++ with_commas true (map given_text givens.now)) }
{
    let mut first = true;
    'givens: for given in givens {
        put_comma(out, first)?;
        put_given(out, given)?;
        first = false;
    }
    Ok(())
}

// The configuration of a load, which was written from a place on.
fn put_configuration(out: &mut Vec<u8>, from: usize, givens: &[Given]) -> Result<(), Memory>
    requires { from ≤ length out.old.items }
    ensures { OnOk result (out.new.items ≡ out.old.items ++ given_behind givens.now (drop from out.old.items)) }
{
    match givens {
        [] => Ok(()),
        [_, ..] => {
            put_word(out, from, b"with (")?;
            put_givens(out, givens)?;
            out.push(b')')?;
            Ok(())
        }
    }
}

/// Puts a `@use`.
#[tactic(auto, using(crate::proofs::Joins::appends))]
pub fn put_use(out: &mut Vec<u8>, load: &Use, end: &[u8]) -> Result<(), Memory>
    ensures { OnOk result (out.new.items ≡ out.old.items ++ (use_text load.now ++ end.now)) }
{
    let from = out.len();
    out.extend_from_slice(b"@use ")?;
    put_string(out, &load.url.text)?;
    put_as(out, &load.namespace)?;
    put_configuration(out, from, load.configuration.as_slice())?;
    put(out, end)
}

fn put_prefix(out: &mut Vec<u8>, prefix: &Option<Name>) -> Result<(), Memory>
    ensures { OnOk result (out.new.items ≡ out.old.items ++ prefix_text prefix.now) }
{
    match prefix {
        None => Ok(()),
        Some(prefix) => {
            out.extend_from_slice(b" as ")?;
            put_text(out, prefix)?;
            out.push(b'*')?;
            Ok(())
        }
    }
}

fn put_member(out: &mut Vec<u8>, member: &Member) -> Result<(), Memory>
    ensures { OnOk result (out.new.items ≡ out.old.items ++ member_text member.now) }
{
    if member.variable {
        return put_dollar_name(out, &member.name);
    }
    put_name(out, &member.name)
}

fn put_members(out: &mut Vec<u8>, members: &[Member]) -> Result<(), Memory>
    ensures { OnOk result (out.new.items ≡ out.old.items ++ with_commas true (map member_text members.now)) }
{
    let mut first = true;
    'members: for member in members {
        put_comma(out, first)?;
        put_member(out, member)?;
        first = false;
    }
    Ok(())
}

fn put_filter(out: &mut Vec<u8>, filter: &Filter) -> Result<(), Memory>
    ensures { OnOk result (out.new.items ≡ out.old.items ++ filter_text filter.now) }
{
    match filter {
        Filter::All => Ok(()),
        Filter::Show(members) => {
            out.extend_from_slice(b" show ")?;
            put_members(out, members.as_slice())
        }
        Filter::Hide(members) => {
            out.extend_from_slice(b" hide ")?;
            put_members(out, members.as_slice())
        }
    }
}

/// Puts a `@forward`.
#[tactic(auto, using(crate::proofs::Joins::appends))]
pub fn put_forward(out: &mut Vec<u8>, load: &Forward, end: &[u8]) -> Result<(), Memory>
    ensures { OnOk result (out.new.items ≡ out.old.items ++ (forward_text load.now ++ end.now)) }
{
    let from = out.len();
    out.extend_from_slice(b"@forward ")?;
    put_string(out, &load.url.text)?;
    put_prefix(out, &load.prefix)?;
    put_filter(out, &load.filter)?;
    put_configuration(out, from, load.configuration.as_slice())?;
    put(out, end)
}

fn put_default(out: &mut Vec<u8>, value: &Option<Expr>) -> Result<(), Memory>
    ensures { OnOk result (out.new.items ≡ out.old.items ++ default_text value.now) }
{
    match value {
        None => Ok(()),
        Some(value) => {
            out.extend_from_slice(b": ")?;
            put_expr(out, value)
        }
    }
}

fn put_param(out: &mut Vec<u8>, param: &Param) -> Result<(), Memory>
    ensures { OnOk result (out.new.items ≡ out.old.items ++ param_text param.now) }
{
    put_dollar_name(out, &param.name)?;
    put_default(out, &param.default)
}

fn put_items(out: &mut Vec<u8>, items: &[Param]) -> Result<(), Memory>
    ensures { OnOk result (out.new.items ≡ out.old.items ++ with_commas true (map param_text items.now)) }
{
    let mut first = true;
    'params: for param in items {
        put_comma(out, first)?;
        put_param(out, param)?;
        first = false;
    }
    Ok(())
}

fn put_comma_behind(out: &mut Vec<u8>, items: &[Param]) -> Result<(), Memory>
    ensures { OnOk result (out.new.items ≡ out.old.items ++ comma_behind items.now) }
{
    match items {
        [] => Ok(()),
        [_, ..] => {
            out.extend_from_slice(b", ")?;
            Ok(())
        }
    }
}

fn put_rest(out: &mut Vec<u8>, items: &[Param], rest: &Option<Name>) -> Result<(), Memory>
    ensures { OnOk result (out.new.items ≡ out.old.items ++ rest_text items.now rest.now) }
{
    match rest {
        None => Ok(()),
        Some(name) => {
            put_comma_behind(out, items)?;
            put_dollar_name(out, name)?;
            out.extend_from_slice(b"...")?;
            Ok(())
        }
    }
}

fn put_params(out: &mut Vec<u8>, params: &Params) -> Result<(), Memory>
    ensures { OnOk result (out.new.items ≡ out.old.items ++ params_text params.now) }
{
    out.push(b'(')?;
    put_items(out, params.items.as_slice())?;
    put_rest(out, params.items.as_slice(), &params.rest)?;
    out.push(b')')?;
    Ok(())
}

fn none_in(items: &[Param], rest: &Option<Name>) -> bool
    ensures { result ≡ none_in items.now rest.now }
{
    match items {
        [] => match rest {
            None => true,
            Some(_) => false,
        },
        [_, ..] => false,
    }
}

fn has_none(params: &Params) -> bool
    ensures { result ≡ has_none params.now }
{
    none_in(params.items.as_slice(), &params.rest)
}

fn put_mixin_params(out: &mut Vec<u8>, params: &Params) -> Result<(), Memory>
    ensures { OnOk result (out.new.items ≡ out.old.items ++ mixin_params params.now) }
{
    if has_none(params) {
        return Ok(());
    }
    put_params(out, params)
}

// A comment, so that no parameters behind a name are no url.
fn put_param_guard(out: &mut Vec<u8>, name: &Name, params: &Params) -> Result<(), Memory>
    ensures { OnOk result (out.new.items ≡ out.old.items ++ param_guard name.now params.now) }
{
    if is_url(name.as_str().as_bytes()) && has_none(params) {
        return put_apart(out);
    }
    Ok(())
}

fn put_function_params(out: &mut Vec<u8>, name: &Name, params: &Params) -> Result<(), Memory>
    ensures { OnOk result (out.new.items ≡ out.old.items ++ function_params name.now params.now) }
{
    put_param_guard(out, name, params)?;
    put_params(out, params)
}

/// Puts what stands before the block of a mixin or a function.
pub fn put_callable_head(out: &mut Vec<u8>, callable: &Callable) -> Result<(), Memory>
    ensures { OnOk result (out.new.items
        ≡ out.old.items ++ callable_head callable.now.kind callable.now.name callable.now.params) }
{
    match callable.kind {
        Kind::Mixin => {
            out.extend_from_slice(b"@mixin ")?;
            put_name(out, &callable.name)?;
            put_mixin_params(out, &callable.params)
        }
        Kind::Function | Kind::Variable => {
            out.extend_from_slice(b"@function ")?;
            put_name(out, &callable.name)?;
            put_function_params(out, &callable.name, &callable.params)
        }
    }
}

// Arguments in parentheses, behind what begins a url with a `(` or not.
fn put_given_behind(out: &mut Vec<u8>, url: bool, arguments: &[Argument]) -> Result<(), Memory>
    ensures { OnOk result (out.new.items ≡ out.old.items ++ given_behind_name url arguments.now) }
{
    match arguments {
        [] => Ok(()),
        [_, ..] => {
            put_call_opening(out, url, arguments)?;
            put_arguments(out, arguments)?;
            put(out, b")")
        }
    }
}

/// Puts an `@include` without its content block.
pub fn put_include(out: &mut Vec<u8>, mixin: &Mixin) -> Result<(), Memory>
    ensures { OnOk result (out.new.items ≡ out.old.items ++ include_text mixin.now) }
{
    out.extend_from_slice(b"@include ")?;
    put_namespace(out, &mixin.namespace)?;
    put_name(out, &mixin.name)?;
    put_given_behind(
        out,
        is_url(mixin.name.as_str().as_bytes()),
        mixin.arguments.as_slice(),
    )
}

/// Puts the parameters of a content block behind an include, which was written from a place on.
pub fn put_using(out: &mut Vec<u8>, from: usize, params: &Params) -> Result<(), Memory>
    requires { from ≤ length out.old.items }
    ensures { OnOk result (out.new.items ≡ out.old.items ++ using_behind params.now (drop from out.old.items)) }
{
    if has_none(params) {
        return Ok(());
    }
    put_word(out, from, b"using ")?;
    put_params(out, params)
}

/// Puts a `@content`.
pub fn put_content(out: &mut Vec<u8>, call: &ContentCall, end: &[u8]) -> Result<(), Memory>
    ensures { OnOk result (out.new.items ≡ out.old.items ++ (content_text call.now ++ end.now)) }
{
    out.extend_from_slice(b"@content")?;
    put_given_behind(out, false, call.arguments.as_slice())?;
    put(out, end)
}
