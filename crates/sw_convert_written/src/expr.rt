// Writing expressions. All of it is one circle of calls over the tree.
ghost use Rattle.std.specs.Prelude.{◌≡◌, ◌++◌, ◌≤◌, length, drop, map, IfOk, OnOk, codes, true};
ghost use Rattle.sw_convert_written.specs.Expressions.{with_commas, infix_text, links_text, gap, trailing, items_text, space_text, label, dots, guard, call_opening, arguments_text, expr_text, link_shown, of_callee, of_argument, qualified_text, argument_text, pair_text, parts_written, piece_written};
ghost use Rattle.sw_convert_written.specs.Pieces.{piece_text, pieces_text};

use crate::Manner;
use crate::bytes::put;
use crate::commas::put_comma;
use crate::escapes::{put_apart, put_space};
use crate::kinds::{ends_in_url, is_opaque, is_quotient, sort_of};
use crate::names::{put_dollar_name, put_name, put_number, put_text};
use crate::pieces::{is_parted, put_said};
use crate::signs::{put_closing, put_constant, put_opening, put_operator, put_signs};
use sw_text::{Memory, Name};
use sw_tree::{
    Argument, Callee, Expr, ExprKind, Link, Namespaced, Operator, Pair, Parts, Piece, Qualified,
    Separator,
};

/// Puts a namespace with its `.`, where there is one.
pub fn put_namespace(out: &mut Vec<u8>, namespace: &Option<Namespaced>) -> Result<(), Memory>
    ensures { OnOk result (out.new.items ≡ out.old.items ++ space_text namespace.now) }
{
    match namespace {
        None => Ok(()),
        Some(namespace) => {
            put_text(out, &namespace.name)?;
            out.push(b'.')?;
            Ok(())
        }
    }
}

fn put_label(out: &mut Vec<u8>, name: &Option<Name>) -> Result<(), Memory>
    ensures { OnOk result (out.new.items ≡ out.old.items ++ label name.now) }
{
    match name {
        None => Ok(()),
        Some(name) => {
            put_dollar_name(out, name)?;
            put(out, b": ")
        }
    }
}

fn put_dots(out: &mut Vec<u8>, spread: bool) -> Result<(), Memory>
    ensures { OnOk result (out.new.items ≡ out.old.items ++ dots spread) }
{
    if spread {
        out.extend_from_slice(b"...")?;
    }
    Ok(())
}

/// Puts a variable of another module.
pub fn put_qualified(out: &mut Vec<u8>, qualified: &Qualified) -> Result<(), Memory>
    ensures { OnOk result (out.new.items
        ≡ out.old.items ++ qualified_text qualified.now) }
{
    put_text(out, &qualified.namespace.name)?;
    out.extend_from_slice(b".$")?;
    put_name(out, &qualified.name)
}

// A comment, so that these arguments of a `url(` are no raw text.
fn put_guard(out: &mut Vec<u8>, arguments: &[Argument]) -> Result<(), Memory>
    ensures { OnOk result (out.new.items ≡ out.old.items ++ guard (map of_argument arguments.now)) }
{
    match arguments {
        [] => out.extend_from_slice(b"/**/ /**/")?,
        [first, ..] => {
            if !(first.name.is_some() || is_opaque(sort_of(&first.value))) {
                out.extend_from_slice(b"/**/ ")?;
            }
        }
    }
    Ok(())
}

/// Puts the `(` of a call, whose name may begin a url with it.
pub fn put_call_opening(out: &mut Vec<u8>, url: bool, arguments: &[Argument]) -> Result<(), Memory>
    ensures { OnOk result (out.new.items ≡ out.old.items ++ call_opening url (map of_argument arguments.now)) }
{
    put(out, b"(")?;
    if url {
        return put_guard(out, arguments);
    }
    Ok(())
}

// An operator behind an operand, which was written from a place on.
fn put_infix(
    out: &mut Vec<u8>,
    quotient: bool,
    from: usize,
    operator: Operator,
) -> Result<(), Memory>
    requires { from ≤ length out.old.items }
    ensures { OnOk result (out.new.items
        ≡ out.old.items ++ infix_text quotient operator (drop from out.old.items)) }
{
    if quotient {
        return put(out, b"/");
    }
    put_space(out, from)?;
    put_operator(out, operator)
}

// What stands before an item, behind the one before it, which was written from a place on.
fn put_gap(out: &mut Vec<u8>, separator: Separator, first: bool, from: usize) -> Result<(), Memory>
    requires { from ≤ length out.old.items }
    ensures { OnOk result (out.new.items ≡ out.old.items ++ gap separator first (drop from out.old.items)) }
{
    if first {
        return Ok(());
    }
    match separator {
        Separator::Comma => put(out, b", "),
        Separator::Undecided | Separator::Space => put_space(out, from),
    }
}

// One item keeps the comma behind it.
fn put_trailing(out: &mut Vec<u8>, separator: Separator, items: &[Expr]) -> Result<(), Memory>
    ensures { OnOk result (out.new.items ≡ out.old.items ++ trailing separator (map expr_text items.now)) }
{
    match separator {
        Separator::Undecided | Separator::Space => Ok(()),
        Separator::Comma => match items {
            [] => Ok(()),
            [_] => {
                out.push(b',')?;
                Ok(())
            }
            [_, _, ..] => Ok(()),
        },
    }
}

/// Puts an expression.
#[cycle(write)]
#[tactic(auto, using(crate::proofs::Joins::appends, crate::proofs::Unrolled::number_is, crate::proofs::Unrolled::word_is, crate::proofs::Unrolled::hash_is, crate::proofs::Unrolled::constant_is, crate::proofs::Unrolled::url_is, crate::proofs::Unrolled::special_is, crate::proofs::Unrolled::variable_is, crate::proofs::Unrolled::qualified_is, crate::proofs::Unrolled::call_is, crate::proofs::Unrolled::parent_is, crate::proofs::Unrolled::important_is))]
pub fn put_expr(out: &mut Vec<u8>, value: &Expr) -> Result<(), Memory>
    ensures { OnOk result (out.new.items ≡ out.old.items ++ expr_text value.now) }
{
    match &value.kind {
        ExprKind::Number(number) => put_number(out, number),
        ExprKind::Quoted(parts) => {
            put(out, b"\"")?;
            put_parts(out, parts, Manner::Quoted)?;
            put(out, b"\"")
        }
        ExprKind::Word(parts) => put_parts(out, parts, Manner::Joined),
        ExprKind::Hash(name) => put_text(out, name),
        ExprKind::Constant(constant) => put_constant(out, *constant),
        ExprKind::Url(parts) => put_parts(out, parts, Manner::Joined),
        ExprKind::Special(parts) => put_parts(out, parts, Manner::Seamed),
        ExprKind::Variable(name) => put_dollar_name(out, name),
        ExprKind::Qualified(qualified) => put_qualified(out, qualified.get()),
        ExprKind::Call { callee, arguments } => {
            let url = put_callee(out, callee.get())?;
            put_given(out, url, arguments.as_slice())
        }
        ExprKind::Parent => put(out, b"&"),
        ExprKind::Important => put(out, b"!important"),
        ExprKind::Prefixed { signs, operand } => {
            put_signs(out, signs.as_slice())?;
            put_expr(out, operand.get())
        }
        ExprKind::Chain { first, rest } => {
            let from = out.len();
            put_expr(out, first.get())?;
            let quotient = is_quotient(first.get(), rest.as_slice());
            put_links(out, quotient, from, rest.as_slice())
        }
        ExprKind::List {
            items,
            separator,
            around,
        } => {
            put_opening(out, *around)?;
            put_items(out, items.as_slice(), *separator)?;
            put_closing(out, *around)
        }
        ExprKind::Paren(value) => {
            put(out, b"(")?;
            put_expr(out, value.get())?;
            put(out, b")")
        }
        ExprKind::Map(pairs) => {
            put(out, b"(")?;
            put_pairs(out, pairs.as_slice())?;
            put(out, b")")
        }
    }
}

/// Puts a text in which values stand.
#[cycle(write)]
#[tactic(auto, using(crate::proofs::Unrolled::plain_is, crate::proofs::Unrolled::mixed_is))]
pub fn put_parts(out: &mut Vec<u8>, parts: &Parts, manner: Manner) -> Result<(), Memory>
    ensures { OnOk result (out.new.items ≡ out.old.items ++ pieces_text manner (parts_written parts.now)) }
{
    match parts {
        Parts::Plain(text) => put_said(out, manner, text),
        Parts::Mixed(pieces) => put_pieces(out, pieces.as_slice(), manner),
    }
}

/// Puts pieces behind one another.
#[cycle(write)]
#[tactic(auto, using(crate::proofs::Joins::appends, crate::proofs::Joins::pieces_last, crate::proofs::Joins::pieces_more))]
pub fn put_pieces(out: &mut Vec<u8>, pieces: &[Piece], manner: Manner) -> Result<(), Memory>
    ensures { OnOk result (out.new.items ≡ out.old.items ++ pieces_text manner (map piece_written pieces.now)) }
{
    'pieces: for i in 0..pieces.len() {
        let from = out.len();
        put_piece(out, &pieces[i], manner)?;
        if i + 1 < pieces.len() && is_parted(manner, &pieces[i], &pieces[i + 1], &out[from..]) {
            put_apart(out)?;
        }
    }
    Ok(())
}

/// Puts a piece.
#[cycle(write)]
#[tactic(auto, using(crate::proofs::Joins::appends, crate::proofs::Unrolled::said_is, crate::proofs::Unrolled::value_is))]
pub fn put_piece(out: &mut Vec<u8>, piece: &Piece, manner: Manner) -> Result<(), Memory>
    ensures { OnOk result (out.new.items ≡ out.old.items ++ piece_text manner (piece_written piece.now)) }
{
    match piece {
        Piece::Text(text) => put_said(out, manner, text),
        Piece::Inserted(value) => {
            put(out, b"#{")?;
            put_expr(out, value)?;
            put(out, b"}")
        }
        Piece::Value(value) => put_expr(out, value),
    }
}

// Puts the name of a function with its namespace; whether a url may begin so.
#[cycle(write)]
#[tactic(auto, using(crate::proofs::Joins::appends))]
fn put_callee(out: &mut Vec<u8>, callee: &Callee) -> Result<bool, Memory>
    ensures text { OnOk result (out.new.items ≡ out.old.items ++ (of_callee callee.now).text) }
    ensures url { IfOk result (λ url. url ≡ (of_callee callee.now).url) }
{
    put_namespace(out, &callee.namespace)?;
    let from = out.len();
    put_parts(out, &callee.name.parts, Manner::Joined)?;
    Ok(ends_in_url(&out[from..]))
}

#[cycle(write)]
#[tactic(auto, using(crate::proofs::Joins::appends, crate::proofs::Unrolled::arguments_are))]
fn put_given(out: &mut Vec<u8>, url: bool, arguments: &[Argument]) -> Result<(), Memory>
    ensures { OnOk result (out.new.items ≡ out.old.items
        ++ (call_opening url (map of_argument arguments.now) ++ (arguments_text (map of_argument arguments.now) ++ codes ")"))) }
{
    put_call_opening(out, url, arguments)?;
    put_arguments(out, arguments)?;
    put(out, b")")
}

/// Puts arguments with commas between them.
#[cycle(write)]
#[tactic(auto, using(crate::proofs::Joins::appends))]
pub fn put_arguments(out: &mut Vec<u8>, arguments: &[Argument]) -> Result<(), Memory>
    ensures { OnOk result (out.new.items ≡ out.old.items ++ with_commas true (map argument_text arguments.now)) }
{
    let mut first = true;
    'arguments: for argument in arguments {
        put_comma(out, first)?;
        put_label(out, &argument.name)?;
        put_expr(out, &argument.value)?;
        put_dots(out, argument.spread)?;
        first = false;
    }
    Ok(())
}

// Operators with their operands, behind an operand that was written from a place on.
#[cycle(write)]
#[tactic(auto, using(crate::proofs::Joins::appends))]
fn put_links(out: &mut Vec<u8>, quotient: bool, from: usize, rest: &[Link]) -> Result<(), Memory>
    requires { from ≤ length out.old.items }
    ensures { OnOk result (out.new.items
        ≡ out.old.items ++ links_text quotient (drop from out.old.items) (map link_shown rest.now)) }
{
    let mut start = from;
    'links: for link in rest {
        put_infix(out, quotient, start, link.operator)?;
        start = out.len();
        put_expr(out, &link.operand)?;
    }
    Ok(())
}

#[cycle(write)]
#[tactic(auto, using(crate::proofs::Joins::appends))]
fn put_items(out: &mut Vec<u8>, items: &[Expr], separator: Separator) -> Result<(), Memory>
    ensures { OnOk result (out.new.items ≡ out.old.items ++ items_text separator (map expr_text items.now)) }
{
    let mut first = true;
    let mut start = out.len();
    'items: for item in items {
        put_gap(out, separator, first, start)?;
        start = out.len();
        put_expr(out, item)?;
        first = false;
    }
    put_trailing(out, separator, items)
}

#[cycle(write)]
#[tactic(auto, using(crate::proofs::Joins::appends))]
fn put_pairs(out: &mut Vec<u8>, pairs: &[Pair]) -> Result<(), Memory>
    ensures { OnOk result (out.new.items ≡ out.old.items ++ with_commas true (map pair_text pairs.now)) }
{
    let mut first = true;
    'pairs: for pair in pairs {
        put_comma(out, first)?;
        put_expr(out, &pair.key)?;
        put(out, b": ")?;
        put_expr(out, &pair.value)?;
        first = false;
    }
    Ok(())
}
