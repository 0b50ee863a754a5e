// What stands before the blocks of statements.
use crate::expr::{add_expr, add_namespace, add_spaced};
use crate::writer::Writer;
use sw_text::Name;
use sw_tree::{Bounds, Callable, Each, For, Kind, Mixin, Param, Params};

/// `@function name ($a, $b: value, $rest...)`
pub fn add_callable_head(writer: &mut Writer, callable: &Callable) {
    writer.text(kind_name(callable.kind));
    writer.name(&callable.name);
    writer.text(" ");
    add_params(writer, &callable.params);
    writer.mark(&callable.span);
}

fn kind_name(kind: Kind) -> &'static str {
    match kind {
        Kind::Variable => "$",
        Kind::Function => "@function ",
        Kind::Mixin => "@mixin ",
    }
}

/// Parameters in parentheses.
pub fn add_params(writer: &mut Writer, params: &Params) {
    writer.text("(");
    add_listed(writer, params.items.as_slice());
    if let Some(rest) = &params.rest {
        add_rest(writer, params.items.is_empty(), rest);
    }
    writer.text(")");
}

fn add_listed(writer: &mut Writer, items: &[Param]) {
    for (at, param) in items.iter().enumerate() {
        writer.text(if at == 0 { "" } else { ", " });
        add_param(writer, param);
    }
}

fn add_param(writer: &mut Writer, param: &Param) {
    writer.name_between("$", &param.name, "");
    if let Some(value) = &param.default {
        writer.text(": ");
        add_expr(writer, value);
    }
}

fn add_rest(writer: &mut Writer, is_first: bool, name: &Name) {
    let before = if is_first { "$" } else { ", $" };
    writer.name_between(before, name, "...");
}

/// `@include namespace.name` and the arguments
pub fn add_call_head(writer: &mut Writer, mixin: &Mixin) {
    writer.text("@include ");
    if let Some(namespace) = &mixin.namespace {
        add_namespace(writer, namespace);
    }
    writer.name(&mixin.name);
    writer.mark(&mixin.name_span);
    add_spaced(writer, mixin.arguments.as_slice());
}

/// `@each $a, $b in value`
pub fn add_each_head(writer: &mut Writer, each: &Each) {
    writer.text("@each ");
    add_names(writer, each.names.as_slice());
    writer.text(" in ");
    add_expr(writer, &each.value);
    writer.mark(&each.span);
}

fn add_names(writer: &mut Writer, names: &[Name]) {
    for (at, name) in names.iter().enumerate() {
        let before = if at == 0 { "$" } else { ", $" };
        writer.name_between(before, name, "");
    }
}

/// `@for $a from value to value`
pub fn add_for_head(writer: &mut Writer, count: &For) {
    writer.name_between("@for $", &count.name, " from ");
    add_bounds(writer, count.bounds.get());
    writer.mark(&count.span);
}

fn add_bounds(writer: &mut Writer, bounds: &Bounds) {
    add_expr(writer, &bounds.from);
    writer.text(if bounds.through { " through " } else { " to " });
    add_expr(writer, &bounds.to);
}
