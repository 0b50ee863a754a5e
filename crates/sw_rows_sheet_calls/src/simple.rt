// Statements without blocks.
use crate::expr::{add_expr, add_qualified, add_spaced, add_text};
use crate::load::{add_forward, add_use};
use crate::writer::Writer;
use sw_text::Span;
use sw_tree::{
    Assignment, ContentCall, Custom, Declaration, Expr, Flags, Level, Statement, Text, Variable,
};

/// A statement without blocks; of any other nothing.
pub fn add_simple(writer: &mut Writer, statement: &Statement) {
    match statement {
        Statement::Variable(variable) => add_variable(writer, variable),
        Statement::Assignment(assignment) => add_assignment(writer, assignment),
        Statement::Declaration(declaration) => add_declaration(writer, declaration),
        Statement::Custom(custom) => add_custom(writer, custom),
        Statement::Use(load) => add_use(writer, load),
        Statement::Forward(load) => add_forward(writer, load),
        Statement::Content(call) => add_content_call(writer, call),
        Statement::Return(given) => add_said(writer, "@return ", &given.value, &given.span),
        Statement::Say(say) => add_said(writer, level_name(say.level), &say.value, &say.span),
        Statement::Charset(span) => add_marked(writer, "@charset", span),
        Statement::Import(import) => add_worded(writer, "@import ", &import.text, &import.span),
        Statement::Extend(extend) => add_worded(writer, "@extend ", &extend.text, &extend.span),
        Statement::Comment(text) => add_comment(writer, text),
        Statement::Callable(_)
        | Statement::Include { .. }
        | Statement::If { .. }
        | Statement::Each(_)
        | Statement::For(_)
        | Statement::While(_)
        | Statement::Properties(_)
        | Statement::Rule(_)
        | Statement::Media(_)
        | Statement::Supports(_)
        | Statement::AtRoot(_)
        | Statement::AtRule(_) => {}
    }
}

// `$name = value !default`
fn add_variable(writer: &mut Writer, variable: &Variable) {
    writer.name_between("$", &variable.name, " = ");
    add_expr(writer, &variable.value);
    add_flags(writer, variable.flags);
    writer.mark(&variable.span);
}

// `namespace.$name = value !default`
fn add_assignment(writer: &mut Writer, assignment: &Assignment) {
    add_qualified(writer, &assignment.target);
    writer.mark(&assignment.target_span);
    writer.text(" = ");
    add_expr(writer, &assignment.value);
    add_flags(writer, assignment.flags);
    writer.mark(&assignment.span);
}

fn add_flags(writer: &mut Writer, flags: Flags) {
    if flags.default {
        writer.text(" !default");
    }
    if flags.global {
        writer.text(" !global");
    }
}

// `property`: value
fn add_declaration(writer: &mut Writer, declaration: &Declaration) {
    add_text(writer, &declaration.property);
    writer.text(": ");
    add_expr(writer, &declaration.value);
    writer.mark(&declaration.span);
}

// `--property`: `text`
fn add_custom(writer: &mut Writer, custom: &Custom) {
    add_text(writer, &custom.property);
    writer.text(":");
    if let Some(value) = &custom.value {
        writer.text(" ");
        add_text(writer, value);
    }
    writer.mark(&custom.span);
}

// `@content` and its arguments
fn add_content_call(writer: &mut Writer, call: &ContentCall) {
    writer.text("@content");
    add_spaced(writer, call.arguments.as_slice());
    writer.mark(&call.span);
}

fn add_said(writer: &mut Writer, word: &str, value: &Expr, span: &Span) {
    writer.text(word);
    add_expr(writer, value);
    writer.mark(span);
}

fn add_worded(writer: &mut Writer, word: &str, text: &Text, span: &Span) {
    writer.text(word);
    add_text(writer, text);
    writer.mark(span);
}

fn add_marked(writer: &mut Writer, word: &str, span: &Span) {
    writer.text(word);
    writer.mark(span);
}

fn add_comment(writer: &mut Writer, text: &Text) {
    writer.text("@comment ");
    add_text(writer, text);
}

fn level_name(level: Level) -> &'static str {
    match level {
        Level::Warn => "@warn ",
        Level::Debug => "@debug ",
        Level::Error => "@error ",
    }
}
