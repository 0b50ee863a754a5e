// Statements in a short form, with a block as `{ a; b }`.
use crate::expr::{add_expr, add_text};
use crate::head::{add_call_head, add_callable_head, add_each_head, add_for_head, add_params};
use crate::simple::add_simple;
use crate::writer::Writer;
use sw_text::{Shared, Span};
use sw_tree::{
    AtRoot, AtRule, Branch, Callable, Content, Each, For, Media, Mixin, Properties, Rule,
    Statement, Supports, Text, While,
};

/// Statements with `; ` between two.
#[cycle(statement)]
pub fn add_statements(writer: &mut Writer, statements: &[Statement]) {
    for (at, statement) in statements.iter().enumerate() {
        writer.text(if at == 0 { "" } else { "; " });
        add_statement(writer, statement);
    }
}

#[cycle(statement)]
fn add_block(writer: &mut Writer, block: &[Statement]) {
    if block.is_empty() {
        writer.text(" {}");
    } else {
        writer.text(" { ");
        add_statements(writer, block);
        writer.text(" }");
    }
}

#[cycle(statement)]
fn add_statement(writer: &mut Writer, statement: &Statement) {
    match statement {
        Statement::Callable(callable) => add_callable(writer, callable.get()),
        Statement::Include {
            mixin,
            content,
            span,
        } => add_include(writer, mixin, content, span),
        Statement::If {
            branches,
            otherwise,
            span,
        } => {
            add_branches(writer, branches.as_slice(), span);
            if let Some(block) = otherwise {
                writer.text(" @else");
                add_block(writer, block.as_slice());
            }
        }
        Statement::Each(each) => add_each(writer, each),
        Statement::For(count) => add_for(writer, count),
        Statement::While(repeat) => add_while(writer, repeat),
        Statement::Properties(properties) => add_properties(writer, properties),
        Statement::Rule(rule) => add_rule(writer, rule),
        Statement::Media(media) => add_media(writer, media),
        Statement::Supports(supports) => add_supports(writer, supports),
        Statement::AtRoot(root) => add_at_root(writer, root),
        Statement::AtRule(rule) => add_at_rule(writer, rule),
        Statement::Variable(_)
        | Statement::Assignment(_)
        | Statement::Declaration(_)
        | Statement::Custom(_)
        | Statement::Use(_)
        | Statement::Forward(_)
        | Statement::Content(_)
        | Statement::Return(_)
        | Statement::Say(_)
        | Statement::Charset(_)
        | Statement::Import(_)
        | Statement::Extend(_)
        | Statement::Comment(_) => add_simple(writer, statement),
    }
}

#[cycle(statement)]
fn add_callable(writer: &mut Writer, callable: &Callable) {
    add_callable_head(writer, callable);
    add_block(writer, callable.block.as_slice());
}

#[cycle(statement)]
fn add_include(writer: &mut Writer, mixin: &Mixin, content: &Option<Shared<Content>>, span: &Span) {
    add_call_head(writer, mixin);
    writer.mark(span);
    if let Some(content) = content {
        add_content(writer, content.get());
    }
}

// ` using ($a)` and the block
#[cycle(statement)]
fn add_content(writer: &mut Writer, content: &Content) {
    writer.text(" using ");
    add_params(writer, &content.params);
    add_block(writer, content.block.as_slice());
}

// `@if condition { block }`, with ` @else if condition { block }` behind it
#[cycle(statement)]
fn add_branches(writer: &mut Writer, branches: &[Branch], span: &Span) {
    writer.text("@if");
    writer.mark(span);
    for (at, branch) in branches.iter().enumerate() {
        writer.text(if at == 0 { " " } else { " @else if " });
        add_expr(writer, &branch.condition);
        add_block(writer, branch.block.as_slice());
    }
}

#[cycle(statement)]
fn add_each(writer: &mut Writer, each: &Each) {
    add_each_head(writer, each);
    add_block(writer, each.block.as_slice());
}

#[cycle(statement)]
fn add_for(writer: &mut Writer, count: &For) {
    add_for_head(writer, count);
    add_block(writer, count.block.as_slice());
}

#[cycle(statement)]
fn add_while(writer: &mut Writer, repeat: &While) {
    writer.text("@while ");
    add_expr(writer, &repeat.condition);
    writer.mark(&repeat.span);
    add_block(writer, repeat.block.as_slice());
}

// `property`: value { block }
#[cycle(statement)]
fn add_properties(writer: &mut Writer, properties: &Properties) {
    add_text(writer, &properties.property);
    writer.text(":");
    if let Some(value) = &properties.value {
        writer.text(" ");
        add_expr(writer, value);
    }
    writer.mark(&properties.span);
    add_block(writer, properties.block.as_slice());
}

#[cycle(statement)]
fn add_rule(writer: &mut Writer, rule: &Rule) {
    add_text(writer, &rule.selector);
    writer.mark(&rule.span);
    add_block(writer, rule.block.as_slice());
}

#[cycle(statement)]
fn add_media(writer: &mut Writer, media: &Media) {
    writer.set_in_query(true);
    add_prelude(writer, "@media ", &media.queries);
    writer.set_in_query(false);
    writer.mark(&media.span);
    add_block(writer, media.block.as_slice());
}

#[cycle(statement)]
fn add_supports(writer: &mut Writer, supports: &Supports) {
    add_prelude(writer, "@supports ", &supports.condition);
    writer.mark(&supports.span);
    add_block(writer, supports.block.as_slice());
}

fn add_prelude(writer: &mut Writer, word: &str, text: &Text) {
    writer.text(word);
    add_text(writer, text);
}

#[cycle(statement)]
fn add_at_root(writer: &mut Writer, root: &AtRoot) {
    writer.text("@at-root");
    add_optional(writer, &root.selector);
    writer.mark(&root.span);
    add_block(writer, root.block.as_slice());
}

// A text with a space before it, if there is one.
fn add_optional(writer: &mut Writer, text: &Option<Text>) {
    if let Some(text) = text {
        add_prelude(writer, " ", text);
    }
}

#[cycle(statement)]
fn add_at_rule(writer: &mut Writer, rule: &AtRule) {
    add_prelude(writer, "@rule ", &rule.name);
    add_optional(writer, &rule.prelude);
    writer.mark(&rule.span);
    if let Some(block) = &rule.block {
        add_block(writer, block.as_slice());
    }
}
