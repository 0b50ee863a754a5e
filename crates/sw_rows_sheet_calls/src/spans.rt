// The spans of statements, each with those in its block in braces behind it.
use crate::writer::Writer;
use std::alloc::Global;
use sw_rows_files::Refusal;
use sw_text::Span;
use sw_tree::{Sheet, Statement};

/// The spans of a sheet's statements.
pub fn spans_of(alloc: Global, sheet: &Sheet) -> Result<String, Refusal> {
    let mut writer = Writer::new(alloc, true);
    add_spans(&mut writer, sheet.statements.as_slice());
    writer.written()
}

#[cycle(spans)]
fn add_spans(writer: &mut Writer, statements: &[Statement]) {
    for (at, statement) in statements.iter().enumerate() {
        writer.text(if at == 0 { "" } else { " " });
        writer.span(span_of(statement));
        add_inner(writer, statement);
    }
}

#[cycle(spans)]
fn add_block(writer: &mut Writer, block: &[Statement]) {
    if block.is_empty() {
        writer.text(" {}");
    } else {
        writer.text(" { ");
        add_spans(writer, block);
        writer.text(" }");
    }
}

// The blocks of a statement.
#[cycle(spans)]
fn add_inner(writer: &mut Writer, statement: &Statement) {
    match statement {
        Statement::Properties(properties) => add_block(writer, properties.block.as_slice()),
        Statement::Rule(rule) => add_block(writer, rule.block.as_slice()),
        Statement::Callable(callable) => add_block(writer, callable.get().block.as_slice()),
        Statement::Include { content, .. } => {
            if let Some(content) = content {
                add_block(writer, content.get().block.as_slice());
            }
        }
        Statement::If {
            branches,
            otherwise,
            ..
        } => {
            for branch in branches.as_slice() {
                add_block(writer, branch.block.as_slice());
            }
            if let Some(block) = otherwise {
                add_block(writer, block.as_slice());
            }
        }
        Statement::Each(each) => add_block(writer, each.block.as_slice()),
        Statement::For(count) => add_block(writer, count.block.as_slice()),
        Statement::While(repeat) => add_block(writer, repeat.block.as_slice()),
        Statement::Media(media) => add_block(writer, media.block.as_slice()),
        Statement::Supports(supports) => add_block(writer, supports.block.as_slice()),
        Statement::AtRoot(root) => add_block(writer, root.block.as_slice()),
        Statement::AtRule(rule) => {
            if let Some(block) = &rule.block {
                add_block(writer, block.as_slice());
            }
        }
        Statement::Variable(_)
        | Statement::Assignment(_)
        | Statement::Declaration(_)
        | Statement::Custom(_)
        | Statement::Use(_)
        | Statement::Forward(_)
        | Statement::Content(_)
        | Statement::Return(_)
        | Statement::Say(_)
        | Statement::Charset(_)
        | Statement::Import(_)
        | Statement::Extend(_)
        | Statement::Comment(_) => {}
    }
}

fn span_of(statement: &Statement) -> &Span {
    match statement {
        Statement::Variable(variable) => &variable.span,
        Statement::Assignment(assignment) => &assignment.span,
        Statement::Declaration(declaration) => &declaration.span,
        Statement::Properties(properties) => &properties.span,
        Statement::Custom(custom) => &custom.span,
        Statement::Rule(rule) => &rule.span,
        Statement::Use(load) => &load.span,
        Statement::Forward(load) => &load.span,
        Statement::Callable(callable) => &callable.get().span,
        Statement::Include { span, .. } => span,
        Statement::Content(call) => &call.span,
        Statement::Return(given) => &given.span,
        Statement::Say(say) => &say.span,
        Statement::If { span, .. } => span,
        Statement::Each(each) => &each.span,
        Statement::For(count) => &count.span,
        Statement::While(repeat) => &repeat.span,
        Statement::Media(media) => &media.span,
        Statement::Supports(supports) => &supports.span,
        Statement::AtRoot(root) => &root.span,
        Statement::Charset(span) => span,
        Statement::Import(import) => &import.span,
        Statement::Extend(extend) => &extend.span,
        Statement::AtRule(rule) => &rule.span,
        Statement::Comment(text) => &text.span,
    }
}
