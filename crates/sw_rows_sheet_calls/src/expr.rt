// Expressions in prefix form: `(op 1 + 2)`, `(comma a b)`, `(call f 1)`.
use crate::writer::Writer;
use sw_text::Name;
use sw_tree::{
    Argument, Around, Callee, Constant, Expr, ExprKind, Link, Namespaced, Number, Operator, Pair,
    Parts, Piece, Qualified, Separator, Sign, Text,
};

/// Writes an expression in prefix form, and its span behind it where spans are written.
#[cycle(expr)]
pub fn add_expr(writer: &mut Writer, expr: &Expr) {
    add_kind(writer, &expr.kind);
    writer.mark(&expr.span);
}

#[cycle(expr)]
fn add_kind(writer: &mut Writer, kind: &ExprKind) {
    match kind {
        ExprKind::Number(number) => add_number(writer, number),
        ExprKind::Quoted(parts) => add_between(writer, "\"", parts, "\""),
        ExprKind::Word(parts) => add_parts(writer, parts),
        ExprKind::Hash(text) => writer.name(text),
        ExprKind::Constant(constant) => writer.text(constant_name(*constant)),
        ExprKind::Url(parts) => add_between(writer, "(url `", parts, "`)"),
        ExprKind::Special(parts) => add_between(writer, "(special `", parts, "`)"),
        ExprKind::Variable(name) => writer.name_between("$", name, ""),
        ExprKind::Qualified(qualified) => add_qualified(writer, qualified.get()),
        ExprKind::Parent => writer.text("&"),
        ExprKind::Important => writer.text("!important"),
        ExprKind::Call { callee, arguments } => {
            add_callee(writer, callee.get());
            add_passed(writer, arguments.as_slice());
        }
        ExprKind::Prefixed { signs, operand } => {
            add_prefixed(writer, signs.as_slice(), operand.get());
        }
        ExprKind::Chain { first, rest } => {
            add_first(writer, first.get());
            add_links(writer, rest.as_slice());
        }
        ExprKind::List {
            items,
            separator,
            around,
        } => add_list(writer, items.as_slice(), *separator, *around),
        ExprKind::Paren(value) => add_enclosed(writer, "(paren ", value.get(), ")"),
        ExprKind::Map(pairs) => add_map(writer, pairs.as_slice()),
    }
}

/// The pieces of a text between two others.
#[cycle(expr)]
pub fn add_between(writer: &mut Writer, before: &str, parts: &Parts, behind: &str) {
    writer.text(before);
    add_parts(writer, parts);
    writer.text(behind);
}

#[cycle(expr)]
fn add_parts(writer: &mut Writer, parts: &Parts) {
    match parts {
        Parts::Plain(text) => writer.escaped(text.as_str()),
        Parts::Mixed(pieces) => add_pieces(writer, pieces.as_slice()),
    }
}

// `/**/` stands between two texts, for the comment that keeps them apart.
#[cycle(expr)]
fn add_pieces(writer: &mut Writer, pieces: &[Piece]) {
    let mut behind_text = false;
    for piece in pieces {
        let is_text = is_text(piece);
        if behind_text && is_text {
            writer.seam();
        }
        add_piece(writer, piece);
        behind_text = is_text;
    }
}

fn is_text(piece: &Piece) -> bool {
    match piece {
        Piece::Text(_) => true,
        _ => false,
    }
}

// `#{expression}`, and `={expression}` for a value that stands without `#{}`.
#[cycle(expr)]
fn add_piece(writer: &mut Writer, piece: &Piece) {
    match piece {
        Piece::Text(text) => writer.escaped(text.as_str()),
        Piece::Inserted(value) => add_enclosed(writer, "#{", value, "}"),
        Piece::Value(value) => add_enclosed(writer, "={", value, "}"),
    }
}

#[cycle(expr)]
fn add_enclosed(writer: &mut Writer, before: &str, value: &Expr, behind: &str) {
    writer.text(before);
    add_expr(writer, value);
    writer.text(behind);
}

/// A text of a sheet between backticks.
pub fn add_text(writer: &mut Writer, text: &Text) {
    add_between(writer, "`", &text.parts, "`");
    writer.mark(&text.span);
}

// `(call name`
#[cycle(expr)]
fn add_callee(writer: &mut Writer, callee: &Callee) {
    writer.text("(call ");
    if let Some(namespace) = &callee.namespace {
        add_namespace(writer, namespace);
    }
    add_parts(writer, &callee.name.parts);
    writer.mark(&callee.name.span);
}

// ` argument argument)`
#[cycle(expr)]
fn add_passed(writer: &mut Writer, arguments: &[Argument]) {
    add_spaced(writer, arguments);
    writer.text(")");
}

/// Arguments with a space before each.
#[cycle(expr)]
pub fn add_spaced(writer: &mut Writer, arguments: &[Argument]) {
    for argument in arguments {
        writer.text(" ");
        add_argument(writer, argument);
    }
}

#[cycle(expr)]
fn add_argument(writer: &mut Writer, argument: &Argument) {
    if let Some(name) = &argument.name {
        writer.name_between("$", name, ":");
    }
    add_expr(writer, &argument.value);
    writer.text(if argument.spread { "..." } else { "" });
}

#[cycle(expr)]
fn add_prefixed(writer: &mut Writer, signs: &[Sign], operand: &Expr) {
    writer.text("(sign ");
    add_signs(writer, signs);
    add_expr(writer, operand);
    writer.text(")");
}

fn add_signs(writer: &mut Writer, signs: &[Sign]) {
    for sign in signs {
        writer.text(sign_name(*sign));
        writer.text(" ");
    }
}

// `(op first`
#[cycle(expr)]
fn add_first(writer: &mut Writer, first: &Expr) {
    writer.text("(op ");
    add_expr(writer, first);
}

// ` + operand - operand)`
#[cycle(expr)]
fn add_links(writer: &mut Writer, links: &[Link]) {
    for link in links {
        add_link(writer, link);
    }
    writer.text(")");
}

#[cycle(expr)]
fn add_link(writer: &mut Writer, link: &Link) {
    writer.text(operator_name(link.operator));
    add_expr(writer, &link.operand);
}

#[cycle(expr)]
fn add_list(writer: &mut Writer, items: &[Expr], separator: Separator, around: Around) {
    writer.text(separator_name(separator));
    writer.text(around_name(around));
    for item in items {
        writer.text(" ");
        add_expr(writer, item);
    }
    writer.text(")");
}

// `(map key=value)`
#[cycle(expr)]
fn add_map(writer: &mut Writer, pairs: &[Pair]) {
    writer.text("(map");
    for pair in pairs {
        writer.text(" ");
        add_expr(writer, &pair.key);
        writer.text("=");
        add_expr(writer, &pair.value);
    }
    writer.text(")");
}

// `?` stands for a value beyond the bound of numbers.
fn add_number(writer: &mut Writer, number: &Number) {
    match number.value {
        Some(value) => writer.number(value),
        None => writer.text("?"),
    }
    writer.name(&number.unit);
}

/// A namespace and the `.` behind it.
pub fn add_namespace(writer: &mut Writer, namespace: &Namespaced) {
    writer.name(&namespace.name);
    writer.mark(&namespace.span);
    writer.text(".");
}

/// A variable of another module.
pub fn add_qualified(writer: &mut Writer, qualified: &Qualified) {
    add_namespace(writer, &qualified.namespace);
    writer.name_between("$", &qualified.name, "");
}

fn constant_name(constant: Constant) -> &'static str {
    match constant {
        Constant::True => "true",
        Constant::False => "false",
        Constant::Null => "null",
    }
}

fn sign_name(sign: Sign) -> &'static str {
    match sign {
        Sign::Not => "not",
        Sign::Plus => "+",
        Sign::Minus => "-",
        Sign::Slash => "/",
    }
}

fn operator_name(operator: Operator) -> &'static str {
    match operator {
        Operator::Or => " or ",
        Operator::And => " and ",
        Operator::Equal => " == ",
        Operator::NotEqual => " != ",
        Operator::Less => " < ",
        Operator::LessEqual => " <= ",
        Operator::Greater => " > ",
        Operator::GreaterEqual => " >= ",
        Operator::Plus => " + ",
        Operator::Minus => " - ",
        Operator::Times => " * ",
        Operator::Divide => " / ",
        Operator::Modulo => " % ",
    }
}

fn separator_name(separator: Separator) -> &'static str {
    match separator {
        Separator::Undecided => "(list",
        Separator::Space => "(space",
        Separator::Comma => "(comma",
    }
}

fn around_name(around: Around) -> &'static str {
    match around {
        Around::Nothing => "",
        Around::Parens => "()",
        Around::Brackets => "[]",
    }
}
