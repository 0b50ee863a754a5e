// Statements that load modules.
use crate::expr::add_expr;
use crate::writer::Writer;
use sw_text::Name;
use sw_tree::{Filter, Forward, Given, Member, Namespace, Url, Use};

/// `@use "url" default namespace with $name=value`
pub fn add_use(writer: &mut Writer, load: &Use) {
    writer.text("@use");
    add_url(writer, &load.url);
    add_namespace(writer, &load.namespace);
    add_configuration(writer, load.configuration.as_slice());
    writer.mark(&load.span);
}

/// `@forward "url" prefix p- show $a b with $name=value`
pub fn add_forward(writer: &mut Writer, load: &Forward) {
    writer.text("@forward");
    add_url(writer, &load.url);
    if let Some(prefix) = &load.prefix {
        writer.name_between(" prefix ", prefix, "");
    }
    add_filter(writer, &load.filter);
    add_configuration(writer, load.configuration.as_slice());
    writer.mark(&load.span);
}

fn add_url(writer: &mut Writer, url: &Url) {
    writer.text(" \"");
    writer.escaped(url.text.as_str());
    writer.text("\"");
    writer.mark(&url.span);
}

fn add_namespace(writer: &mut Writer, namespace: &Namespace) {
    match namespace {
        Namespace::Default(name) => writer.name_between(" default ", name, ""),
        Namespace::Written(name) => writer.name_between(" as ", name, ""),
        Namespace::Without => writer.text(" as *"),
    }
}

fn add_filter(writer: &mut Writer, filter: &Filter) {
    match filter {
        Filter::All => {}
        Filter::Show(members) => add_members(writer, " show", members.as_slice()),
        Filter::Hide(members) => add_members(writer, " hide", members.as_slice()),
    }
}

fn add_members(writer: &mut Writer, word: &str, members: &[Member]) {
    writer.text(word);
    for member in members {
        let before = if member.variable { " $" } else { " " };
        writer.name_between(before, &member.name, "");
    }
}

fn add_configuration(writer: &mut Writer, configuration: &[Given]) {
    if !configuration.is_empty() {
        writer.text(" with");
    }
    for given in configuration {
        add_given(writer, given);
    }
}

fn add_given(writer: &mut Writer, given: &Given) {
    add_given_name(writer, &given.name);
    writer.mark(&given.name_span);
    writer.text("=");
    add_expr(writer, &given.value);
    writer.text(if given.default { " !default" } else { "" });
}

fn add_given_name(writer: &mut Writer, name: &Name) {
    writer.name_between(" $", name, "");
}
