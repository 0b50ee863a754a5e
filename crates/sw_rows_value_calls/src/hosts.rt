// Calls on tables of host functions, as scripts: `hosts attach a counter 0 | call a x ; y | detach a`.
use crate::reader::values_of;
use crate::values::inspected;
use std::alloc::Global;
use sw_hosts::{Counter, First, HostFn, HostTable, Why};
use sw_rows_files::{Refusal, TextWriter};
use sw_text::{List, Memory, Name};
use sw_values::Value;
use sw_world::Hosts;

// A host that never finds memory.
#[derive(Drop)]
struct Failing;

impl HostFn for Failing {
    ghost use Rattle.std.specs.Prelude.{[]};

    ghost kind = { λ _. 2 };

    ghost state = { λ _. [] };

    fn call(&mut self, _alloc: Global, _args: &List<Value>) -> Result<Value, Memory> {
        Err(Memory)
    }
}

// Which host a step attaches.
#[derive(Clone, Copy, Debug)]
enum Kind {
    Counter(u32),
    First,
    Failing,
}

// A table in the middle of a script, and what the steps gave so far.
#[derive(Drop)]
struct Script {
    table: HostTable<Box<dyn HostFn>>,
    told: TextWriter,
}

/// What the steps of a script give, parted by ` | `. `NoCall` for another name and what can't be read; `Memory` exactly
/// where none was found.
pub fn answer(alloc: Global, name: &str, text: &str) -> Result<String, Refusal> {
    if name != "hosts" {
        return Err(Refusal::NoCall);
    }
    let mut script = Script {
        table: HostTable::new(alloc),
        told: TextWriter::new(alloc),
    };
    for step in text.split(" | ") {
        begin(&mut script.told);
        let (word, rest) = step.split_once(' ').unwrap_or((step, ""));
        if word != "attach" {
            other_step(alloc, &mut script, word, rest)?;
            continue;
        }
        let (name, kind) = rest.split_once(' ').unwrap_or((rest, ""));
        let host: Box<dyn HostFn> = match kind_of(kind)? {
            Kind::Counter(number) => Box::new(alloc, Counter { number })?,
            Kind::First => Box::new(alloc, First)?,
            Kind::Failing => Box::new(alloc, Failing)?,
        };
        attach(alloc, &mut script, name, host);
    }
    script.told.written()
}

fn begin(told: &mut TextWriter) {
    if !told.is_empty() {
        told.text(" | ");
    }
}

fn kind_of(text: &str) -> Result<Kind, Refusal> {
    match text {
        "first" => Ok(Kind::First),
        "failing" => Ok(Kind::Failing),
        _ => match text.strip_prefix("counter ") {
            Some(number) => Ok(Kind::Counter(number.parse::<u32>()?)),
            None => Err(Refusal::NoCall),
        },
    }
}

// `ok`, or why not and what the host gives that was handed back.
fn attach(alloc: Global, script: &mut Script, name: &str, host: Box<dyn HostFn>) {
    match script.table.attach(alloc, name, host) {
        Ok(()) => script.told.text("ok"),
        Err(fault) => {
            script.told.text(named(fault.why));
            tell(alloc, &mut script.told, fault.host);
        }
    }
}

fn named(why: Why) -> &'static str {
    match why {
        Why::BadName => "BadName ",
        Why::Taken => "Taken ",
        Why::Memory => "Memory ",
    }
}

fn other_step(alloc: Global, script: &mut Script, word: &str, rest: &str) -> Result<(), Refusal> {
    match word {
        "call" => call(alloc, script, rest),
        "detach" => {
            detach(alloc, script, rest);
            Ok(())
        }
        _ => Err(Refusal::NoCall),
    }
}

// What the host gives that was taken off.
fn detach(alloc: Global, script: &mut Script, name: &str) {
    match script.table.detach(name) {
        Some(host) => tell(alloc, &mut script.told, host),
        None => script.told.text("none"),
    }
}

// What a host gives without arguments.
fn tell(alloc: Global, told: &mut TextWriter, host: Box<dyn HostFn>) {
    let mut host = host;
    let given = host.call(alloc, &List::new(alloc));
    tell_given(alloc, told, &given);
}

fn tell_given(alloc: Global, told: &mut TextWriter, given: &Result<Value, Memory>) {
    match given {
        Ok(value) => told.add(inspected(alloc, value)),
        Err(_) => told.text("Memory"),
    }
}

fn call(alloc: Global, script: &mut Script, rest: &str) -> Result<(), Refusal> {
    let (name, args) = rest.split_once(' ').unwrap_or((rest, ""));
    let name = Name::new(alloc, name)?;
    let args = values_of(alloc, args)?;
    match script.table.call(alloc, &name, &args) {
        Ok(Some(value)) => script.told.add(inspected(alloc, &value)),
        Ok(None) => script.told.text("none"),
        Err(_) => script.told.text("Memory"),
    }
    Ok(())
}
