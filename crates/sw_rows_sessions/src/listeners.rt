// Who is told of a row's replies, and what has to have come of it.
use crate::failing::{Failing, Object, failing_calls};
use crate::row::Row;
use std::alloc::{AllocError, Global};
use sw_hub::{Hub, MemReporter, Reporter};

/// How many replies were heard, whether the reporter fell silent, and how many calls failed.
#[derive(Clone, Copy, Debug, PartialEq, Eq)]
pub struct Heard {
    pub count: u64,
    pub is_silent: bool,
    pub faults: u64,
}

/// A reporter: the numbers of its calls that fail, and what has to have come of it.
#[derive(Drop)]
pub struct Listener {
    pub fails: Vec<u32>,
    pub wanted: Heard,
}

impl Listener {
    /// A text `N.. => COUNT` or `N.. => COUNT silent`.
    pub fn read(alloc: Global, text: &str) -> Result<Listener, AllocError> {
        let (numbers, wanted) = text.split_once("=> ").unwrap_or((text, ""));
        let (count, is_silent) = match wanted.strip_suffix(" silent") {
            Some(count) => (count, true),
            None => (wanted, false),
        };
        let mut fails = Vec::new(alloc);
        for number in numbers.split(' ') {
            if let Ok(number) = number.parse::<u32>() {
                fails.push(number)?;
            }
        }
        let count = count.parse::<u64>().unwrap_or(u64::MAX);
        let wanted = Heard {
            count,
            is_silent,
            faults: if is_silent { 1 } else { 0 },
        };
        Ok(Listener { fails, wanted })
    }
}

/// The reporters of a row, in order, attached.
pub fn hub_of(alloc: Global, row: &Row) -> Result<Hub<MemReporter>, AllocError> {
    hub_with(alloc, row, None)
}

/// The same, where one call more may fail.
pub fn hub_with(
    alloc: Global,
    row: &Row,
    failing: Option<Failing>,
) -> Result<Hub<MemReporter>, AllocError> {
    let mut hub: Hub<MemReporter> = Hub::new(alloc);
    for (number, listener) in row.listeners.iter().enumerate() {
        let fails = failing_calls(alloc, Object::Reporter(number), &listener.fails, failing)?;
        if hub.attach(MemReporter::new(alloc, fails)).is_err() {
            return Err(AllocError);
        }
    }
    Ok(hub)
}

/// What the reporters of a row have heard. Each is taken off, and then no number has one.
pub fn heard_by(
    alloc: Global,
    row: &Row,
    hub: &mut Hub<MemReporter>,
) -> Result<Vec<Heard>, AllocError> {
    let mut all = Vec::new(alloc);
    let mut number = 0u32;
    for _ in row.listeners.iter() {
        let is_silent = hub.silent(number);
        if let Some(reporter) = hub.detach(number) {
            let is_off = hub.detach(number).is_none() && !hub.silent(number);
            let count = if is_off { reporter.count() } else { None };
            all.push(Heard {
                count: count.unwrap_or(u64::MAX),
                is_silent,
                faults: reporter.faults(),
            })?;
        }
        number = number.saturating_add(1);
    }
    Ok(all)
}

/// What differs from what the row says of its reporters, as a line to print.
pub fn otherwise(alloc: Global, row: &Row, all: &[Heard]) -> Result<Option<String>, AllocError> {
    for (number, listener) in row.listeners.iter().enumerate() {
        let heard = all.get(number).copied();
        if heard != Some(listener.wanted) {
            return Ok(Some(format!(in alloc; "  reporter {number} has heard otherwise\n")?));
        }
    }
    Ok(None)
}
