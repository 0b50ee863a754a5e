//! Grows a list by items, or a map by keys, one at a time, so that the time of a part can be measured. Lines such as
//! `list 1000` and `map 1000` flow in; the weight of what was made flows out for each.
#![tactic(auto)]

mod growing;

use crate::growing::{grown_list, grown_map};
use std::alloc::Global;
use std::io;
use sw_values::{Value, ValueFault};

/// What a line asks for.
#[derive(Clone, Copy, Debug, PartialEq, Eq)]
enum Kind {
    List,
    Map,
}

fn kind_of(word: &str) -> Option<Kind> {
    match word {
        "list" => Some(Kind::List),
        "map" => Some(Kind::Map),
        _ => None,
    }
}

// The kind and the count of a line.
fn asked(line: &str) -> Option<(Kind, u32)> {
    let (word, count) = line.split_once(' ')?;
    let kind = kind_of(word)?;
    match count.parse::<u32>() {
        Ok(count) => Some((kind, count)),
        Err(_) => None,
    }
}

fn grown(alloc: Global, kind: Kind, count: u32) -> Result<Value, ValueFault> {
    match kind {
        Kind::List => grown_list(alloc, count),
        Kind::Map => grown_map(alloc, count),
    }
}

fn main(rt: HostRuntime) -> io::Result<()> {
    for line in rt.lines(rt.alloc()) {
        let line = line?;
        match asked(line.as_str()) {
            None => println!(rt; "no such line")?,
            Some((kind, count)) => match grown(rt.alloc(), kind, count) {
                Ok(value) => println!(rt; "{}", value.weight())?,
                Err(fault) => println!(rt; "{fault:?}")?,
            },
        }
    }
    Ok(())
}
