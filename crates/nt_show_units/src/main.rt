//! Reads texts, one a line, and prints each with the tree of the file that it is, or with its refusal. A tab in a text stands for the
//! end of a line. Each node is told after its offset.
#![tactic(auto)]

mod items;
mod saying;
mod types;

use items::say_items;
use nt_diag::{Fault, Refusal, Rule};
use nt_items::{Item, Units, copy_item};
use nt_lexer::{Head, MOST_BYTES, tokens};
use nt_parse_unit::source_text;
use nt_value::{Place, Text};
use saying::Saying;
use sqlite_items::Items;
use std::alloc::{AllocError, Global};
use std::io;

// The text, with line ends for tabs.
fn opened(alloc: Global, line: &str) -> Result<Text, AllocError> {
    let mut text = Text::new(Vec::new(alloc));
    for byte in line.as_bytes() {
        text.push(if *byte == b'\t' { 10 } else { *byte })?;
    }
    Ok(text)
}

fn read(alloc: Global, text: &[u8]) -> Result<Units, Fault> {
    if text.len() > MOST_BYTES as usize {
        let place = Place {
            file: 0,
            offset: 0,
            line: 1,
            column: 1,
        };
        return Err(Fault::refused(Rule::X6, place));
    }
    let mut head = Head {
        unit: None,
        count: 0,
    };
    let list = match tokens(alloc, 0, text, &mut head) {
        Ok(list) => list,
        Err(fault) => return Err(fault),
    };
    source_text(alloc, &list)
}

fn say_refusal(refusal: Refusal, out: &mut Saying) {
    out.put(refusal.rule.code().as_bytes());
    out.put(b" ");
    out.number(refusal.place.line);
    out.put(b":");
    out.number(refusal.place.column);
}

// Copies of the items.
fn copies(alloc: Global, items: &Items<Item>) -> Result<Items<Item>, AllocError> {
    let mut all = Items::new(alloc);
    for item in items.as_slice() {
        all.push(copy_item(alloc, item)?)?;
    }
    Ok(all)
}

// What is printed of a text.
fn told(alloc: Global, line: &str) -> Result<Text, AllocError> {
    let text = opened(alloc, line)?;
    let mut out = Saying::new(alloc);
    match read(alloc, text.items()) {
        Ok(units) => {
            let copy = copies(alloc, &units.items)?;
            say_items(&copy, &mut out);
        }
        Err(Fault::Refused(refusal)) => say_refusal(refusal, &mut out),
        Err(Fault::OutOfMemory(refused)) => return Err(refused),
    }
    out.whole()
}

fn main(rt: HostRuntime) -> io::Result<()> {
    let alloc = rt.alloc();
    for line in rt.lines(alloc) {
        let line = line?;
        let result = told(alloc, line.as_str())?;
        match str::from_utf8(result.items()) {
            Ok(text) => println!(rt; "{line} => {text}")?,
            Err(_) => println!(rt; "{line} is told in no text")?,
        }
    }
    Ok(())
}
