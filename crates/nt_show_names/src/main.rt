//! Reads cases, one a line, each of one or two files, and prints what is seen of each declaration, or the refusal.
#![tactic(auto)]

mod kinds;

use kinds::say_kind;
use nt_const::Constants;
use nt_diag::{Fault, Refusal};
use nt_items::Units;
use nt_lexer::{Head, MOST_BYTES, tokens};
use nt_named_types::Table;
use nt_parse_unit::source_text;
use nt_type_trees::TypeSeen;
use nt_types::Scopes;
use nt_value::Text;
use std::alloc::{AllocError, Global};
use std::io;

fn end_of_first(line: &[u8]) -> usize {
    let mut end = line.len();
    for k in 0..line.len() {
        if line[k] == b'`' && k < end {
            end = k;
        }
    }
    end
}

/// The tree of a text of at most MOST_BYTES bytes; a longer one is taken as empty.
fn file_of(alloc: Global, number: u32, text: &[u8]) -> Result<Units, Fault> {
    let mut head = Head {
        unit: None,
        count: 0,
    };
    if text.len() > MOST_BYTES as usize {
        let none = tokens(alloc, number, &[], &mut head)?;
        return source_text(alloc, &none);
    }
    let list = tokens(alloc, number, text, &mut head)?;
    source_text(alloc, &list)
}

fn add(all: &mut Vec<Units>, one: Units) -> Result<(), AllocError> {
    all.push(one)?;
    Ok(())
}

fn add_file(
    alloc: Global,
    number: u32,
    text: Option<&[u8]>,
    all: &mut Vec<Units>,
) -> Result<(), Fault> {
    if let Some(text) = text {
        add(all, file_of(alloc, number, text)?)?;
    }
    Ok(())
}

/// The files of a line: one, or two with a backquote between them.
fn files(alloc: Global, line: &[u8]) -> Result<Vec<Units>, Fault> {
    let mut all = Vec::new(alloc);
    let end = end_of_first(line);
    add_file(alloc, 0, line.get(..end), &mut all)?;
    if end < line.len() {
        add_file(alloc, 1, line.get(end + 1..), &mut all)?;
    }
    Ok(all)
}

fn say_refusal(refusal: &Refusal, out: &mut Text) -> Result<(), AllocError> {
    out.push_bytes(refusal.rule.code().as_bytes())?;
    out.push_bytes(b" at ")?;
    out.push_number(u64::from(refusal.place.file))?;
    out.push(b':')?;
    out.push_number(u64::from(refusal.place.column))
}

fn say_seen(seen: &TypeSeen, out: &mut Text) -> Result<(), AllocError> {
    match seen {
        TypeSeen::Known(kind) => say_kind(kind, out)?,
        TypeSeen::Faulty(refusal) => say_refusal(refusal, out)?,
        TypeSeen::Other => out.push(b'-')?,
        TypeSeen::Unknown => out.push(b'?')?,
        TypeSeen::Ambiguous => out.push(b'!')?,
    }
    out.push(b' ')
}

fn say(alloc: Global, line: &[u8], out: &mut Text) -> Result<(), Fault> {
    let units = files(alloc, line)?;
    let scopes = Scopes::open(alloc, &units)?;
    let known = Constants::new(alloc);
    let table = Table::open(alloc, &scopes, &known)?;
    for entry in table.items() {
        say_seen(entry, out)?;
    }
    Ok(())
}

fn told(alloc: Global, line: &[u8]) -> Result<Text, AllocError> {
    let mut out = Text::new(Vec::new(alloc));
    match say(alloc, line, &mut out) {
        Ok(()) => Ok(out),
        Err(Fault::Refused(refusal)) => {
            say_refusal(&refusal, &mut out)?;
            Ok(out)
        }
        Err(Fault::OutOfMemory(refused)) => Err(refused),
    }
}

fn main(rt: HostRuntime) -> io::Result<()> {
    let alloc = rt.alloc();
    for line in rt.lines(alloc) {
        let line = line?;
        let result = told(alloc, line.as_str().as_bytes())?;
        match str::from_utf8(result.items()) {
            Ok(text) => println!(rt; "{line} => {text}")?,
            Err(_) => println!(rt; "{line} is told in no text")?,
        }
    }
    Ok(())
}
