//! Reads cases, one a line, each of one or two files, and prints the nettype of each declaration of one, or the refusal.
#![tactic(auto)]

ghost use Rattle.std.specs.Prelude.{All};
ghost use Rattle.nt_nettype.specs.Resolvers.{IsWithin};

mod functions;
mod kinds;
mod nettypes;

use functions::callables;
use kinds::say_kind;
use nettypes::{functions_in, nettypes_in};
use nt_const::Constants;
use nt_diag::{Fault, Refusal};
use nt_items::{NettypeItem, Units};
use nt_lexer::{Head, MOST_BYTES, tokens};
use nt_named_types::{Table, TypeView};
use nt_nettype::{Before, Nettype, NettypeSeen, nettype_of};
use nt_parse_unit::source_text;
use nt_types::{Scopes, View};
use nt_typing::Callable;
use nt_value::Text;
use std::alloc::{AllocError, Global};
use std::io;

fn end_of_first(line: &[u8]) -> usize {
    let mut end = line.len();
    for k in 0..line.len() {
        if line[k] == b'`' && k < end {
            end = k;
        }
    }
    end
}

/// The tree of a text of at most MOST_BYTES bytes; a longer one is taken as empty.
fn file_of(alloc: Global, number: u32, text: &[u8]) -> Result<Units, Fault> {
    let mut head = Head {
        unit: None,
        count: 0,
    };
    if text.len() > MOST_BYTES as usize {
        let none = tokens(alloc, number, &[], &mut head)?;
        return source_text(alloc, &none);
    }
    let list = tokens(alloc, number, text, &mut head)?;
    source_text(alloc, &list)
}

fn add(all: &mut Vec<Units>, one: Units) -> Result<(), AllocError> {
    all.push(one)?;
    Ok(())
}

fn add_file(
    alloc: Global,
    number: u32,
    text: Option<&[u8]>,
    all: &mut Vec<Units>,
) -> Result<(), Fault> {
    if let Some(text) = text {
        add(all, file_of(alloc, number, text)?)?;
    }
    Ok(())
}

/// The files of a line: one, or two with a backquote between them.
fn files(alloc: Global, line: &[u8]) -> Result<Vec<Units>, Fault> {
    let mut all = Vec::new(alloc);
    let end = end_of_first(line);
    add_file(alloc, 0, line.get(..end), &mut all)?;
    if end < line.len() {
        add_file(alloc, 1, line.get(end + 1..), &mut all)?;
    }
    Ok(all)
}

fn say_refusal(refusal: &Refusal, out: &mut Text) -> Result<(), AllocError> {
    out.push_bytes(refusal.rule.code().as_bytes())?;
    out.push_bytes(b" at ")?;
    out.push_number(u64::from(refusal.place.file))?;
    out.push(b':')?;
    out.push_number(u64::from(refusal.place.line))?;
    out.push(b':')?;
    out.push_number(u64::from(refusal.place.column))
}

fn say_nettype(nettype: &Nettype, out: &mut Text) -> Result<(), AllocError> {
    out.push_number(nettype.number as u64)?;
    out.push(b' ')?;
    say_kind(&nettype.kind, out)?;
    if let Some(function) = nettype.resolver {
        out.push_bytes(b" by ")?;
        out.push_number(u64::from(function))?;
    }
    Ok(())
}

fn say_seen(seen: &NettypeSeen, out: &mut Text) -> Result<(), AllocError> {
    match seen {
        NettypeSeen::Known(nettype) => say_nettype(nettype, out)?,
        NettypeSeen::Faulty(refusal) => say_refusal(refusal, out)?,
    }
    out.push_bytes(b"; ")
}

fn seen(
    alloc: Global,
    types: &TypeView,
    before: &[Before],
    item: &NettypeItem,
    functions: &[Callable],
) -> Result<NettypeSeen, AllocError>
    requires { All IsWithin functions.now }
{
    match nettype_of(alloc, types, before, item, functions) {
        Ok(nettype) => Ok(NettypeSeen::Known(nettype)),
        Err(Fault::Refused(refusal)) => Ok(NettypeSeen::Faulty(refusal)),
        Err(Fault::OutOfMemory(refused)) => Err(refused),
    }
}

fn say_all(
    alloc: Global,
    types: &TypeView,
    items: &[&NettypeItem],
    functions: &[Callable],
    out: &mut Text,
) -> Result<(), AllocError>
    requires { All IsWithin functions.now }
{
    let mut before = Vec::new(alloc);
    for item in items {
        let one = seen(alloc, types, &before, item, functions)?;
        say_seen(&one, out)?;
        before.push(Before {
            at: item.at,
            seen: one,
        })?;
    }
    Ok(())
}

// A backslash stands for the end of a line.
fn text_of(alloc: Global, line: &[u8]) -> Result<Vec<u8>, AllocError> {
    let mut text = Vec::new(alloc);
    for byte in line {
        text.push(if *byte == b'\\' { b'\n' } else { *byte })?;
    }
    Ok(text)
}

fn say(alloc: Global, line: &[u8], out: &mut Text) -> Result<(), Fault> {
    let text = text_of(alloc, line)?;
    let units = files(alloc, &text)?;
    let scopes = Scopes::open(alloc, &units)?;
    let known = Constants::new(alloc);
    let table = Table::open(alloc, &scopes, &known)?;
    let types = TypeView {
        names: View {
            scopes: &scopes,
            known: &known,
        },
        table: &table,
    };
    let items = functions_in(alloc, &units)?;
    let functions = callables(alloc, &types, &items)?;
    let nettypes = nettypes_in(alloc, &units)?;
    say_all(alloc, &types, &nettypes, &functions, out)?;
    Ok(())
}

fn told(alloc: Global, line: &[u8]) -> Result<Text, AllocError> {
    let mut out = Text::new(Vec::new(alloc));
    match say(alloc, line, &mut out) {
        Ok(()) => Ok(out),
        Err(Fault::Refused(refusal)) => {
            say_refusal(&refusal, &mut out)?;
            Ok(out)
        }
        Err(Fault::OutOfMemory(refused)) => Err(refused),
    }
}

fn main(rt: HostRuntime) -> io::Result<()> {
    let alloc = rt.alloc();
    for line in rt.lines(alloc) {
        let line = line?;
        let result = told(alloc, line.as_str().as_bytes())?;
        match str::from_utf8(result.items()) {
            Ok(text) => println!(rt; "{line} => {text}")?,
            Err(_) => println!(rt; "{line} is told in no text")?,
        }
    }
    Ok(())
}
