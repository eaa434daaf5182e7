//! Reads cases, one a line, and prints what the function that each calls gives.
#![tactic(auto)]

mod cases;
mod functions;
mod parts;

ghost use Rattle.std.specs.Prelude.{◌≡◌, []};
ghost use Rattle.nt_design.specs.WellFormed.{IsDesign};
ghost use Rattle.nt_call_show.specs.Functions as functions;

use cases::{Unread, arguments, function_named, may_call};
use functions::design_of_functions;
use nt_design::{Design, Stop};
use nt_eval::call;
use nt_value::{Text, Value, print};
use sqlite_items::Items;
use std::alloc::{AllocError, Global};
use std::io;

// Why a case has no value.
#[derive(Debug, Drop)]
enum Without {
    Words,
    Misfit,
    TooLong,
    Memory(AllocError),
}

impl From<AllocError> for Without {
    fn from(e: AllocError) -> Without {
        Without::Memory(e)
    }
}

impl From<Unread> for Without {
    fn from(e: Unread) -> Without {
        match e {
            Unread::Words => Without::Words,
            Unread::Memory(refused) => Without::Memory(refused),
        }
    }
}

impl From<Stop> for Without {
    fn from(e: Stop) -> Without {
        match e {
            Stop::TooLong => Without::TooLong,
            Stop::OutOfMemory(refused) => Without::Memory(refused),
        }
    }
}

// What a function gives for values.
fn given(alloc: Global, design: &Design, number: u32, args: Items<Value>) -> Result<Value, Without>
    requires design { IsDesign design.now }
    requires functions { design.now.functions ≡ functions.links [] functions.place 0 16 }
{
    let Some(function) = design.functions.as_slice().get(number as usize) else {
        return Err(Without::Words);
    };
    if !may_call(alloc, function, args.as_slice())? {
        return Err(Without::Misfit);
    }
    Ok(call(alloc, design, number, args)?)
}

// What the call of a line gives.
fn value_of(alloc: Global, design: &Design, line: &str) -> Result<Value, Without>
    requires design { IsDesign design.now }
    requires functions { design.now.functions ≡ functions.links [] functions.place 0 16 }
{
    let (name, args) = match line.split_once(' ') {
        Some((name, text)) => (name, arguments(alloc, text)?),
        None => (line, Items::new(alloc)),
    };
    let Some(number) = function_named(name) else {
        return Err(Without::Words);
    };
    given(alloc, design, number, args)
}

// What is printed of a case.
fn told(alloc: Global, design: &Design, line: &str) -> Result<Text, AllocError>
    requires design { IsDesign design.now }
    requires functions { design.now.functions ≡ functions.links [] functions.place 0 16 }
{
    let mut out = Text::new(Vec::new(alloc));
    match value_of(alloc, design, line) {
        Ok(value) => print(&value, &mut out)?,
        Err(Without::Words) => out.push_bytes(b"no case")?,
        Err(Without::Misfit) => out.push_bytes(b"no call")?,
        Err(Without::TooLong) => out.push_bytes(b"too long")?,
        Err(Without::Memory(refused)) => return Err(refused),
    }
    Ok(out)
}

fn main(rt: HostRuntime) -> io::Result<()> {
    let alloc = rt.alloc();
    let design = design_of_functions(alloc)?;
    for line in rt.lines(alloc) {
        let line = line?;
        let result = told(alloc, &design, line.as_str())?;
        match str::from_utf8(result.items()) {
            Ok(text) => println!(rt; "{line} => {text}")?,
            Err(_) => println!(rt; "{line} is told in no text")?,
        }
    }
    Ok(())
}
