//! Reads cases, one a line, and prints the value of each expression.
//!
//! A line begins with `value`, or with `local`, `element` or `time`, which set what the lines after it may read. An
//! expression stands in prefix form (words.rt).
#![tactic(auto)]

mod design;
mod fits;
mod trees;
mod words;

ghost use Rattle.std.specs.Prelude.{◌≡◌, []};
ghost use Rattle.nt_design.specs.WellFormed.{IsDesign};

use design::empty_design;
use fits::fits;
use nt_design::{Design, Env, Stop, Tree};
use nt_eval::meaning;
use nt_parts::int_value;
use nt_value::{Text, Value, print};
use sqlite_items::Items;
use std::alloc::{AllocError, Global};
use std::io;
use trees::tree;
use words::Unread;

// Why a case has no value.
#[derive(Debug, Drop)]
enum Without {
    Words,
    Misfit,
    TooLong,
    Memory(AllocError),
}

impl From<AllocError> for Without {
    fn from(e: AllocError) -> Without {
        Without::Memory(e)
    }
}

impl From<Unread> for Without {
    fn from(e: Unread) -> Without {
        match e {
            Unread::Words => Without::Words,
            Unread::Memory(refused) => Without::Memory(refused),
        }
    }
}

// The value of an expression that fits.
fn value_in(alloc: Global, design: &Design, env: &Env, tree: &Tree) -> Result<Value, Without>
    requires design { IsDesign design.now }
    requires nets { design.now.nets ≡ [] }
    requires vars { design.now.vars ≡ [] }
    requires functions { design.now.functions ≡ [] }
{
    if !fits(alloc, env, tree)? {
        return Err(Without::Misfit);
    }
    match meaning(alloc, design, tree, env) {
        Ok(value) => Ok(value),
        Err(Stop::TooLong) => Err(Without::TooLong),
        Err(Stop::OutOfMemory(refused)) => Err(Without::Memory(refused)),
    }
}

// The value of the expression that a text is.
fn value_of(alloc: Global, env: &Env, text: &str) -> Result<Value, Without> {
    let tree = tree(alloc, text)?;
    let design = empty_design(alloc);
    value_in(alloc, &design, env, tree.get())
}

// What a case gives, and what it sets.
fn tell(alloc: Global, env: &mut Env, line: &str, out: &mut Text) -> Result<(), Without> {
    let Some((sort, text)) = line.split_once(' ') else {
        return Err(Without::Words);
    };
    if sort == "time" {
        env.time = text.parse().ok().ok_or(Without::Words)?;
        return Ok(());
    }
    let value = value_of(alloc, env, text)?;
    match sort {
        "local" => env.locals.push(value)?,
        "element" => env.many.push(value)?,
        "value" => print(&value, out)?,
        _ => return Err(Without::Words),
    }
    Ok(())
}

// What is printed of a case.
fn told(alloc: Global, env: &mut Env, line: &str) -> Result<Text, AllocError> {
    let mut out = Text::new(Vec::new(alloc));
    match tell(alloc, env, line, &mut out) {
        Ok(()) => {}
        Err(Without::Words) => out.push_bytes(b"no case")?,
        Err(Without::Misfit) => out.push_bytes(b"no shape")?,
        Err(Without::TooLong) => out.push_bytes(b"too long")?,
        Err(Without::Memory(refused)) => return Err(refused),
    }
    Ok(out)
}

fn main(rt: HostRuntime) -> io::Result<()> {
    let alloc = rt.alloc();
    let mut env = Env {
        time: 0,
        nets: Items::new(alloc),
        vars: Items::new(alloc),
        locals: Items::new(alloc),
        many: Items::new(alloc),
    };
    env.many.push(int_value(alloc, 7)?)?;
    for line in rt.lines(alloc) {
        let line = line?;
        let result = told(alloc, &mut env, line.as_str())?;
        match str::from_utf8(result.items()) {
            Ok(text) => println!(rt; "{line} => {text}")?,
            Err(_) => println!(rt; "{line} is told in no text")?,
        }
    }
    Ok(())
}
