//! Reads cases, one a line, and prints each with what it gives: tokens, trees, values or refusals.
//!
//! The first word of a line says what its text is: `tokens`, `expression`, `statement`, `constant`, `value`, or `name`, which
//! makes a name known to the constants and values after it. `expressions` and `statements` stand before a number and parts, which tell a
//! longer text: whether it is one. In a text `\\n`, `\\t`, `\\\\` and `\\xHH` stand for bytes.
#![tactic(auto)]

mod constants;
mod escapes;
mod expressions;
mod limits;
mod saying;
mod statements;
mod tokens;
mod trees;
mod words;

use constants::{Unread, name_line, tell_constant, tell_value};
use escapes::{escaped, unescaped};
use limits::{Sort, tell_limit};
use nt_const::Constants;
use nt_value::Text;
use std::alloc::{AllocError, Global};
use std::io;
use tokens::tell_tokens;
use trees::{tell_exprs, tell_first};

// What a case gives.
fn tell(alloc: Global, known: &mut Constants, line: &str, out: &mut Text) -> Result<(), Unread> {
    let Some((sort, text)) = line.split_once(' ') else {
        return Err(Unread::Words);
    };
    match sort {
        "tokens" => tell_tokens(alloc, unescaped(alloc, text)?.items(), out)?,
        "expression" => tell_exprs(alloc, unescaped(alloc, text)?.items(), out)?,
        "statement" => tell_first(alloc, unescaped(alloc, text)?.items(), out)?,
        "expressions" => tell_limit(alloc, Sort::Expression, text, out)?,
        "statements" => tell_limit(alloc, Sort::Statement, text, out)?,
        "constant" => tell_constant(alloc, known, text, out)?,
        "value" => tell_value(alloc, known, unescaped(alloc, text)?.items(), out)?,
        "name" => name_line(alloc, known, text)?,
        _ => return Err(Unread::Words),
    }
    Ok(())
}

// What is printed of a case.
fn told(alloc: Global, known: &mut Constants, line: &str) -> Result<Text, AllocError> {
    let mut out = Text::new(Vec::new(alloc));
    match tell(alloc, known, line, &mut out) {
        Ok(()) => escaped(alloc, out.items()),
        Err(Unread::Words) => {
            let mut no_case = Text::new(Vec::new(alloc));
            no_case.push_bytes(b"no case")?;
            Ok(no_case)
        }
        Err(Unread::Memory(refused)) => Err(refused),
    }
}

fn main(rt: HostRuntime) -> io::Result<()> {
    let alloc = rt.alloc();
    let mut known = Constants::new(alloc);
    for line in rt.lines(alloc) {
        let line = line?;
        let result = told(alloc, &mut known, line.as_str())?;
        match str::from_utf8(result.items()) {
            Ok(text) => println!(rt; "{line} => {text}")?,
            Err(_) => println!(rt; "{line} is told in no text")?,
        }
    }
    Ok(())
}
