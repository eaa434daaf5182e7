//! Reads declarations, one a line, and prints each with its type or with the refusal.
//!
//! A line is a type, a name and its dimensions, as of a variable. The constants W, 4, M, -1, U, an unknown bit, and BIG, 2^32, are known; `word` is
//! a type, `obj` something that is neither, and `two` what two imports give.
#![tactic(auto)]

mod kinds;
mod names;

use kinds::say_kind;
use names::{Known, constants};
use nt_ast::{Declared, TypeTree};
use nt_diag::{Fault, Refusal};
use nt_lexer::{Head, MOST_BYTES, Token, TokenKind, tokens};
use nt_read_expr::Stop;
use nt_read_unit::{named_in, type_in};
use nt_type_trees::{kind_of_declared, kind_of_type, shape_of_type};
use nt_value::Text;
use sqlite_items::Boxed;
use std::alloc::{AllocError, Global};
use std::io;

const LIMIT: u32 = 64;

// The tokens of a line, or none where it is no text of tokens.
fn cut(alloc: Global, line: &[u8]) -> Result<Vec<Token>, AllocError> {
    let mut head = Head {
        unit: None,
        count: 0,
    };
    if line.len() > MOST_BYTES as usize {
        return Ok(Vec::new(alloc));
    }
    match tokens(alloc, 0, line, &mut head) {
        Ok(list) => Ok(list),
        Err(Fault::Refused(_refusal)) => Ok(Vec::new(alloc)),
        Err(Fault::OutOfMemory(refused)) => Err(refused),
    }
}

fn is_end(rest: &[Token]) -> bool {
    match rest {
        [token] => matches!(&token.kind, TokenKind::End),
        _ => false,
    }
}

// A type and a name, where that is all.
fn read(
    alloc: Global,
    tokens: &[Token],
) -> Result<Option<(Boxed<TypeTree>, Boxed<Declared>)>, AllocError> {
    let (tree, rest) = match type_in(alloc, LIMIT, LIMIT, tokens) {
        Ok(read) => read,
        Err(_) => return Ok(None),
    };
    let (what, rest) = match named_in(alloc, LIMIT, LIMIT, rest) {
        Ok(read) => read,
        Err(_) => return Ok(None),
    };
    if is_end(rest) {
        Ok(Some((tree, what)))
    } else {
        Ok(None)
    }
}

fn say_refusal(refusal: &Refusal, out: &mut Text) -> Result<(), AllocError> {
    out.push_bytes(refusal.rule.code().as_bytes())?;
    out.push_bytes(b" at ")?;
    out.push_number(u64::from(refusal.place.column))
}

// How many leaves the type has without the dimensions.
fn say_shape(
    alloc: Global,
    names: &Known,
    tree: &TypeTree,
    out: &mut Text,
) -> Result<(), AllocError> {
    match shape_of_type(alloc, tree, names) {
        Ok(shape) => {
            out.push_bytes(b" of ")?;
            out.push_number(shape.items().len() as u64)
        }
        Err(_) => out.push_bytes(b" of none"),
    }
}

// Whether the type without the dimensions is equivalent to the whole.
fn is_alike(alloc: Global, names: &Known, tree: &TypeTree, what: &Declared) -> bool {
    match (
        kind_of_type(alloc, tree, names),
        kind_of_declared(alloc, tree, what.dims.as_slice(), names),
    ) {
        (Ok(a), Ok(b)) => a.is_small() && b.is_small() && a.equivalent(&b),
        _ => false,
    }
}

fn say(
    alloc: Global,
    names: &Known,
    tree: &TypeTree,
    what: &Declared,
    out: &mut Text,
) -> Result<(), AllocError> {
    match kind_of_declared(alloc, tree, what.dims.as_slice(), names) {
        Ok(kind) => {
            say_kind(&kind, out)?;
            say_shape(alloc, names, tree, out)?;
            if is_alike(alloc, names, tree, what) {
                out.push_bytes(b" alike")?;
            }
            Ok(())
        }
        Err(Fault::Refused(refusal)) => say_refusal(&refusal, out),
        Err(Fault::OutOfMemory(refused)) => Err(refused),
    }
}

// What is printed of a line.
fn told(alloc: Global, names: &Known, line: &[u8]) -> Result<Text, AllocError> {
    let mut out = Text::new(Vec::new(alloc));
    let list = cut(alloc, line)?;
    match read(alloc, &list)? {
        None => out.push_bytes(b"no type and name")?,
        Some((tree, what)) => say(alloc, names, tree.get(), what.get(), &mut out)?,
    }
    Ok(out)
}

fn main(rt: HostRuntime) -> io::Result<()> {
    let alloc = rt.alloc();
    let names = constants(alloc)?;
    for line in rt.lines(alloc) {
        let line = line?;
        let result = told(alloc, &names, line.as_str().as_bytes())?;
        match str::from_utf8(result.items()) {
            Ok(text) => println!(rt; "{line} => {text}")?,
            Err(_) => println!(rt; "{line} is told in no text")?,
        }
    }
    Ok(())
}
