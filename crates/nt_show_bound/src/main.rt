//! Binds expressions, one a line, and prints each with its typed tree or with the refusal.
//!
//! A line is an expression in a procedure; after `@`, one elsewhere; after a type and ` = `, an assignment to that type.
#![tactic(auto)]

mod kinds;
mod saying;
mod scope;
mod trees;

ghost use Rattle.std.specs.Prelude.{IfOk};
ghost use Rattle.nt_show_bound.specs.Usable.{MaybeUsable};
ghost use Rattle.nt_things.specs.Usable.{UsableScope};

use kinds::{byte, int, ints, logic, pair, pairs};
use nt_ast::Expr;
use nt_bind::bind_expr;
use nt_design::Tree;
use nt_diag::{Fault, Refusal};
use nt_kinds::Kind;
use nt_lexer::MOST_BYTES;
use nt_texts::expression_of;
use nt_typing::Scope;
use nt_value::Text;
use saying::Saying;
use scope::scope;
use sqlite_items::Boxed;
use std::alloc::{AllocError, Global};
use std::io;
use trees::say_tree;

// The type of this name.
fn target(alloc: Global, name: &[u8]) -> Result<Option<Kind>, AllocError>
    ensures { IfOk result (λ k. MaybeUsable k) }
{
    match name {
        b"int" => Ok(Some(int())),
        b"byte" => Ok(Some(byte())),
        b"bits" => Ok(Some(logic(8, 7, 0))),
        b"pair" => pair(alloc),
        b"ints" => ints(alloc, 0, 2),
        b"pairs" => pairs(alloc, 0, 1),
        _ => Ok(None),
    }
}

fn say_refusal(refusal: &Refusal, out: &mut Saying) {
    out.put(refusal.rule.code().as_bytes());
    out.put(b" at ");
    out.number(u64::from(refusal.place.column));
}

fn say(bound: Result<Boxed<Tree>, Fault>, out: &mut Saying) -> Result<(), AllocError> {
    match bound {
        Ok(tree) => {
            say_tree(tree.get(), out);
            Ok(())
        }
        Err(Fault::Refused(refusal)) => {
            say_refusal(&refusal, out);
            Ok(())
        }
        Err(Fault::OutOfMemory(refused)) => Err(refused),
    }
}

// The expression of a text, if it is one.
fn read(alloc: Global, text: &[u8]) -> Result<Option<Boxed<Expr>>, AllocError> {
    if text.len() > MOST_BYTES as usize {
        return Ok(None);
    }
    match expression_of(alloc, text) {
        Ok(expr) => Ok(Some(Boxed::new(alloc, expr)?)),
        Err(Fault::Refused(_refusal)) => Ok(None),
        Err(Fault::OutOfMemory(refused)) => Err(refused),
    }
}

fn told_text(
    alloc: Global,
    scope: &Scope,
    text: &[u8],
    to: Option<Kind>,
) -> Result<Text, AllocError>
    requires scope { UsableScope scope.now }
    requires to { MaybeUsable to }
{
    let mut out = Saying::new(alloc);
    match read(alloc, text)? {
        None => out.put(b"no expression"),
        Some(expr) => match to {
            None => say(bind_expr(alloc, scope, expr.get(), None), &mut out)?,
            Some(kind) => say(bind_expr(alloc, scope, expr.get(), Some(&kind)), &mut out)?,
        },
    }
    out.whole()
}

// What is printed of a line.
fn told(alloc: Global, line: &str) -> Result<Text, AllocError> {
    if let Some(text) = line.strip_prefix("@") {
        let elsewhere = scope(alloc, false)?;
        return told_text(alloc, &elsewhere, text.as_bytes(), None);
    }
    let procedure = scope(alloc, true)?;
    match line.split_once(" = ") {
        None => told_text(alloc, &procedure, line.as_bytes(), None),
        Some((name, text)) => {
            let to = target(alloc, name.as_bytes())?;
            told_text(alloc, &procedure, text.as_bytes(), to)
        }
    }
}

fn main(rt: HostRuntime) -> io::Result<()> {
    let alloc = rt.alloc();
    for line in rt.lines(alloc) {
        let line = line?;
        let result = told(alloc, line.as_str())?;
        match str::from_utf8(result.items()) {
            Ok(text) => println!(rt; "{line} => {text}")?,
            Err(_) => println!(rt; "{line} is told in no text")?,
        }
    }
    Ok(())
}
