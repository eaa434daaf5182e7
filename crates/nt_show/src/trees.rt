// The trees of a text, or the refusal.
use crate::expressions::say_expr;
use crate::saying::Saying;
use crate::statements::say_stmt;
use nt_ast::{Expr, Stmt, copy_expr, copy_stmt};
use nt_diag::Fault;
use nt_lexer::{Head, MOST_BYTES, Token, tokens};
use nt_parse_expr::{Cursor, expression, statement};
use nt_texts::{expression_of, statement_of};
use nt_value::{Place, Text};
use sqlite_items::Boxed;
use std::alloc::{AllocError, Global};

// The tokens of a text, or none where it is no text of tokens.
fn cut(alloc: Global, text: &[u8]) -> Result<Vec<Token>, AllocError> {
    let mut head = Head {
        unit: None,
        count: 0,
    };
    if text.len() > MOST_BYTES as usize {
        return Ok(Vec::new(alloc));
    }
    match tokens(alloc, 0, text, &mut head) {
        Ok(list) => Ok(list),
        Err(Fault::Refused(_refusal)) => Ok(Vec::new(alloc)),
        Err(Fault::OutOfMemory(refused)) => Err(refused),
    }
}

// Adds the text of a tree, and a mark where that of its copy is another.
fn say_both(tree: &Text, copy: &Text, out: &mut Text) -> Result<(), AllocError> {
    out.push_bytes(tree.items())?;
    if tree.items() == copy.items() {
        return Ok(());
    }
    out.push_bytes(b" and its copy is another: ")?;
    out.push_bytes(copy.items())
}

fn said_expr(alloc: Global, expr: &Expr) -> Result<Text, AllocError> {
    let mut saying = Saying::new(alloc);
    say_expr(expr, &mut saying);
    saying.whole()
}

fn said_stmt(alloc: Global, stmt: &Stmt) -> Result<Text, AllocError> {
    let mut saying = Saying::new(alloc);
    say_stmt(stmt, &mut saying);
    saying.whole()
}

fn tell_expr(alloc: Global, expr: &Expr, out: &mut Text) -> Result<(), AllocError> {
    let first = said_expr(alloc, expr)?;
    let copy = Boxed::new(alloc, copy_expr(alloc, expr)?)?;
    let second = said_expr(alloc, copy.get())?;
    say_both(&first, &second, out)
}

fn tell_stmt(alloc: Global, stmt: &Stmt, out: &mut Text) -> Result<(), AllocError> {
    let first = said_stmt(alloc, stmt)?;
    let copy = Boxed::new(alloc, copy_stmt(alloc, stmt)?)?;
    let second = said_stmt(alloc, copy.get())?;
    say_both(&first, &second, out)
}

// The offset of the token at the cursor.
fn say_offset(cursor: &Cursor, out: &mut Text) -> Result<(), AllocError> {
    match cursor.tokens.get(cursor.at) {
        None => out.push_bytes(b"none"),
        Some(token) => out.push_number(u64::from(token.at.offset)),
    }
}

fn say_refused(place: Place, out: &mut Text) -> Result<(), AllocError> {
    out.push(b'!')?;
    out.push_number(u64::from(place.offset))
}

// Tells the expression at the cursor, and answers whether another may follow.
fn tell_one(alloc: Global, cursor: &mut Cursor, out: &mut Text) -> Result<bool, AllocError> {
    if cursor.tokens.len() <= cursor.at {
        out.push(b'!')?;
        return Ok(false);
    }
    match expression(alloc, cursor) {
        Ok(expr) => {
            let expr = Boxed::new(alloc, expr)?;
            tell_expr(alloc, expr.get(), out)?;
            out.push(b' ')?;
            say_offset(cursor, out)?;
            cursor.at = cursor.at.wrapping_add(1);
            Ok(cursor.at < cursor.tokens.len())
        }
        Err(Fault::Refused(refusal)) => {
            say_refused(refusal.place, out)?;
            Ok(false)
        }
        Err(Fault::OutOfMemory(refused)) => Err(refused),
    }
}

/// Adds each expression of the text with the offset where it ends. After a stop the next one is read, to the end or to a
/// refusal, which is its offset after `!`.
pub(crate) fn tell_exprs(alloc: Global, text: &[u8], out: &mut Text) -> Result<(), AllocError> {
    let mut cursor = Cursor {
        tokens: cut(alloc, text)?,
        at: 0,
    };
    for _turn in 0..text.len() {
        if !tell_one(alloc, &mut cursor, out)? {
            return Ok(());
        }
        out.push(b' ')?;
    }
    Ok(())
}

/// Adds the first statement of the text and the offset where it ends, or the offset of the refusal after `!`.
pub(crate) fn tell_first(alloc: Global, text: &[u8], out: &mut Text) -> Result<(), AllocError> {
    let mut cursor = Cursor {
        tokens: cut(alloc, text)?,
        at: 0,
    };
    if cursor.tokens.len() <= cursor.at {
        return out.push(b'!');
    }
    match statement(alloc, &mut cursor) {
        Ok(stmt) => {
            let stmt = Boxed::new(alloc, stmt)?;
            tell_stmt(alloc, stmt.get(), out)?;
            out.push(b' ')?;
            say_offset(&cursor, out)
        }
        Err(Fault::Refused(refusal)) => say_refused(refusal.place, out),
        Err(Fault::OutOfMemory(refused)) => Err(refused),
    }
}

/// Whether all of the text is one expression.
pub(crate) fn is_expression(alloc: Global, text: &[u8]) -> Result<bool, AllocError> {
    if text.len() > MOST_BYTES as usize {
        return Ok(false);
    }
    match expression_of(alloc, text) {
        Ok(_expr) => Ok(true),
        Err(Fault::Refused(_refusal)) => Ok(false),
        Err(Fault::OutOfMemory(refused)) => Err(refused),
    }
}

/// Whether all of the text is one statement.
pub(crate) fn is_statement(alloc: Global, text: &[u8]) -> Result<bool, AllocError> {
    if text.len() > MOST_BYTES as usize {
        return Ok(false);
    }
    match statement_of(alloc, text) {
        Ok(_stmt) => Ok(true),
        Err(Fault::Refused(_refusal)) => Ok(false),
        Err(Fault::OutOfMemory(refused)) => Err(refused),
    }
}
