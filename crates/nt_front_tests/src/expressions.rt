// Expressions of many tokens, and the deepest.
use nt_ast::{Expr, copy_expr};
use nt_diag::Fault;
use nt_lexer::{Mark, Token, TokenKind};
use nt_parse_expr::{Cursor, expression};
use nt_texts::expression_of;
use nt_value::{Place, Text};
use sqlite_items::Boxed;
use std::alloc::{AllocError, Global};
use std::test::Fail;

// The expression at the cursor, or none where it is refused. The place is then that of the refusal.
fn read_one(
    alloc: Global,
    cursor: &mut Cursor,
    place: &mut Option<Place>,
) -> Result<Option<Boxed<Expr>>, AllocError> {
    if cursor.tokens.len() <= cursor.at {
        return Ok(None);
    }
    match expression(alloc, cursor) {
        Ok(expr) => Ok(Some(Boxed::new(alloc, expr)?)),
        Err(Fault::Refused(refusal)) => {
            *place = Some(refusal.place);
            Ok(None)
        }
        Err(Fault::OutOfMemory(refused)) => Err(refused),
    }
}

fn push_times(times: u32, part: &[u8], out: &mut Text) -> Result<(), AllocError> {
    for _turn in 0..times {
        out.push_bytes(part)?;
    }
    Ok(())
}

// The expression that is all of a text, or none.
fn read_all(alloc: Global, text: &[u8]) -> Result<Option<Boxed<Expr>>, AllocError> {
    if 4000000 < text.len() {
        return Ok(None);
    }
    match expression_of(alloc, text) {
        Ok(expr) => Ok(Some(Boxed::new(alloc, expr)?)),
        Err(Fault::Refused(_refusal)) => Ok(None),
        Err(Fault::OutOfMemory(refused)) => Err(refused),
    }
}

const HERE: Place = Place {
    file: 2,
    offset: 7,
    line: 1,
    column: 8,
};

#[test]
fn a_million_brackets_are_refused(rt: HostRuntime) -> Result<(), Fail> {
    let alloc = rt.alloc();
    let mut list = Vec::new(alloc);
    for _turn in 0..1000000u32 {
        list.push(Token {
            kind: TokenKind::Mark(Mark::LeftParen),
            at: HERE,
        })?;
    }
    let mut cursor = Cursor {
        tokens: list,
        at: 0,
    };
    let mut refused = None;
    assert!(rt; read_one(alloc, &mut cursor, &mut refused)?.is_none());
    assert!(rt; refused == Some(HERE));
    assert_eq!(rt; cursor.at, 0);
    Ok(())
}

// 64 open nodes in one another, with so many members and then 64 operators after each.
fn push_nested(
    opening: &[u8],
    closing: &[u8],
    members: u32,
    out: &mut Text,
) -> Result<(), AllocError> {
    push_times(64, opening, out)?;
    out.push(b'b')?;
    push_times(64, b"+c", out)?;
    for _turn in 0..64u32 {
        out.push_bytes(closing)?;
        push_times(members, b".m", out)?;
        push_times(64, b"+c", out)?;
    }
    Ok(())
}

// Whether an expression is read. It is copied too, and both trees are dropped.
fn is_read_and_copied(alloc: Global, text: &[u8]) -> Result<bool, AllocError> {
    match read_all(alloc, text)? {
        None => Ok(false),
        Some(expr) => {
            let _copy = Boxed::new(alloc, copy_expr(alloc, expr.get())?)?;
            Ok(true)
        }
    }
}

#[test]
fn a_very_deep_tree_is_read_and_copied(rt: HostRuntime) -> Result<(), Fail> {
    let alloc = rt.alloc();
    let mut text = Text::new(Vec::new(alloc));
    push_nested(b"a[", b"]", 63, &mut text)?;
    assert!(rt; is_read_and_copied(alloc, text.items())?);
    Ok(())
}
