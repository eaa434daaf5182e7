// Files of many items, and of many opening structures.

use nt_diag::{Fault, Refusal, Rule};
use nt_items::{FunctionItem, Item, copy_function};
use nt_lexer::{Head, Mark, Token, TokenKind, Word, tokens};
use nt_parse_unit::source_text;
use nt_value::{Name, Place};
use std::alloc::{AllocError, Global};
use std::test::Fail;

const HERE: Place = Place {
    file: 3,
    offset: 7,
    line: 2,
    column: 4,
};

fn push(list: &mut Vec<Token>, kind: TokenKind) -> Result<(), AllocError> {
    list.push(Token { kind, at: HERE })?;
    Ok(())
}

fn push_word(list: &mut Vec<Token>, word: Word) -> Result<(), AllocError> {
    push(list, TokenKind::Word(word))
}

fn push_mark(list: &mut Vec<Token>, mark: Mark) -> Result<(), AllocError> {
    push(list, TokenKind::Mark(mark))
}

fn push_name(alloc: Global, list: &mut Vec<Token>) -> Result<(), AllocError> {
    push(list, TokenKind::Name(Name::from_slice(alloc, b"a")?))
}

#[test]
fn a_million_open_structures_are_refused(rt: HostRuntime) -> Result<(), Fail> {
    let alloc = rt.alloc();
    let mut list = Vec::new(alloc);
    push_word(&mut list, Word::Typedef)?;
    for _turn in 0..1000000u32 {
        push_word(&mut list, Word::Struct)?;
        push_mark(&mut list, Mark::LeftBrace)?;
    }
    push(&mut list, TokenKind::End)?;
    match source_text(alloc, &list) {
        Err(Fault::Refused(Refusal { rule, place })) => {
            assert!(rt; rule == Rule::S1);
            assert!(rt; place.file == 3);
            assert!(rt; place.line == 1);
            assert!(rt; place.column == 1);
        }
        _ => assert!(rt; false),
    }
    Ok(())
}

#[test]
fn a_million_items_are_read(rt: HostRuntime) -> Result<(), Fail> {
    let alloc = rt.alloc();
    let mut list = Vec::new(alloc);
    push_word(&mut list, Word::Module)?;
    push_name(alloc, &mut list)?;
    push_mark(&mut list, Mark::Semicolon)?;
    for _turn in 0..1000000u32 {
        push_word(&mut list, Word::Wire)?;
        push_name(alloc, &mut list)?;
        push_mark(&mut list, Mark::Semicolon)?;
    }
    push_word(&mut list, Word::EndModule)?;
    push(&mut list, TokenKind::End)?;
    let Ok(units) = source_text(alloc, &list) else {
        assert!(rt; false);
        return Ok(());
    };
    match units.items.as_slice() {
        [Item::Module { items, .. }] => assert!(rt; items.len() == 1000000),
        _ => assert!(rt; false),
    }
    Ok(())
}

// The function that stands first.
fn first_function(items: &[Item]) -> Option<&FunctionItem> {
    match items {
        [Item::Function(item), ..] => Some(item),
        _ => None,
    }
}

#[test]
fn copies_a_function(rt: HostRuntime) -> Result<(), Fail> {
    let alloc = rt.alloc();
    let mut head = Head {
        unit: None,
        count: 0,
    };
    let text = b"function automatic int f(input int d[]); int a = 1; f = d[0]; endfunction";
    let Ok(list) = tokens(alloc, 0, text, &mut head) else {
        assert!(rt; false);
        return Ok(());
    };
    let Ok(units) = source_text(alloc, &list) else {
        assert!(rt; false);
        return Ok(());
    };
    let Some(item) = first_function(units.items.as_slice()) else {
        assert!(rt; false);
        return Ok(());
    };
    let copy = copy_function(alloc, item)?;
    assert!(rt; copy.automatic);
    assert!(rt; copy.name.items() == b"f".as_slice());
    assert!(rt; copy.args.len() == 1);
    assert!(rt; copy.locals.len() == 1);
    assert!(rt; copy.body.len() == 1);
    Ok(())
}
