// Expressions in prefix form: an operator, then its operands. `neg`, `pos` and `r` before an operator say that it has one
// operand. A constant is a leaf, a colon and a value. `{` and `gather` end with `}`. Numbers stand in the word itself, after
// colons: `local:N`, `leaves:FIRST:COUNT`, `item:LOW:SIZE:up` or `down` (an array, then its index), `part:WIDTH` (a leaf, then the
// least digit), `to:LEAF`.
use crate::words::{
    Unread, arithmetic_named, bits_of, comparison_named, leaf_of, some, unary_named,
};
use nt_design::Tree;
use nt_parts::of_bits;
use nt_value::{Binary, Unary};
use sqlite_items::{Boxed, Items};
use std::alloc::{AllocError, Global};

// An expression, or the end of several.
#[derive(Drop)]
enum Read {
    Tree(Boxed<Tree>),
    End,
}

fn pop(trees: &mut Vec<Read>) -> Result<Boxed<Tree>, Unread> {
    match trees.pop() {
        Some(Read::Tree(tree)) => Ok(tree),
        Some(Read::End) | None => Err(Unread::Words),
    }
}

fn put(trees: &mut Vec<Read>, read: Read) -> Result<(), Unread> {
    match trees.push(read) {
        Ok(()) => Ok(()),
        Err(e) => Err(Unread::Memory(AllocError::from(e))),
    }
}

fn push(alloc: Global, trees: &mut Vec<Read>, tree: Tree) -> Result<(), Unread> {
    put(trees, Read::Tree(Boxed::new(alloc, tree)?))
}

// Several up to their end.
fn several(alloc: Global, trees: &mut Vec<Read>) -> Result<Items<Tree>, Unread> {
    let mut parts = Items::new(alloc);
    for _i in 0..trees.len() {
        match trees.pop() {
            Some(Read::Tree(tree)) => parts.push(tree.into_inner())?,
            Some(Read::End) => return Ok(parts),
            None => return Err(Unread::Words),
        }
    }
    Err(Unread::Words)
}

fn read_unary(alloc: Global, trees: &mut Vec<Read>, op: Unary) -> Result<(), Unread> {
    let of = pop(trees)?;
    push(alloc, trees, Tree::Unary { op, of })
}

fn read_binary(alloc: Global, trees: &mut Vec<Read>, op: Binary) -> Result<(), Unread> {
    let left = pop(trees)?;
    let right = pop(trees)?;
    push(alloc, trees, Tree::Binary { op, left, right })
}

fn read_choose(alloc: Global, trees: &mut Vec<Read>) -> Result<(), Unread> {
    let test = pop(trees)?;
    let yes = pop(trees)?;
    let no = pop(trees)?;
    push(alloc, trees, Tree::Choose { test, yes, no })
}

fn read_leaves(alloc: Global, trees: &mut Vec<Read>, text: &str) -> Result<(), Unread> {
    let (first, count) = some(text.split_once(':'))?;
    let first = some(first.parse().ok())?;
    let count = some(count.parse().ok())?;
    let of = pop(trees)?;
    push(alloc, trees, Tree::Leaves { of, first, count })
}

fn read_item(alloc: Global, trees: &mut Vec<Read>, text: &str) -> Result<(), Unread> {
    let (low, rest) = some(text.split_once(':'))?;
    let (size, way) = some(rest.split_once(':'))?;
    let low = some(low.parse().ok())?;
    let size = some(size.parse().ok())?;
    let up = way == "up";
    let of = pop(trees)?;
    let index = pop(trees)?;
    push(
        alloc,
        trees,
        Tree::Item {
            of,
            index,
            low,
            size,
            up,
        },
    )
}

fn read_part(alloc: Global, trees: &mut Vec<Read>, text: &str) -> Result<(), Unread> {
    let width = some(text.parse().ok())?;
    let of = pop(trees)?;
    let low = pop(trees)?;
    push(alloc, trees, Tree::Part { of, low, width })
}

fn read_to(alloc: Global, trees: &mut Vec<Read>, text: &str) -> Result<(), Unread> {
    let to = some(leaf_of(text))?;
    let of = pop(trees)?;
    push(alloc, trees, Tree::Resize { of, to })
}

fn read_local(alloc: Global, trees: &mut Vec<Read>, text: &str) -> Result<(), Unread> {
    let local = some(text.parse().ok())?;
    push(alloc, trees, Tree::Local(local))
}

fn read_const(alloc: Global, trees: &mut Vec<Read>, leaf: &str, value: &str) -> Result<(), Unread> {
    let bits = some(bits_of(leaf, value))?;
    push(alloc, trees, Tree::Const(of_bits(alloc, bits)?))
}

// A word with a colon.
fn read_with(alloc: Global, trees: &mut Vec<Read>, word: &str) -> Result<(), Unread> {
    let (name, text) = some(word.split_once(':'))?;
    match name {
        "local" => read_local(alloc, trees, text),
        "leaves" => read_leaves(alloc, trees, text),
        "item" => read_item(alloc, trees, text),
        "part" => read_part(alloc, trees, text),
        "to" => read_to(alloc, trees, text),
        _ => read_const(alloc, trees, name, text),
    }
}

fn read_operator(alloc: Global, trees: &mut Vec<Read>, word: &str) -> Result<(), Unread> {
    if let Some(op) = unary_named(word) {
        return read_unary(alloc, trees, op);
    }
    if let Some(op) = arithmetic_named(word) {
        return read_binary(alloc, trees, op);
    }
    if let Some(op) = comparison_named(word) {
        return read_binary(alloc, trees, op);
    }
    read_with(alloc, trees, word)
}

// Words are read from the last to the first, so that the operands of each stand above in their order.
fn read_word(alloc: Global, trees: &mut Vec<Read>, word: &str) -> Result<(), Unread> {
    match word {
        "}" => put(trees, Read::End),
        "?" => read_choose(alloc, trees),
        "{" => {
            let parts = several(alloc, trees)?;
            push(alloc, trees, Tree::Concat { parts })
        }
        "gather" => {
            let parts = several(alloc, trees)?;
            push(alloc, trees, Tree::Gather { parts })
        }
        "element" => {
            let index = pop(trees)?;
            push(alloc, trees, Tree::Element { index })
        }
        "size" => push(alloc, trees, Tree::Size),
        "time" => push(alloc, trees, Tree::Time),
        _ => read_operator(alloc, trees, word),
    }
}

// A word, and how often it stands: `N*WORD` is N times the word.
fn counted(word: &str) -> (u32, &str) {
    let Some((count, rest)) = word.split_once('*') else {
        return (1, word);
    };
    match count.parse() {
        Ok(count) => (count, rest),
        Err(_) => (1, word),
    }
}

fn read_words(alloc: Global, trees: &mut Vec<Read>, words: &str) -> Result<(), Unread> {
    let (count, word) = counted(words);
    for _i in 0..count {
        read_word(alloc, trees, word)?;
    }
    Ok(())
}

/// The expression that a text is.
pub(crate) fn tree(alloc: Global, text: &str) -> Result<Boxed<Tree>, Unread> {
    let words: Vec<&str> = text.split(' ').collect(alloc)?;
    let mut trees = Vec::new(alloc);
    for word in words.iter().rev() {
        read_words(alloc, &mut trees, word)?;
    }
    let tree = pop(&mut trees)?;
    if trees.is_empty() {
        Ok(tree)
    } else {
        Err(Unread::Words)
    }
}
