// Constant expressions in prefix form: an operator, then its operands. `neg`, `pos` and `r` before an operator say that it
// has one operand, `[]`, `[:]`, `[+:]` and `[-:]` are selects, `{`, `rep`, `call` and `pattern` end with `}`, and `rep`
// begins with its count. A literal is written as in the language. An expression's place is the number of its first word in
// the order of the source: an operator between two operands begins where the first of them does.
//
// A leaf is s or u for its sign, its width, and t with the number of its states.
ghost use Rattle.std.specs.Prelude.{◌≡◌, true, IfSome};
ghost use Rattle.nt_value.specs.Digits.{IsLeaf};
ghost use Rattle.nt_const.specs.Answers.{IsTarget};

use nt_ast::{Expr, Path};
use nt_const::{Constants, constant, width_and_sign};
use nt_diag::Fault;
use nt_lexer::MOST_BYTES;
use nt_texts::constant_of;
use nt_value::{Binary, Bits, Digit, Leaf, Literal, Name, Place, Text, Unary, print_leaf, unary};
use sqlite_items::{Boxed, Items};
use std::alloc::{AllocError, Global};

// Why a case is not read.
#[derive(Debug, Drop)]
pub(crate) enum Unread {
    Words,
    Memory(AllocError),
}

impl From<AllocError> for Unread {
    fn from(e: AllocError) -> Unread {
        Unread::Memory(e)
    }
}

fn some<T: Drop>(value: Option<T>) -> Result<T, Unread> {
    value.ok_or(Unread::Words)
}

// Whether a word is the first of two, and `None` where it is neither.
fn is_first(word: &str, first: &str, second: &str) -> Option<bool> {
    if word == first {
        return Some(true);
    }
    if word == second { Some(false) } else { None }
}

fn leaf_of(text: &str) -> Option<Leaf>
    ensures { IfSome result (λ leaf. IsLeaf leaf) }
{
    let (sign, rest) = text.split_at_checked(1)?;
    let (width, states) = rest.split_once('t')?;
    let leaf = Leaf {
        width: width.parse().ok()?,
        signed: is_first(sign, "s", "u")?,
        four: is_first(states, "4", "2")?,
    };
    if leaf.is_valid() { Some(leaf) } else { None }
}

fn digit_of(code: u8) -> Option<Digit> {
    match code {
        b'0' => Some(Digit::Zero),
        b'1' => Some(Digit::One),
        b'x' => Some(Digit::X),
        b'z' => Some(Digit::Z),
        _ => None,
    }
}

// The digit that stands above all that are written.
fn above(text: &[u8]) -> Option<Digit> {
    let first = digit_of(*text.first()?)?;
    if first.is_known() {
        Some(Digit::Zero)
    } else {
        Some(first)
    }
}

// The least significant digit stands last.
fn digits(leaf: Leaf, text: &[u8]) -> Option<Bits>
    requires { IsLeaf leaf }
    ensures { IfSome result (λ bits. bits.leaf ≡ leaf) }
{
    let mut bits = Bits::zero(leaf);
    let mut rest = text;
    for at in 0..leaf.width {
        let digit = match rest.split_last() {
            Some((last, front)) => {
                rest = front;
                digit_of(*last)?
            }
            None => above(text)?,
        };
        if !leaf.four && !digit.is_known() {
            return None;
        }
        bits = bits.with_digit(at, digit);
    }
    Some(bits)
}

// The lowest digits of a number.
fn number(leaf: Leaf, number: u64) -> Bits
    requires { IsLeaf leaf }
    ensures { result.leaf ≡ leaf }
{
    let mut bits = Bits::zero(leaf);
    for at in 0..leaf.width {
        if number >> at & 1 == 1 {
            bits = bits.with_digit(at, Digit::One);
        }
    }
    bits
}

fn value_of(leaf: Leaf, text: &str) -> Option<Bits>
    requires { IsLeaf leaf }
{
    match text.split_at_checked(1)? {
        ("b", rest) => digits(leaf, rest.as_bytes()),
        ("-", rest) => Some(unary(Unary::Minus, number(leaf, rest.parse().ok()?))),
        _ => Some(number(leaf, text.parse().ok()?)),
    }
}

fn bits_of(leaf: &str, value: &str) -> Option<Bits> {
    value_of(leaf_of(leaf)?, value)
}

const BIT: Leaf = Leaf {
    width: 1,
    signed: false,
    four: true,
};

const INTEGER: Leaf = Leaf {
    width: 32,
    signed: true,
    four: true,
};

// The bits of a based literal from its sign on.
fn based(width: u8, text: &str) -> Option<Bits> {
    let (signed, rest) = match text.strip_prefix('s') {
        Some(rest) => (true, rest),
        None => (false, text),
    };
    let leaf = Leaf {
        width,
        signed,
        four: true,
    };
    if !leaf.is_valid() {
        return None;
    }
    match rest.strip_prefix('d') {
        Some(decimal) => Some(number(leaf, decimal.parse().ok()?)),
        None => digits(leaf, rest.strip_prefix('b')?.as_bytes()),
    }
}

fn literal(bits: Bits, sized: bool, fill: bool) -> Literal {
    Literal { bits, sized, fill }
}

fn literal_of(text: &str) -> Option<Literal> {
    match text.split_once('\'') {
        None => Some(literal(number(INTEGER, text.parse().ok()?), false, false)),
        Some(("", rest)) => match rest {
            "0" | "1" | "x" | "z" => Some(literal(digits(BIT, rest.as_bytes())?, false, true)),
            _ => Some(literal(based(32, rest)?, false, false)),
        },
        Some((size, rest)) => Some(literal(based(size.parse().ok()?, rest)?, true, false)),
    }
}

fn unary_named(name: &str) -> Option<Unary> {
    match name {
        "pos" => Some(Unary::Plus),
        "neg" => Some(Unary::Minus),
        "~" => Some(Unary::Not),
        "!" => Some(Unary::LogicalNot),
        "r&" => Some(Unary::RedAnd),
        "r~&" => Some(Unary::RedNand),
        "r|" => Some(Unary::RedOr),
        "r~|" => Some(Unary::RedNor),
        "r^" => Some(Unary::RedXor),
        "r~^" => Some(Unary::RedXnor),
        _ => None,
    }
}

fn arithmetic_named(name: &str) -> Option<Binary> {
    match name {
        "+" => Some(Binary::Add),
        "-" => Some(Binary::Sub),
        "*" => Some(Binary::Mul),
        "/" => Some(Binary::Div),
        "%" => Some(Binary::Rem),
        "&" => Some(Binary::And),
        "|" => Some(Binary::Or),
        "^" => Some(Binary::Xor),
        "~^" => Some(Binary::Xnor),
        "<<" => Some(Binary::Shl),
        ">>" => Some(Binary::Shr),
        ">>>" => Some(Binary::Sshr),
        _ => None,
    }
}

fn comparison_named(name: &str) -> Option<Binary> {
    match name {
        "<" => Some(Binary::Lt),
        "<=" => Some(Binary::Le),
        ">" => Some(Binary::Gt),
        ">=" => Some(Binary::Ge),
        "==" => Some(Binary::Eq),
        "!=" => Some(Binary::Ne),
        "===" => Some(Binary::CaseEq),
        "!==" => Some(Binary::CaseNe),
        "&&" => Some(Binary::LogicalAnd),
        "||" => Some(Binary::LogicalOr),
        _ => None,
    }
}

fn place(offset: u32) -> Place {
    Place {
        file: 0,
        offset,
        line: 1,
        column: 1,
    }
}

// An expression with its place, or the end of several.
#[derive(Drop)]
enum Read {
    Tree(u32, Expr),
    End,
}

fn pop(trees: &mut Vec<Read>) -> Result<(u32, Expr), Unread> {
    match trees.pop() {
        Some(Read::Tree(at, expr)) => Ok((at, expr)),
        Some(Read::End) | None => Err(Unread::Words),
    }
}

fn put(trees: &mut Vec<Read>, read: Read) -> Result<(), Unread> {
    match trees.push(read) {
        Ok(()) => Ok(()),
        Err(e) => Err(Unread::Memory(AllocError::from(e))),
    }
}

fn push(trees: &mut Vec<Read>, at: u32, expr: Expr) -> Result<(), Unread> {
    put(trees, Read::Tree(at, expr))
}

// Several up to their end.
fn several(alloc: Global, trees: &mut Vec<Read>) -> Result<Items<Expr>, Unread> {
    let mut parts = Items::new(alloc);
    for _i in 0..trees.len() {
        match trees.pop() {
            Some(Read::Tree(_, expr)) => parts.push(expr)?,
            Some(Read::End) => return Ok(parts),
            None => return Err(Unread::Words),
        }
    }
    Err(Unread::Words)
}

fn path(alloc: Global, at: u32, word: &str) -> Result<Path, Unread> {
    let (scope, name) = match word.split_once("::") {
        Some((scope, name)) => (Some(Name::from_slice(alloc, scope.as_bytes())?), name),
        None => (None, word),
    };
    Ok(Path {
        at: place(at),
        scope,
        name: Name::from_slice(alloc, name.as_bytes())?,
    })
}

fn read_leaf(alloc: Global, trees: &mut Vec<Read>, at: u32, word: &str) -> Result<(), Unread> {
    let expr = match literal_of(word) {
        Some(value) => Expr::Literal {
            at: place(at),
            value,
        },
        None => Expr::Read {
            at: place(at),
            path: path(alloc, at, word)?,
        },
    };
    push(trees, at, expr)
}

fn read_unary(alloc: Global, trees: &mut Vec<Read>, at: u32, op: Unary) -> Result<(), Unread> {
    let (_, of) = pop(trees)?;
    let of = Boxed::new(alloc, of)?;
    push(
        trees,
        at,
        Expr::Unary {
            at: place(at),
            op,
            of,
        },
    )
}

fn read_binary(alloc: Global, trees: &mut Vec<Read>, op: Binary) -> Result<(), Unread> {
    let (at, left) = pop(trees)?;
    let left = Boxed::new(alloc, left)?;
    let (_, right) = pop(trees)?;
    let right = Boxed::new(alloc, right)?;
    push(
        trees,
        at,
        Expr::Binary {
            at: place(at),
            op,
            left,
            right,
        },
    )
}

fn read_boxed(alloc: Global, trees: &mut Vec<Read>) -> Result<Boxed<Expr>, Unread> {
    let (_, expr) = pop(trees)?;
    Ok(Boxed::new(alloc, expr)?)
}

fn read_choose(alloc: Global, trees: &mut Vec<Read>) -> Result<(), Unread> {
    let (at, test) = pop(trees)?;
    let test = Boxed::new(alloc, test)?;
    let yes = read_boxed(alloc, trees)?;
    let no = read_boxed(alloc, trees)?;
    push(
        trees,
        at,
        Expr::Choose {
            at: place(at),
            test,
            yes,
            no,
        },
    )
}

fn read_item(alloc: Global, trees: &mut Vec<Read>) -> Result<(), Unread> {
    let (at, of) = pop(trees)?;
    let of = Boxed::new(alloc, of)?;
    let index = read_boxed(alloc, trees)?;
    push(
        trees,
        at,
        Expr::Item {
            at: place(at),
            of,
            index,
        },
    )
}

fn read_part(alloc: Global, trees: &mut Vec<Read>) -> Result<(), Unread> {
    let (at, of) = pop(trees)?;
    let of = Boxed::new(alloc, of)?;
    let left = read_boxed(alloc, trees)?;
    let right = read_boxed(alloc, trees)?;
    push(
        trees,
        at,
        Expr::Part {
            at: place(at),
            of,
            left,
            right,
        },
    )
}

fn read_indexed(alloc: Global, trees: &mut Vec<Read>, up: bool) -> Result<(), Unread> {
    let (at, of) = pop(trees)?;
    let of = Boxed::new(alloc, of)?;
    let base = read_boxed(alloc, trees)?;
    let width = read_boxed(alloc, trees)?;
    push(
        trees,
        at,
        Expr::Indexed {
            at: place(at),
            of,
            base,
            width,
            up,
        },
    )
}

fn read_repeat(alloc: Global, trees: &mut Vec<Read>, at: u32) -> Result<(), Unread> {
    let count = read_boxed(alloc, trees)?;
    let parts = several(alloc, trees)?;
    push(
        trees,
        at,
        Expr::Repeat {
            at: place(at),
            count,
            parts,
        },
    )
}

fn read_sign(alloc: Global, trees: &mut Vec<Read>, at: u32, signed: bool) -> Result<(), Unread> {
    let of = read_boxed(alloc, trees)?;
    push(
        trees,
        at,
        Expr::Sign {
            at: place(at),
            signed,
            of,
        },
    )
}

// What no names could make constant.
fn read_never(alloc: Global, trees: &mut Vec<Read>, at: u32, word: &str) -> Result<(), Unread> {
    match word {
        "time" => push(trees, at, Expr::Time { at: place(at) }),
        ".m" => {
            let (at, of) = pop(trees)?;
            let of = Boxed::new(alloc, of)?;
            let name = Name::from_slice(alloc, b"m")?;
            push(
                trees,
                at,
                Expr::Member {
                    at: place(at),
                    of,
                    name_at: place(at),
                    name,
                },
            )
        }
        ".size" => {
            let (at, of) = pop(trees)?;
            let of = Boxed::new(alloc, of)?;
            push(trees, at, Expr::Size { at: place(at), of })
        }
        _ => Err(Unread::Words),
    }
}

fn read_call(alloc: Global, trees: &mut Vec<Read>, at: u32) -> Result<(), Unread> {
    let args = several(alloc, trees)?;
    let path = path(alloc, at, "f")?;
    push(
        trees,
        at,
        Expr::Call {
            at: place(at),
            path,
            args,
        },
    )
}

fn read_pattern(alloc: Global, trees: &mut Vec<Read>, at: u32) -> Result<(), Unread> {
    let _ = several(alloc, trees)?;
    push(
        trees,
        at,
        Expr::Pattern {
            at: place(at),
            items: Items::new(alloc),
        },
    )
}

fn read_concat(alloc: Global, trees: &mut Vec<Read>, at: u32) -> Result<(), Unread> {
    let parts = several(alloc, trees)?;
    push(
        trees,
        at,
        Expr::Concat {
            at: place(at),
            parts,
        },
    )
}

fn read_operator(alloc: Global, trees: &mut Vec<Read>, at: u32, word: &str) -> Result<(), Unread> {
    if let Some(op) = unary_named(word) {
        return read_unary(alloc, trees, at, op);
    }
    if let Some(op) = arithmetic_named(word) {
        return read_binary(alloc, trees, op);
    }
    if let Some(op) = comparison_named(word) {
        return read_binary(alloc, trees, op);
    }
    read_leaf(alloc, trees, at, word)
}

// Words are read from the last to the first, so that the operands of each stand above in their order.
fn read_word(alloc: Global, trees: &mut Vec<Read>, at: u32, word: &str) -> Result<(), Unread> {
    match word {
        "}" => put(trees, Read::End),
        "?" => read_choose(alloc, trees),
        "[]" => read_item(alloc, trees),
        "[:]" => read_part(alloc, trees),
        "[+:]" => read_indexed(alloc, trees, true),
        "[-:]" => read_indexed(alloc, trees, false),
        "{" => read_concat(alloc, trees, at),
        "rep" => read_repeat(alloc, trees, at),
        "signed" => read_sign(alloc, trees, at, true),
        "unsigned" => read_sign(alloc, trees, at, false),
        "call" => read_call(alloc, trees, at),
        "pattern" => read_pattern(alloc, trees, at),
        "time" | ".m" | ".size" => read_never(alloc, trees, at, word),
        _ => read_operator(alloc, trees, at, word),
    }
}

fn tree(alloc: Global, text: &str) -> Result<Boxed<Expr>, Unread> {
    let words: Vec<&str> = text.split(' ').collect(alloc)?;
    let mut trees = Vec::new(alloc);
    for (at, word) in words.iter().enumerate().rev() {
        read_word(alloc, &mut trees, some(u32::try_from(at).ok())?, word)?;
    }
    read_boxed(alloc, &mut trees)
}

fn say_leaf(leaf: Leaf, out: &mut Text) -> Result<(), AllocError> {
    out.push(if leaf.signed { b's' } else { b'u' })?;
    out.push_number(u64::from(leaf.width))?;
    out.push(b't')?;
    out.push(if leaf.four { b'4' } else { b'2' })
}

fn say_bits(bits: Bits, out: &mut Text) -> Result<(), AllocError> {
    say_leaf(bits.leaf(), out)?;
    out.push(b' ')?;
    print_leaf(bits, out)
}

// The rule and the offset of a refusal.
fn say_fault(fault: Fault, out: &mut Text) -> Result<(), AllocError> {
    match fault {
        Fault::Refused(refusal) => {
            out.push_bytes(refusal.rule.code().as_bytes())?;
            out.push(b' ')?;
            out.push_number(u64::from(refusal.place.offset))
        }
        Fault::OutOfMemory(refused) => Err(refused),
    }
}

fn say_value(
    alloc: Global,
    expr: &Expr,
    known: &Constants,
    to: Option<Leaf>,
    out: &mut Text,
) -> Result<(), AllocError>
    requires { IsTarget to }
{
    match constant(alloc, expr, known, to) {
        Ok(value) => say_bits(value, out),
        Err(fault) => say_fault(fault, out),
    }
}

fn say_size(
    alloc: Global,
    expr: &Expr,
    known: &Constants,
    out: &mut Text,
) -> Result<(), AllocError> {
    match width_and_sign(alloc, expr, known) {
        Ok(leaf) => say_leaf(leaf, out),
        Err(fault) => say_fault(fault, out),
    }
}

fn target_of(text: &str) -> Option<Option<Leaf>>
    ensures { IfSome result (λ to. IsTarget to) }
{
    if text == "none" {
        return Some(None);
    }
    Some(Some(leaf_of(text)?))
}

fn tell_both(
    alloc: Global,
    known: &Constants,
    to: Option<Leaf>,
    expr: &Expr,
    out: &mut Text,
) -> Result<(), AllocError>
    requires { IsTarget to }
{
    say_size(alloc, expr, known, out)?;
    out.push_bytes(b", ")?;
    say_value(alloc, expr, known, to, out)
}

fn tell_case(
    alloc: Global,
    known: &Constants,
    to: Option<Leaf>,
    case: &str,
    out: &mut Text,
) -> Result<(), Unread>
    requires { IsTarget to }
{
    let expr = tree(alloc, case)?;
    tell_both(alloc, known, to, expr.get(), out)?;
    Ok(())
}

/// Adds the leaf that the expression has by itself, and its value at the leaf that it goes to, or twice the refusal.
///
/// The line is that leaf, or `none`, and the expression.
pub(crate) fn tell_constant(
    alloc: Global,
    known: &Constants,
    line: &str,
    out: &mut Text,
) -> Result<(), Unread> {
    let (to, case) = some(line.split_once(' '))?;
    match target_of(to) {
        None => Err(Unread::Words),
        Some(to) => tell_case(alloc, known, to, case, out),
    }
}

/// Adds the value of the constant expression that all of a text is, by itself, or the refusal.
pub(crate) fn tell_value(
    alloc: Global,
    known: &Constants,
    text: &[u8],
    out: &mut Text,
) -> Result<(), Unread> {
    if text.len() > MOST_BYTES as usize {
        return Err(Unread::Words);
    }
    match constant_of(alloc, text, known, None) {
        Ok(value) => say_bits(value, out)?,
        Err(fault) => say_fault(fault, out)?,
    }
    Ok(())
}

/// Makes a name known: the line is the name, a leaf and a value, which is a decimal number, or b with digits, of which the
/// first, if it is x or z, stands for all above, else 0.
pub(crate) fn name_line(alloc: Global, known: &mut Constants, line: &str) -> Result<(), Unread> {
    let (name, rest) = some(line.split_once(' '))?;
    let (leaf, value) = some(rest.split_once(' '))?;
    let bits = some(bits_of(leaf, value))?;
    known.insert(Name::from_slice(alloc, name.as_bytes())?, bits)?;
    Ok(())
}
