// The text of a literal, of an operator and of a path, in the words of the cases.
use crate::saying::Saying;
use nt_ast::{Key, Path};
use nt_value::{Binary, Digit, Literal, Place, Unary};

pub(crate) fn said_unary(op: Unary) -> &'static [u8] {
    match op {
        Unary::Plus => b"+".as_slice(),
        Unary::Minus => b"-".as_slice(),
        Unary::Not => b"~".as_slice(),
        Unary::LogicalNot => b"!".as_slice(),
        Unary::RedAnd => b"&".as_slice(),
        Unary::RedNand => b"~&".as_slice(),
        Unary::RedOr => b"|".as_slice(),
        Unary::RedNor => b"~|".as_slice(),
        Unary::RedXor => b"^".as_slice(),
        Unary::RedXnor => b"~^".as_slice(),
    }
}

pub(crate) fn said_binary(op: Binary) -> &'static [u8] {
    match op {
        Binary::Add => b" + ".as_slice(),
        Binary::Sub => b" - ".as_slice(),
        Binary::Mul => b" * ".as_slice(),
        Binary::Div => b" / ".as_slice(),
        Binary::Rem => b" % ".as_slice(),
        Binary::And => b" & ".as_slice(),
        Binary::Or => b" | ".as_slice(),
        Binary::Xor => b" ^ ".as_slice(),
        Binary::Xnor => b" ~^ ".as_slice(),
        Binary::Shl => b" << ".as_slice(),
        Binary::Shr => b" >> ".as_slice(),
        Binary::Sshr => b" >>> ".as_slice(),
        Binary::Lt => b" < ".as_slice(),
        Binary::Le => b" <= ".as_slice(),
        Binary::Gt => b" > ".as_slice(),
        Binary::Ge => b" >= ".as_slice(),
        Binary::Eq => b" == ".as_slice(),
        Binary::Ne => b" != ".as_slice(),
        Binary::CaseEq => b" === ".as_slice(),
        Binary::CaseNe => b" !== ".as_slice(),
        Binary::LogicalAnd => b" && ".as_slice(),
        Binary::LogicalOr => b" || ".as_slice(),
    }
}

fn said_digit(digit: Digit) -> &'static [u8] {
    match digit {
        Digit::Zero => b"0".as_slice(),
        Digit::One => b"1".as_slice(),
        Digit::X => b"x".as_slice(),
        Digit::Z => b"z".as_slice(),
    }
}

// The digits, without needless zeros.
fn say_digits(literal: &Literal, out: &mut Saying) {
    let bits = literal.bits;
    let mut seen = false;
    for at in (0..bits.width()).rev() {
        let digit = bits.digit(at);
        if digit != Digit::Zero || at == 0 {
            seen = true;
        }
        if seen {
            out.put(said_digit(digit));
        }
    }
}

pub(crate) fn say_literal(literal: &Literal, out: &mut Saying) {
    if literal.sized {
        out.put(b"$");
    }
    if literal.fill {
        out.put(b"'");
    }
    if literal.bits.leaf().signed {
        out.put(b"s");
    }
    out.number(u64::from(literal.bits.width()));
    out.put(b"b");
    say_digits(literal, out);
}

pub(crate) fn say_path(at: Place, path: &Path, out: &mut Saying) {
    if path.at != at {
        out.put(b"!");
    }
    if let Some(scope) = &path.scope {
        out.put(scope.items());
        out.put(b"::");
    }
    out.put(path.name.items());
}

pub(crate) fn say_key(key: &Option<Key>, out: &mut Saying) {
    match key {
        None => {}
        Some(Key::Other) => out.put(b"default:"),
        Some(Key::Member(name)) => {
            out.put(name.items());
            out.put(b":");
        }
    }
}

pub(crate) fn begin(at: Place, opening: &[u8], out: &mut Saying) {
    out.number(u64::from(at.offset));
    out.put(b":");
    out.put(opening);
}
