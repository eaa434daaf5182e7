// The text of a typed tree.
use crate::saying::Saying;
use nt_design::{Object, Tree};
use nt_value::{Binary, Bits, Digit, Leaf, Unary, Value};

fn said_unary(op: Unary) -> &'static [u8] {
    match op {
        Unary::Plus => b"+".as_slice(),
        Unary::Minus => b"-".as_slice(),
        Unary::Not => b"~".as_slice(),
        Unary::LogicalNot => b"!".as_slice(),
        Unary::RedAnd => b"&".as_slice(),
        Unary::RedNand => b"~&".as_slice(),
        Unary::RedOr => b"|".as_slice(),
        Unary::RedNor => b"~|".as_slice(),
        Unary::RedXor => b"^".as_slice(),
        Unary::RedXnor => b"~^".as_slice(),
    }
}

fn said_binary(op: Binary) -> &'static [u8] {
    match op {
        Binary::Add => b" + ".as_slice(),
        Binary::Sub => b" - ".as_slice(),
        Binary::Mul => b" * ".as_slice(),
        Binary::Div => b" / ".as_slice(),
        Binary::Rem => b" % ".as_slice(),
        Binary::And => b" & ".as_slice(),
        Binary::Or => b" | ".as_slice(),
        Binary::Xor => b" ^ ".as_slice(),
        Binary::Xnor => b" ~^ ".as_slice(),
        Binary::Shl => b" << ".as_slice(),
        Binary::Shr => b" >> ".as_slice(),
        Binary::Sshr => b" >>> ".as_slice(),
        Binary::Lt => b" < ".as_slice(),
        Binary::Le => b" <= ".as_slice(),
        Binary::Gt => b" > ".as_slice(),
        Binary::Ge => b" >= ".as_slice(),
        Binary::Eq => b" == ".as_slice(),
        Binary::Ne => b" != ".as_slice(),
        Binary::CaseEq => b" === ".as_slice(),
        Binary::CaseNe => b" !== ".as_slice(),
        Binary::LogicalAnd => b" && ".as_slice(),
        Binary::LogicalOr => b" || ".as_slice(),
    }
}

fn said_digit(digit: Digit) -> &'static [u8] {
    match digit {
        Digit::Zero => b"0".as_slice(),
        Digit::One => b"1".as_slice(),
        Digit::X => b"x".as_slice(),
        Digit::Z => b"z".as_slice(),
    }
}

// States, sign and width.
fn say_leaf(leaf: Leaf, out: &mut Saying) {
    out.put(if leaf.four { b"4" } else { b"2" });
    out.put(if leaf.signed { b"s" } else { b"u" });
    out.number(u64::from(leaf.width));
}

// In base 10 where all digits are known, else digit by digit.
fn say_bits(bits: Bits, out: &mut Saying) {
    say_leaf(bits.leaf(), out);
    out.put(b"'");
    if bits.is_known() {
        out.number(bits.magnitude());
        return;
    }
    out.put(b"b");
    for at in (0..bits.width()).rev() {
        out.put(said_digit(bits.digit(at)));
    }
}

fn say_value(value: &Value, out: &mut Saying) {
    for bits in value.items() {
        say_bits(*bits, out);
    }
}

fn say_object(object: Object, out: &mut Saying) {
    match object {
        Object::Net(net) => {
            out.put(b"n");
            out.number(u64::from(net));
        }
        Object::Var(var) => {
            out.put(b"v");
            out.number(u64::from(var));
        }
    }
}

/// Says a tree.
#[cycle(trees)]
pub(crate) fn say_tree(tree: &Tree, out: &mut Saying) {
    match tree {
        Tree::Const(value) => say_value(value, out),
        Tree::Read(object) => say_object(*object, out),
        Tree::Local(local) => {
            out.put(b"l");
            out.number(u64::from(*local));
        }
        Tree::Leaves { of, first, count } => {
            say_tree(of.get(), out);
            out.put(b".");
            out.number(u64::from(*first));
            out.put(b"+");
            out.number(u64::from(*count));
        }
        Tree::Item {
            of,
            index,
            low,
            size,
            up,
        } => {
            say_tree(of.get(), out);
            out.put(b"[");
            say_tree(index.get(), out);
            out.put(if *up { b" up from " } else { b" to low " });
            out.number(u64::from(*low));
            out.put(b" of ");
            out.number(u64::from(*size));
            out.put(b"]");
        }
        Tree::Element { index } => {
            out.put(b"[");
            say_tree(index.get(), out);
            out.put(b"]");
        }
        Tree::Part { of, low, width } => {
            say_tree(of.get(), out);
            out.put(b"[");
            say_tree(low.get(), out);
            out.put(b" +: ");
            out.number(u64::from(*width));
            out.put(b"]");
        }
        Tree::Unary { op, of } => {
            out.put(b"(");
            out.put(said_unary(*op));
            say_tree(of.get(), out);
            out.put(b")");
        }
        Tree::Binary { op, left, right } => {
            out.put(b"(");
            say_tree(left.get(), out);
            out.put(said_binary(*op));
            say_tree(right.get(), out);
            out.put(b")");
        }
        Tree::Choose { test, yes, no } => {
            out.put(b"(");
            say_tree(test.get(), out);
            out.put(b" ? ");
            say_tree(yes.get(), out);
            out.put(b" : ");
            say_tree(no.get(), out);
            out.put(b")");
        }
        Tree::Concat { parts } => say_several(b"{", parts.as_slice(), b"}", out),
        Tree::Gather { parts } => say_several(b"'{", parts.as_slice(), b"}", out),
        Tree::Resize { of, to } => {
            say_leaf(*to, out);
            out.put(b"(");
            say_tree(of.get(), out);
            out.put(b")");
        }
        Tree::Call { function, args } => {
            out.put(b"f");
            out.number(u64::from(*function));
            say_several(b"(", args.as_slice(), b")", out);
        }
        Tree::Size => out.put(b"size"),
        Tree::Time => out.put(b"time"),
    }
}

// Trees with these marks around them.
#[cycle(trees)]
fn say_several(before: &[u8], trees: &[Tree], after: &[u8], out: &mut Saying) {
    out.put(before);
    let mut first = true;
    for tree in trees {
        if !first {
            out.put(b", ");
        }
        first = false;
        say_tree(tree, out);
    }
    out.put(after);
}
