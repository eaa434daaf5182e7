// What values print as, and each call that takes memory once.
ghost use Rattle.std.specs.Prelude.{◌≡◌, ◌≤◌, length};

use crate::{Bits, Digit, Leaf, Name, Shape, Text, Value, copy, default_of, print, same};
use std::alloc::{AllocError, Global};
use std::test::Fail;

const LOGIC: Leaf = Leaf {
    width: 4,
    signed: false,
    four: true,
};

const WORD: Leaf = Leaf {
    width: 64,
    signed: false,
    four: false,
};

const LONG: Leaf = Leaf {
    width: 64,
    signed: true,
    four: false,
};

const SIGN: Leaf = Leaf {
    width: 1,
    signed: true,
    four: false,
};

// 4'b10xz
fn mixed() -> Bits
    ensures { result.leaf ≡ LOGIC }
{
    Bits::zero(LOGIC)
        .with_digit(0, Digit::Z)
        .with_digit(1, Digit::X)
        .with_digit(3, Digit::One)
}

fn text_of(alloc: Global, leaves: Vec<Bits>) -> Result<Text, AllocError>
    requires { length leaves.items ≤ 64 }
{
    let mut text = Text::new(Vec::new(alloc));
    print(&Value::new(leaves), &mut text)?;
    Ok(text)
}

#[test]
fn prints_leaves(rt: HostRuntime) -> Result<(), Fail> {
    let alloc = rt.alloc();
    let table = [
        (Bits::number(Leaf::INT, 5), "5"),
        (Bits::number(Leaf::INT, 4294967287), "-9"),
        (Bits::zero(Leaf::INT), "0"),
        (Bits::number(LOGIC, 10), "10"),
        (mixed(), "4'b10xz"),
        (Bits::default(LOGIC), "4'bxxxx"),
        (Bits::default(SIGN), "0"),
        (Bits::number(SIGN, 1), "-1"),
        (Bits::number(WORD, u64::MAX), "18446744073709551615"),
        (
            Bits::number(LONG, 9223372036854775808),
            "-9223372036854775808",
        ),
    ];
    for (bits, want) in table {
        let text = text_of(alloc, vec![in alloc; bits]?)?;
        assert_eq!(rt; text.items(), want.as_bytes(), "at {want}");
    }
    Ok(())
}

#[test]
fn prints_values_in_braces(rt: HostRuntime) -> Result<(), Fail> {
    let alloc = rt.alloc();
    let five = Bits::number(Leaf::INT, 5);
    let minus_five = Bits::number(Leaf::INT, 4294967291);
    let six = Bits::number(Leaf::INT, 6);
    let none = text_of(alloc, Vec::new(alloc))?;
    assert_eq!(rt; none.items(), b"{}".as_slice());
    let two = text_of(alloc, vec![in alloc; minus_five, six]?)?;
    assert_eq!(rt; two.items(), b"{-5,6}".as_slice());
    let three = text_of(alloc, vec![in alloc; five, mixed(), six]?)?;
    assert_eq!(rt; three.items(), b"{5,4'b10xz,6}".as_slice());
    Ok(())
}

#[test]
fn reads_digits(rt: HostRuntime) {
    let bits = mixed();
    assert!(rt; bits.digit(0) == Digit::Z);
    assert!(rt; bits.digit(1) == Digit::X);
    assert!(rt; bits.digit(2) == Digit::Zero);
    assert!(rt; bits.digit(3) == Digit::One);
    assert!(rt; !bits.is_known());
    let known = bits.with_digit(0, Digit::One).with_digit(1, Digit::Zero);
    assert!(rt; known.is_same(Bits::number(LOGIC, 9)));
}

#[test]
fn copies_are_equal(rt: HostRuntime) -> Result<(), Fail> {
    let alloc = rt.alloc();
    let shape = Shape::new(vec![in alloc; Leaf::INT, LOGIC]?);
    let mut value = default_of(alloc, &shape.copy(alloc)?)?;
    let before = copy(alloc, &value)?;
    assert!(rt; same(&value, &before));
    assert_eq!(rt; value.items().len(), 2);
    assert!(rt; value.item(1).leaf() == LOGIC);
    value.put(1, mixed());
    assert!(rt; !same(&value, &before));
    let name = Name::from_slice(alloc, b"clk")?;
    assert!(rt; name.copy(alloc)? == name);
    Ok(())
}

#[test]
fn texts_grow(rt: HostRuntime) -> Result<(), Fail> {
    let mut text = Text::new(Vec::new(rt.alloc()));
    text.push_bytes(b"#")?;
    text.push_number(1000)?;
    text.push(b'\n')?;
    assert_eq!(rt; text.items(), b"#1000\n".as_slice());
    Ok(())
}
