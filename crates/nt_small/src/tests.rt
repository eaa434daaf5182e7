// What no clause says: that calls succeed, which texts a reader expects to be taken, and that the largest module is
// read in time.
ghost use Rattle.std.specs.Prelude.{◌<◌};

use crate::{design_from_text, is_name, says_one};
use nt_design::{Assign, Net, Target, Tree};
use nt_value::{Base, Text, Unit, print};
use std::alloc::{AllocError, Global};
use std::test::Fail;

fn is_taken(alloc: Global, text: &[u8]) -> Result<bool, AllocError> {
    Ok(design_from_text(alloc, text, b"top")?.is_some())
}

#[test]
fn takes_texts_of_the_language(rt: HostRuntime) -> Result<(), Fail> {
    let texts: [&[u8]; 8] = [
        b"module top; nettype int N; N a; assign a = 5; endmodule",
        b"module top; nettype int N; N a; endmodule",
        b"module top; nettype int N; endmodule",
        b"module top; nettype int N; N a; N b; assign b = 7; assign a = 5; endmodule",
        b"module top; nettype int N; N a; assign a = 5; N b; endmodule",
        b"module top; nettype int N; N top; assign top = 000000000; endmodule",
        b"module top;nettype int N;N a;assign a=5;endmodule",
        b"\t\n\x0c\r module\ttop\n;\x0cnettype\rint N;N a\t;\n assign a\x0c=\r5 ;endmodule\t\n\x0c\r ",
    ];
    for text in texts {
        let taken = is_taken(rt.alloc(), text)?;
        assert!(rt; taken, "{text:?}");
    }
    Ok(())
}

#[test]
fn refuses_other_texts(rt: HostRuntime) -> Result<(), Fail> {
    let texts: [&[u8]; 24] = [
        b"",
        b" ",
        b"module top; nettype int N; N a; assign a = 5; assign a = 6; endmodule",
        b"module top; nettype int N; N a; assign b = 5; endmodule",
        b"module top; nettype int N; assign a = 5; N a; endmodule",
        b"module top; nettype int N; N a; N a; endmodule",
        b"module top; nettype int N; N N; endmodule",
        b"module top; nettype int N; N abcd; endmodule",
        b"module top; nettype int N; N int; endmodule",
        b"module top; nettype int wor; wor a; endmodule",
        b"module top; nettype int N; N 1a; endmodule",
        b"module top; nettype int N; N a_b; endmodule",
        b"module top; nettype int N; M a; endmodule",
        b"module top; nettype int N; N a; assign a = 1234567890; endmodule",
        b"module top; nettype int N; N a; assign a = 5a; endmodule",
        b"module top; nettype int N; N a; assign a = -5; endmodule",
        b"moduletop; nettype int N; endmodule",
        b"module top; nettype intN; endmodule",
        b"module tip; nettype int N; endmodule",
        b"module top; nettype bit N; endmodule",
        b"module top; nettype int N; N \xe4; endmodule",
        b"module top; nettype int N; // none\n endmodule",
        b"module top; nettype int N; N a; assign a = 5 endmodule",
        b"module top; nettype int N; endmodule ;",
    ];
    for text in texts {
        let taken = is_taken(rt.alloc(), text)?;
        assert!(rt; !taken, "{text:?}");
    }
    Ok(())
}

#[test]
fn knows_names(rt: HostRuntime) {
    let names: [(&[u8], bool); 10] = [
        (b"a", true),
        (b"Z9z", true),
        (b"ab", true),
        (b"ifs", true),
        (b"INT", true),
        (b"", false),
        (b"9a", false),
        (b"abcd", false),
        (b"if", false),
        (b"a b", false),
    ];
    for (name, want) in names {
        assert_eq!(rt; is_name(name), want, "{name:?}");
    }
}

// Whether the net has this path and these slots, and one leaf.
fn is_net(net: &Net, name: &[u8], slots: &[u32]) -> bool {
    net.name.items() == name && net.slots.as_slice() == slots && net.shape.items().len() == 1
}

// Whether the assignment drives slot 0 of the net of this number with this number.
fn is_assign(alloc: Global, assign: &Assign, to: u32, digits: &[u8]) -> Result<bool, AllocError> {
    let mut text = Text::new(Vec::new(alloc));
    let Tree::Const(value) = &assign.right else {
        return Ok(false);
    };
    print(value, &mut text)?;
    let Target::Slot {
        net,
        slot,
        low,
        width,
    } = assign.target
    else {
        return Ok(false);
    };
    Ok(net == to && slot == 0 && low == 0 && width == 0 && text.items() == digits)
}

#[test]
fn builds_nets_and_assignments(rt: HostRuntime) -> Result<(), Fail> {
    let alloc = rt.alloc();
    let text =
        b"module top; nettype int N; N a; N b; N c; assign b = 007; assign a = 999999999; endmodule";
    let design = design_from_text(alloc, text, b"top")?.expect(&rt, "a text of the language");
    assert_eq!(rt;
        design.unit,
        Unit {
            ten: 0,
            base: Base::Ns
        }
    );
    let [a, b, c] = design.nets.as_slice() else {
        panic!(rt; "three nets");
    };
    assert!(rt; is_net(a, b"top.a", &[1]));
    assert!(rt; is_net(b, b"top.b", &[0]));
    assert!(rt; is_net(c, b"top.c", &[]));
    let [first, second] = design.assigns.as_slice() else {
        panic!(rt; "two assignments");
    };
    assert!(rt; is_assign(alloc, first, 1, b"7")?);
    assert!(rt; is_assign(alloc, second, 0, b"999999999")?);
    says_one();
    Ok(())
}

// The name of a number: three capital letters.
fn name(number: u32) -> [u8; 3]
    requires { number < 17576 }
{
    [
        b'A' + (number / 676) as u8,
        b'A' + (number / 26 % 26) as u8,
        b'A' + (number % 26) as u8,
    ]
}

// A module of so many nets, with an assignment to each of the first 16,384, in another order.
fn module(alloc: Global, nets: u32) -> Result<Vec<u8>, AllocError>
    requires { nets < 17576 }
{
    let mut text = Vec::from_slice(alloc, b"module top; nettype int n;\n")?;
    for number in 0..nets {
        text.extend_from_slice(b"n ")?;
        text.extend_from_slice(&name(number))?;
        text.extend_from_slice(b";\n")?;
    }
    for number in 0..16_384 {
        text.extend_from_slice(b"assign ")?;
        text.extend_from_slice(&name(number * 7_919 % 16_384))?;
        text.extend_from_slice(b" = 12345;\n")?;
    }
    text.extend_from_slice(b"endmodule\n")?;
    Ok(text)
}

#[test]
fn takes_up_to_the_most_nets(rt: HostRuntime) -> Result<(), Fail> {
    let alloc = rt.alloc();
    let largest = is_taken(alloc, &module(alloc, 16_384)?)?;
    assert!(rt; largest);
    let larger = is_taken(alloc, &module(alloc, 16_385)?)?;
    assert!(rt; !larger);
    Ok(())
}

#[test]
fn takes_up_to_the_most_bytes(rt: HostRuntime) -> Result<(), Fail> {
    let alloc = rt.alloc();
    let mut text = Vec::from_slice(alloc, b"module top; nettype int N; endmodule")?;
    text.resize(crate::MOST_BYTES, b' ')?;
    let longest = is_taken(alloc, &text)?;
    assert!(rt; longest);
    text.push(b' ')?;
    let longer = is_taken(alloc, &text)?;
    assert!(rt; !longer);
    Ok(())
}
