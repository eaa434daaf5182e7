// Refusals as they are told.
ghost use Rattle.std.specs.Prelude.{◌≡◌, ◌<◌};

use crate::{Fault, Refusal, Rule, earlier, say};
use nt_value::{Name, Place, Text};
use std::alloc::{AllocError, Global};
use std::test::Fail;

fn at(file: u32, line: u32, column: u32) -> Place
    ensures { result.file ≡ file }
{
    Place {
        file,
        offset: 40,
        line,
        column,
    }
}

fn said(alloc: Global, rule: Rule, place: Place) -> Result<Text, AllocError>
    requires { place.file < 2 }
{
    let mut files = Vec::new(alloc);
    files.push(Name::from_slice(alloc, b"a.sv")?)?;
    files.push(Name::from_slice(alloc, b"lib/b.sv")?)?;
    let mut text = Text::new(Vec::new(alloc));
    say(&Refusal { rule, place }, &files, &mut text)?;
    Ok(text)
}

#[test]
fn says_rule_file_line_and_column(rt: HostRuntime) -> Result<(), Fail> {
    let alloc = rt.alloc();
    let table = [
        (Rule::M1, at(0, 3, 31), "M1 a.sv:3:31"),
        (Rule::X6, at(0, 1, 1), "X6 a.sv:1:1"),
        (Rule::T18, at(1, 70, 8), "T18 lib/b.sv:70:8"),
        (
            Rule::K6,
            at(1, 4294967295, 4294967295),
            "K6 lib/b.sv:4294967295:4294967295",
        ),
    ];
    for (rule, place, want) in table {
        let text = said(alloc, rule, place)?;
        assert_eq!(rt; text.items(), want.as_bytes(), "at {want}");
    }
    Ok(())
}

#[test]
fn faults_compare(rt: HostRuntime) {
    let refusal = Refusal {
        rule: Rule::P1,
        place: at(0, 1, 1),
    };
    let other = Refusal {
        rule: Rule::P2,
        ..refusal
    };
    assert!(rt; Fault::Refused(refusal) == Fault::Refused(refusal));
    assert!(rt; Fault::Refused(refusal) != Fault::Refused(other));
}

#[test]
fn the_earlier_fault_is_told(rt: HostRuntime) {
    let first = Refusal {
        rule: Rule::T4,
        place: at(0, 2, 7),
    };
    let second = Refusal {
        rule: Rule::T1,
        place: at(1, 1, 1),
    };
    assert!(rt; earlier(Some(second), Some(first)) == Some(first));
    assert!(rt; earlier(Some(first), None) == Some(first));
    assert!(rt; earlier(None, Some(second)) == Some(second));
    assert!(rt; earlier(None, None).is_none());
}
