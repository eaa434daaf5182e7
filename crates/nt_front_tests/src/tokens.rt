// The limit of a run's tokens.
ghost use Rattle.std.specs.Prelude.{◌≤◌, length};

use nt_diag::{Fault, Refusal, Rule};
use nt_lexer::{Head, tokens};
use nt_value::{Base, Unit};
use std::alloc::Global;
use std::test::Fail;

const UNIT: Unit = Unit {
    ten: 0,
    base: Base::Ns,
};

// The refusal of a file, if it is refused.
fn refusal_of(alloc: Global, file: u32, bytes: &[u8], head: &mut Head) -> Option<Refusal>
    requires within { length bytes.now ≤ 4194304 }
    requires count { head.old.count ≤ 1000000 }
    ensures count { head.new.count ≤ 1000000 }
{
    match tokens(alloc, file, bytes, head) {
        Ok(_) => None,
        Err(Fault::Refused(refusal)) => Some(refusal),
        Err(Fault::OutOfMemory(_)) => None,
    }
}

#[test]
fn a_million_tokens(rt: HostRuntime) -> Result<(), Fail> {
    let mut head = Head {
        unit: Some(UNIT),
        count: 999999,
    };
    assert!(rt; refusal_of(rt.alloc(), 1, b"a ", &mut head).is_none());
    assert!(rt; head.count == 1000000);
    match refusal_of(rt.alloc(), 2, b" b 2147483648", &mut head) {
        Some(refusal) => {
            assert!(rt; refusal.rule == Rule::X7);
            assert!(rt; refusal.place.file == 2);
            assert!(rt; refusal.place.offset == 1);
        }
        None => assert!(rt; false),
    }
    assert!(rt; head.unit == Some(UNIT));
    Ok(())
}
