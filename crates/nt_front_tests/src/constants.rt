// The map of known constants.
ghost use Rattle.std.specs.Prelude.{◌<◌, ◌^◌};

use nt_const::Constants;
use nt_value::{Bits, Leaf, Name};
use std::test::Fail;

const INTEGER: Leaf = Leaf {
    width: 32,
    signed: true,
    four: true,
};

fn is_number(found: Option<Bits>, wanted: u64) -> bool
    requires { wanted < 2 ^ 32 }
{
    match found {
        Some(bits) => bits.is_same(Bits::number(INTEGER, wanted)),
        None => false,
    }
}

#[test]
fn the_last_value_of_a_name_counts(rt: HostRuntime) -> Result<(), Fail> {
    let alloc = rt.alloc();
    let mut known = Constants::new(alloc);
    let a = Name::from_slice(alloc, b"a")?;
    let b = Name::from_slice(alloc, b"b")?;
    assert!(rt; known.get(&a).is_none());
    known.insert(Name::from_slice(alloc, b"a")?, Bits::number(INTEGER, 3))?;
    assert!(rt; is_number(known.get(&a), 3));
    assert!(rt; known.get(&b).is_none());
    known.insert(Name::from_slice(alloc, b"b")?, Bits::number(INTEGER, 5))?;
    known.insert(Name::from_slice(alloc, b"a")?, Bits::number(INTEGER, 7))?;
    assert!(rt; is_number(known.get(&a), 7));
    assert!(rt; is_number(known.get(&b), 5));
    Ok(())
}
