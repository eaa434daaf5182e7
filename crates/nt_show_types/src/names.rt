// The names that the cases know.
ghost use Rattle.std.specs.Prelude.{◌≡◌, codes};
ghost use Rattle.std.specs.Str.{bytes_eq};
ghost use Rattle.nt_show_types.specs.Names.{seen_in, type_in};

use nt_ast::Path;
use nt_const::{Constants, Lookup, Seen};
use nt_kinds::Kind;
use nt_type_trees::{TypeSeen, Types};
use nt_value::{Bits, Digit, Leaf, Name};
use std::alloc::{AllocError, Global};

/// The constants.
#[derive(Drop)]
pub(crate) struct Known {
    values: Constants,
}

const BIT: Leaf = Leaf {
    width: 1,
    signed: false,
    four: true,
};

const WIDE: Leaf = Leaf {
    width: 64,
    signed: false,
    four: true,
};

pub(crate) fn constants(alloc: Global) -> Result<Known, AllocError> {
    let mut values = Constants::new(alloc);
    values.insert(Name::from_slice(alloc, b"W")?, Bits::number(Leaf::INT, 4))?;
    values.insert(
        Name::from_slice(alloc, b"M")?,
        Bits::number(Leaf::INT, 4294967295),
    )?;
    values.insert(
        Name::from_slice(alloc, b"BIG")?,
        Bits::number(WIDE, 4294967296),
    )?;
    let unknown = Bits::zero(BIT).with_digit(0, Digit::X);
    values.insert(Name::from_slice(alloc, b"U")?, unknown)?;
    Ok(Known { values })
}

fn is(name: &Name, word: &[u8]) -> bool
    ensures { result ≡ bytes_eq name.now word.now }
{
    name.items() == word
}

impl Lookup for Known {
    ghost sees = { λ k. seen_in k.values };

    fn look(&self, alloc: Global, path: &Path) -> Result<Seen, AllocError> {
        if is(&path.name, b"obj") {
            return Ok(Seen::Other);
        }
        if is(&path.name, b"two") {
            return Ok(Seen::Ambiguous);
        }
        if is(&path.name, b"word") {
            return Ok(Seen::Other);
        }
        self.values.look(alloc, path)
    }
}

impl Types for Known {
    ghost means = { λ _k. type_in };

    fn type_at(&self, _alloc: Global, path: &Path) -> Result<TypeSeen, AllocError> {
        if is(&path.name, b"obj") {
            return Ok(TypeSeen::Other);
        }
        if is(&path.name, b"two") {
            return Ok(TypeSeen::Ambiguous);
        }
        if is(&path.name, b"word") {
            return Ok(TypeSeen::Known(Kind::One {
                leaf: Leaf::INT,
                left: 31,
                right: 0,
            }));
        }
        Ok(TypeSeen::Unknown)
    }
}
