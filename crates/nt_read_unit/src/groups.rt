// Groups of items: one loop for all of them, over what reads a group.
ghost use Rattle.std.specs.Prelude.{◌≡◌, ◌+◌, length, [], Bool, List, Option};
ghost use Rattle.nt_lexer.specs.declared.kinds.Token.{Token};
ghost use Rattle.nt_read_expr.specs.Gives.{Gives};
ghost use Rattle.nt_read_unit.specs.Reader as spec;

use nt_lexer::Token;
use nt_read_expr::Stop;
use sqlite_items::Items;
use std::alloc::Global;

/// What reads one group of items.
pub trait GroupReader {
    type Item: Drop;

    // when it can be called
    ghost can_read: { Self → Type 0 };

    // whether a group begins
    ghost goes_on: { Self → List Token → Bool };

    // the group that stands first, and what follows it
    ghost reads: { Self → List Token → Option (List Self.Item × List Token) };

    /// Whether a group begins.
    fn goes(&self, tokens: &[Token]) -> bool
        ensures { result ≡ goes_on self.now tokens.now };

    /// The group that stands first, and what follows it.
    ///
    /// # Errors
    ///
    /// `Refused` where no group stands first, `Memory` where memory ran out.
    fn read_group<'a>(&self, tokens: &'a [Token]) -> Result<(Items<Self::Item>, &'a [Token]), Stop>
        requires { can_read self.now }
        ensures { Gives (λ x. (x.0, x.1.now)) result (reads self.now tokens.now) };
}

/// The items of the groups that stand first, as long as one begins.
///
/// # Errors
///
/// `Refused` where one begins that is no group, `Memory` where memory ran out.
pub fn groups_of<'a, R: GroupReader>(
    alloc: Global,
    reader: &R,
    tokens: &'a [Token],
) -> Result<(Items<R::Item>, &'a [Token]), Stop>
    requires { R.can_read reader.now }
    ensures { Gives (λ x. (x.0, x.1.now)) result (spec.groups_of (R.goes_on reader.now) (R.reads reader.now) (length tokens.now + 1) [] tokens.now) }
{
    let mut all = Items::new(alloc);
    let mut rest = tokens;
    for _turn in 0..tokens.len() {
        if !reader.goes(rest) {
            return Ok((all, rest));
        }
        let (group, after) = reader.read_group(rest)?;
        all.append(group)?;
        rest = after;
    }
    if reader.goes(rest) {
        return Err(Stop::Refused);
    }
    Ok((all, rest))
}
