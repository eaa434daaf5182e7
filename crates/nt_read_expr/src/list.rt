// Lists: one loop for all of them, over what reads an item.
ghost use Rattle.std.specs.Prelude.{◌≡◌, ◌+◌, ◌<◌, length, true, ℕ, List, Option};
ghost use Rattle.nt_lexer.specs.declared.kinds.Token.{Token};
ghost use Rattle.nt_read_expr.specs.Tables as tables;
ghost use Rattle.nt_read_expr.specs.Reader as spec;
ghost use Rattle.nt_read_expr.specs.Gives.{Gives};

use crate::stop::Stop;
use nt_lexer::{Mark, Token, TokenKind, Word};
use sqlite_items::Items;
use std::alloc::Global;

/// What stands between two items of a list.
#[derive(Clone, Copy, Debug, PartialEq, Eq)]
pub enum Separator {
    /// A comma.
    Comma,
    /// A comma, or the word `or`, as between events (IEEE 1800-2017, 9.4.2.1).
    CommaOrWord,
}

/// What reads one item of a list.
pub trait ItemReader {
    type Item: Drop;

    // when it can be called
    ghost can_read: { Self → Type 0 };

    // the item that stands first, and what follows it
    ghost reads: { Self → List Token → Option (Self.Item × List Token) };

    /// The item that stands first, and what follows it.
    ///
    /// # Errors
    ///
    /// `Refused` where no item stands first, `Memory` where memory ran out.
    fn read_item<'a>(&self, tokens: &'a [Token]) -> Result<(Self::Item, &'a [Token]), Stop>
        requires { can_read self.now }
        ensures { Gives (λ x. (x.0, x.1.now)) result (reads self.now tokens.now) };
}

/// Whether a separator stands first.
fn separates(by: Separator, tokens: &[Token]) -> bool
    ensures value { result ≡ tables.separates by (spec.first tokens.now) }
    ensures within { result ≡ true → 0 < length tokens.now }
{
    match tokens {
        [] => false,
        [first, ..] => match first.kind {
            TokenKind::Mark(Mark::Comma) => true,
            TokenKind::Word(Word::Or) => match by {
                Separator::Comma => false,
                Separator::CommaOrWord => true,
            },
            _ => false,
        },
    }
}

/// More items of a list, each after a separator, behind those that were found.
///
/// # Errors
///
/// `Refused` where a separator stands before no item, `Memory` where memory ran out.
pub fn more_of<'a, R: ItemReader>(
    by: Separator,
    reader: &R,
    found: Items<R::Item>,
    tokens: &'a [Token],
) -> Result<(Items<R::Item>, &'a [Token]), Stop>
    requires { R.can_read reader.now }
    ensures { Gives (λ x. (x.0, x.1.now)) result (spec.more_of by (R.reads reader.now) (length tokens.now + 1) found tokens.now) }
{
    let mut all = found;
    let mut rest = tokens;
    for _turn in 0..tokens.len() {
        if !separates(by, rest) {
            return Ok((all, rest));
        }
        let (x, after) = reader.read_item(&rest[1..])?;
        all.push(x)?;
        rest = after;
    }
    if separates(by, rest) {
        return Err(Stop::Refused);
    }
    Ok((all, rest))
}

/// One or more items, with a separator between each two.
///
/// # Errors
///
/// `Refused` where no item stands first, or after a separator, `Memory` where memory ran out.
#[tactic(auto, unfolding(crate::specs::Reader::list_of))]
pub fn list_of<'a, R: ItemReader>(
    alloc: Global,
    by: Separator,
    reader: &R,
    tokens: &'a [Token],
) -> Result<(Items<R::Item>, &'a [Token]), Stop>
    requires { R.can_read reader.now }
    ensures { Gives (λ x. (x.0, x.1.now)) result (spec.list_of by (R.reads reader.now) tokens.now) }
{
    let (x, rest) = reader.read_item(tokens)?;
    let mut found = Items::new(alloc);
    found.push(x)?;
    more_of(by, reader, found, rest)
}
