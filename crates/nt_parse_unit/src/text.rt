// Reading a file.
ghost use Rattle.std.specs.Prelude.{◌≡◌, IfOk};
ghost use Rattle.nt_read_expr.specs.Gives.{Gives};
ghost use Rattle.nt_parse_expr.specs.declared.cursor.TheConstants as constants;
ghost use Rattle.nt_parse_unit.specs.Readings as spec;
ghost use Rattle.nt_parse_unit.specs.Readings.{Reads, ItemsPlacedIn};

use nt_diag::{Fault, Refusal, Rule};
use nt_items::{Item, Units};
use nt_lexer::{Token, TokenKind, Word};
use nt_parse_expr::LIMIT;
use nt_read_expr::{Stop, start};
use nt_read_module::source;
use nt_value::Place;
use sqlite_items::Items;
use std::alloc::{AllocError, Global};

/// Whether a token is a word that this language leaves out.
fn is_left_out(kind: &TokenKind) -> bool
    ensures { result ≡ spec.is_left_out kind.now }
{
    match kind {
        TokenKind::Word(word) => match *word {
            Word::LeftOut => true,
            _ => false,
        },
        _ => false,
    }
}

/// The place of the first left-out word.
#[tactic(auto, unfolding(crate::specs::Readings::first_left_out))]
fn first_left_out(tokens: &[Token]) -> Option<Place>
    ensures { result ≡ spec.first_left_out tokens.now }
{
    for token in tokens {
        if is_left_out(&token.kind) {
            return Some(token.at);
        }
    }
    None
}

/// Whether the end of the file stands alone.
fn ends(tokens: &[Token]) -> bool
    ensures { result ≡ spec.ends tokens.now }
{
    match tokens {
        [last] => match last.kind {
            TokenKind::End => true,
            _ => false,
        },
        _ => false,
    }
}

/// The items of a file, with at most so many open nodes over one another and so many links in a chain.
#[tactic(auto, unfolding(crate::specs::Readings::read_source))]
fn read_source(alloc: Global, limit: u32, tokens: &[Token]) -> Result<Items<Item>, Stop>
    ensures { Gives (λ xs. xs) result (spec.read_source limit tokens.now) }
{
    let (items, rest) = source(alloc, limit, tokens)?;
    if ends(rest) {
        Ok(items)
    } else {
        Err(Stop::Refused)
    }
}

/// Where the file begins.
fn file_start(tokens: &[Token]) -> Place
    ensures { result ≡ spec.file_start tokens.now }
{
    Place {
        file: start(tokens).file,
        offset: 0,
        line: 1,
        column: 1,
    }
}

/// Reads a file, whose last token is its end (IEEE 1800-2017, A.1.2 source_text).
///
/// # Errors
///
/// `Refused` with S3 at the first word that the language leaves out, where there is one; else with S1 at the file's start, where the
/// tokens are no file; `OutOfMemory`.
pub fn source_text(alloc: Global, tokens: &[Token]) -> Result<Units, Fault>
    ensures reads { Reads tokens.now result }
    ensures placed { IfOk result (λ units. ItemsPlacedIn tokens.now units.items) }
{
    if let Some(place) = first_left_out(tokens) {
        return Err(Fault::Refused(Refusal {
            rule: Rule::S3,
            place,
        }));
    }
    match read_source(alloc, LIMIT, tokens) {
        Ok(items) => Ok(Units { items }),
        Err(Stop::Refused) => Err(Fault::Refused(Refusal {
            rule: Rule::S1,
            place: file_start(tokens),
        })),
        Err(Stop::Memory) => Err(Fault::OutOfMemory(AllocError)),
    }
}
