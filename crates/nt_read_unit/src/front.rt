// What the first tokens of types say.
ghost use Rattle.std.specs.Prelude.{◌≡◌, ◌<◌, length, true, IfSome, IfOk, Some};
ghost use Rattle.nt_read_expr.specs.Gives.{Gives};
ghost use Rattle.nt_read_expr.specs.Reader as reader;
ghost use Rattle.nt_read_unit.specs.Tables as tables;
ghost use Rattle.nt_read_unit.specs.Reader as spec;

use nt_ast::{IntWord, TypeTree};
use nt_lexer::{Mark, Token, TokenKind, Word};
use nt_read_expr::is_at;
use nt_value::Place;
use sqlite_items::Boxed;
use std::alloc::{AllocError, Global};

/// The word of an integral type that may have a range, where one stands first.
pub(crate) fn vector_first(tokens: &[Token]) -> Option<IntWord>
    ensures value { result ≡ tables.vector_of (reader.first tokens.now) }
    ensures within { IfSome result (λ _. 0 < length tokens.now) }
{
    match tokens {
        [
            Token {
                kind: TokenKind::Word(word),
                ..
            },
            ..
        ] => match *word {
            Word::Logic => Some(IntWord::Logic),
            Word::Reg => Some(IntWord::Reg),
            Word::Bit => Some(IntWord::Bit),
            _ => None,
        },
        _ => None,
    }
}

/// The word of an integral type of a fixed width, where one stands first.
pub(crate) fn atom_first(tokens: &[Token]) -> Option<IntWord>
    ensures value { result ≡ tables.atom_of (reader.first tokens.now) }
    ensures within { IfSome result (λ _. 0 < length tokens.now) }
{
    match tokens {
        [
            Token {
                kind: TokenKind::Word(word),
                ..
            },
            ..
        ] => match *word {
            Word::Byte => Some(IntWord::Byte),
            Word::Shortint => Some(IntWord::Shortint),
            Word::Int => Some(IntWord::Int),
            Word::Longint => Some(IntWord::Longint),
            Word::Integer => Some(IntWord::Integer),
            Word::Time => Some(IntWord::Time),
            _ => None,
        },
        _ => None,
    }
}

/// Whether the word that stands first says `signed`, where it says so or `unsigned`.
pub(crate) fn sign_first(tokens: &[Token]) -> Option<bool>
    ensures value { result ≡ tables.sign_of (reader.first tokens.now) }
    ensures within { IfSome result (λ _. 0 < length tokens.now) }
{
    match tokens {
        [
            Token {
                kind: TokenKind::Word(word),
                ..
            },
            ..
        ] => match *word {
            Word::Signed => Some(true),
            Word::Unsigned => Some(false),
            _ => None,
        },
        _ => None,
    }
}

/// Whether a name stands first.
#[tactic(auto, unfolding(crate::specs::Reader::is_name, nt_read_expr::specs::Reader::name_first))]
pub fn is_name(tokens: &[Token]) -> bool
    ensures value { result ≡ spec.is_name tokens.now }
    ensures within { result ≡ true → 0 < length tokens.now }
{
    match tokens {
        [
            Token {
                kind: TokenKind::Name(_),
                ..
            },
            ..
        ] => true,
        _ => false,
    }
}

/// The sign where one is written, and what follows.
#[tactic(auto, unfolding(crate::specs::Reader::sign))]
pub(crate) fn sign(tokens: &[Token]) -> (Option<bool>, &[Token])
    ensures { spec.sign tokens.now ≡ Some (result.0, result.1.now) }
{
    match sign_first(tokens) {
        None => (None, tokens),
        Some(signed) => (Some(signed), &tokens[1..]),
    }
}

/// Whether a dimension begins, and not the brackets of a dynamic array.
#[tactic(auto, unfolding(crate::specs::Reader::dim_goes))]
pub(crate) fn dim_goes(tokens: &[Token]) -> bool
    ensures { result ≡ spec.dim_goes tokens.now }
{
    if is_at(Mark::LeftBracket, tokens) {
        !is_at(Mark::RightBracket, &tokens[1..])
    } else {
        false
    }
}

/// Whether a name stands first that is no type.
#[tactic(auto, unfolding(crate::specs::Reader::is_bare))]
pub(crate) fn is_bare(tokens: &[Token]) -> bool
    ensures { result ≡ spec.is_bare tokens.now }
{
    if is_name(tokens) {
        !is_name(&tokens[1..]) && !is_at(Mark::Scope, &tokens[1..])
    } else {
        false
    }
}

/// The type that a declaration has where none is written: one bit of `logic`, at this place (IEEE 1800-2017, 6.10, 23.2.2.3).
pub fn one_bit(alloc: Global, at: Place) -> Result<Boxed<TypeTree>, AllocError>
    ensures { IfOk result (λ x. x ≡ tables.one_bit at) }
{
    Boxed::new(
        alloc,
        TypeTree::Integral {
            at,
            word: IntWord::Logic,
            signed: None,
            range: None,
        },
    )
}
