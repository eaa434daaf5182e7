// What the first tokens of ports and units say.
ghost use Rattle.std.specs.Prelude.{◌≡◌, ◌<◌, length, true, Some, IfSome};
ghost use Rattle.nt_read_expr.specs.Reader as reader;
ghost use Rattle.nt_read_module.specs.Tables as tables;
ghost use Rattle.nt_read_module.specs.Reader as spec;

use nt_items::{PortKind, Way};
use nt_lexer::{Token, TokenKind, Word};

fn way_first(tokens: &[Token]) -> Option<Way>
    ensures value { result ≡ tables.way_of (reader.first tokens.now) }
    ensures within { IfSome result (λ _. 0 < length tokens.now) }
{
    match tokens {
        [
            Token {
                kind: TokenKind::Word(word),
                ..
            },
            ..
        ] => match *word {
            Word::Input => Some(Way::Input),
            Word::Output => Some(Way::Output),
            Word::Inout => Some(Way::Inout),
            _ => None,
        },
        _ => None,
    }
}

fn net_first(tokens: &[Token]) -> Option<PortKind>
    ensures value { result ≡ tables.net_of (reader.first tokens.now) }
    ensures within { IfSome result (λ _. 0 < length tokens.now) }
{
    match tokens {
        [
            Token {
                kind: TokenKind::Word(word),
                ..
            },
            ..
        ] => match *word {
            Word::Wire | Word::Tri => Some(PortKind::Wire),
            Word::Var => Some(PortKind::Variable),
            Word::Interconnect => Some(PortKind::Interconnect),
            _ => None,
        },
        _ => None,
    }
}

/// The direction of a port, where it is written, and what follows.
#[tactic(auto, unfolding(crate::specs::Reader::maybe_by))]
pub(crate) fn way(tokens: &[Token]) -> (Option<Way>, &[Token])
    ensures { spec.maybe_by tables.way_of tokens.now ≡ Some (result.0, result.1.now) }
{
    match way_first(tokens) {
        None => (None, tokens),
        Some(found) => (Some(found), &tokens[1..]),
    }
}

/// What a port is, where it is written, and what follows.
#[tactic(auto, unfolding(crate::specs::Reader::maybe_by))]
pub(crate) fn net(tokens: &[Token]) -> (Option<PortKind>, &[Token])
    ensures { spec.maybe_by tables.net_of tokens.now ≡ Some (result.0, result.1.now) }
{
    match net_first(tokens) {
        None => (None, tokens),
        Some(found) => (Some(found), &tokens[1..]),
    }
}

/// Whether the file ends.
pub(crate) fn is_end(tokens: &[Token]) -> bool
    ensures { result ≡ spec.is_end (reader.first tokens.now) }
{
    match tokens {
        [] => true,
        [first, ..] => match first.kind {
            TokenKind::End => true,
            _ => false,
        },
    }
}
