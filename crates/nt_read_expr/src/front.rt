// What the first tokens say.
ghost use Rattle.std.specs.Prelude.{◌≡◌, ◌<◌, length, true, false, IfSome, IfOk, Some, Option};
ghost use Rattle.nt_read_expr.specs.Tables as tables;
ghost use Rattle.nt_read_expr.specs.Reader as spec;
ghost use Rattle.nt_read_expr.specs.Gives.{Gives};

use crate::stop::Stop;
use nt_ast::{Key, Path};
use nt_lexer::{Mark, Token, TokenKind, Word};
use nt_value::{Binary, Name, Place, Unary};
use std::alloc::Global;

/// A system function of expressions (IEEE 1800-2017, 11.7, 20.3).
#[derive(Clone, Copy, Debug, PartialEq, Eq)]
pub enum System {
    /// `$time`
    Time,
    /// `$signed`, and `$unsigned` where it is false.
    Sign(bool),
}

/// The place of the first token.
pub fn start(tokens: &[Token]) -> Place
    ensures { result ≡ tables.start tokens.now }
{
    match tokens {
        [first, ..] => first.at,
        [] => Place {
            file: 0,
            offset: 0,
            line: 0,
            column: 0,
        },
    }
}

/// Whether this mark stands first.
#[tactic(auto, unfolding(crate::specs::Reader::is_at))]
pub fn is_at(mark: Mark, tokens: &[Token]) -> bool
    ensures value { result ≡ spec.is_at mark tokens.now }
    ensures within { result ≡ true → 0 < length tokens.now }
{
    match tokens {
        [
            Token {
                kind: TokenKind::Mark(found),
                ..
            },
            ..
        ] => *found == mark,
        _ => false,
    }
}

/// What follows this mark, where it stands first.
///
/// # Errors
///
/// `Stop::Refused` where that does not stand there, and `Stop::Memory` where memory ran out.
#[tactic(auto, unfolding(crate::specs::Reader::expect))]
pub fn expect(mark: Mark, tokens: &[Token]) -> Result<&[Token], Stop>
    ensures { Gives (λ x. x.now) result (spec.expect mark tokens.now) }
{
    if is_at(mark, tokens) {
        Ok(&tokens[1..])
    } else {
        Err(Stop::Refused)
    }
}

fn binary_of(mark: Mark) -> Option<Binary>
    ensures { result ≡ tables.binary_of mark }
{
    match mark {
        Mark::Star => Some(Binary::Mul),
        Mark::Slash => Some(Binary::Div),
        Mark::Percent => Some(Binary::Rem),
        Mark::Plus => Some(Binary::Add),
        Mark::Minus => Some(Binary::Sub),
        Mark::ShiftLeft | Mark::ArithmeticLeft => Some(Binary::Shl),
        Mark::ShiftRight => Some(Binary::Shr),
        Mark::ArithmeticRight => Some(Binary::Sshr),
        Mark::Less => Some(Binary::Lt),
        Mark::LessEqual => Some(Binary::Le),
        Mark::Greater => Some(Binary::Gt),
        Mark::GreaterEqual => Some(Binary::Ge),
        Mark::Equal => Some(Binary::Eq),
        Mark::NotEqual => Some(Binary::Ne),
        Mark::CaseEqual => Some(Binary::CaseEq),
        Mark::NotCaseEqual => Some(Binary::CaseNe),
        Mark::And => Some(Binary::And),
        Mark::Xor => Some(Binary::Xor),
        Mark::TildeXor | Mark::XorTilde => Some(Binary::Xnor),
        Mark::Or => Some(Binary::Or),
        Mark::AndAnd => Some(Binary::LogicalAnd),
        Mark::OrOr => Some(Binary::LogicalOr),
        _ => None,
    }
}

fn level(op: Binary) -> u8
    ensures { result ≡ tables.level op }
{
    match op {
        Binary::Mul | Binary::Div | Binary::Rem => 1,
        Binary::Add | Binary::Sub => 2,
        Binary::Shl | Binary::Shr | Binary::Sshr => 3,
        Binary::Lt | Binary::Le | Binary::Gt | Binary::Ge => 4,
        Binary::Eq | Binary::Ne | Binary::CaseEq | Binary::CaseNe => 5,
        Binary::And => 6,
        Binary::Xor | Binary::Xnor => 7,
        Binary::Or => 8,
        Binary::LogicalAnd => 9,
        Binary::LogicalOr => 10,
    }
}

pub(crate) fn unary_of(mark: Mark) -> Option<Unary>
    ensures { result ≡ tables.unary_of mark }
{
    match mark {
        Mark::Plus => Some(Unary::Plus),
        Mark::Minus => Some(Unary::Minus),
        Mark::Not => Some(Unary::LogicalNot),
        Mark::Tilde => Some(Unary::Not),
        Mark::And => Some(Unary::RedAnd),
        Mark::TildeAnd => Some(Unary::RedNand),
        Mark::Or => Some(Unary::RedOr),
        Mark::TildeOr => Some(Unary::RedNor),
        Mark::Xor => Some(Unary::RedXor),
        Mark::TildeXor | Mark::XorTilde => Some(Unary::RedXnor),
        _ => None,
    }
}

pub(crate) fn upward(mark: Mark) -> Option<bool>
    ensures { result ≡ tables.upward mark }
{
    match mark {
        Mark::PlusColon => Some(true),
        Mark::MinusColon => Some(false),
        _ => None,
    }
}

/// The operator of the level, where the first token is one.
#[tactic(auto, unfolding(crate::specs::Reader::binary_first))]
pub(crate) fn binary_at(height: u8, tokens: &[Token]) -> Option<Binary>
    ensures value { result ≡ spec.binary_first height tokens.now }
    ensures within { IfSome result (λ _. 0 < length tokens.now) }
{
    let [
        Token {
            kind: TokenKind::Mark(found),
            ..
        },
        ..
    ] = tokens
    else {
        return None;
    };
    let op = binary_of(*found)?;
    if level(op) == height { Some(op) } else { None }
}

#[tactic(auto, unfolding(crate::specs::Tables::system_of))]
pub(crate) fn system_of(name: &Name) -> Option<System>
    ensures { result ≡ tables.system_of name.now }
{
    let text = name.items();
    if text == b"time".as_slice() {
        Some(System::Time)
    } else if text == b"signed".as_slice() {
        Some(System::Sign(true))
    } else if text == b"unsigned".as_slice() {
        Some(System::Sign(false))
    } else {
        None
    }
}

#[tactic(auto, unfolding(crate::specs::Tables::is_size))]
fn is_size(name: &Name) -> bool
    ensures { result ≡ tables.is_size name.now }
{
    name.items() == b"size".as_slice()
}

/// Whether a name after a dot is a member.
fn is_member(free: bool, name: &Name) -> bool
    ensures { result ≡ tables.is_member free name.now }
{
    if free { true } else { !is_size(name) }
}

/// The name that stands first.
///
/// # Errors
///
/// `Stop::Refused` where that does not stand there, and `Stop::Memory` where memory ran out.
#[tactic(auto, unfolding(crate::specs::Reader::name_first))]
pub fn name_first(alloc: Global, tokens: &[Token]) -> Result<Name, Stop>
    ensures value { Gives (λ n. n) result (spec.name_first tokens.now) }
    ensures within { IfOk result (λ _. 0 < length tokens.now) }
{
    match tokens {
        [
            Token {
                kind: TokenKind::Name(name),
                ..
            },
            ..
        ] => Ok(name.copy(alloc)?),
        _ => Err(Stop::Refused),
    }
}

/// Whether `.size` stands first.
#[tactic(auto, unfolding(crate::specs::Reader::dotted, crate::specs::Reader::name_first))]
pub(crate) fn is_sized(tokens: &[Token]) -> bool
    ensures value { result ≡ spec.is_some (spec.dotted tables.is_size tokens.now) }
    ensures within { result ≡ true → 1 < length tokens.now }
{
    if !is_at(Mark::Dot, tokens) {
        return false;
    }
    match &tokens[1..] {
        [
            Token {
                kind: TokenKind::Name(name),
                ..
            },
            ..
        ] => is_size(name),
        _ => false,
    }
}

/// The name of a member that stands first, after its dot. Where `free`, `size` is one too.
#[tactic(auto, unfolding(crate::specs::Reader::dotted, crate::specs::Reader::name_first))]
pub(crate) fn member_first(
    alloc: Global,
    free: bool,
    tokens: &[Token],
) -> Result<Option<Name>, Stop>
    ensures value { Gives (λ n. n) result (Some (spec.dotted (tables.is_member free) tokens.now)) }
    ensures within { IfOk result (λ n. IfSome n (λ _. 1 < length tokens.now)) }
{
    if !is_at(Mark::Dot, tokens) {
        return Ok(None);
    }
    match &tokens[1..] {
        [
            Token {
                kind: TokenKind::Name(name),
                ..
            },
            ..
        ] => {
            if is_member(free, name) {
                Ok(Some(name.copy(alloc)?))
            } else {
                Ok(None)
            }
        }
        _ => Ok(None),
    }
}

/// The key that stands first, with its colon.
#[tactic(auto, unfolding(crate::specs::Reader::key_first, crate::specs::Reader::is_at))]
pub(crate) fn key_first(alloc: Global, tokens: &[Token]) -> Result<Option<Key>, Stop>
    ensures value { Gives (λ n. n) result (Some (spec.key_first tokens.now)) }
    ensures within { IfOk result (λ n. IfSome n (λ _. 1 < length tokens.now)) }
{
    let [Token { kind, .. }, rest @ ..] = tokens else {
        return Ok(None);
    };
    if !is_at(Mark::Colon, rest) {
        return Ok(None);
    }
    match kind {
        TokenKind::Name(name) => Ok(Some(Key::Member(name.copy(alloc)?))),
        TokenKind::Word(Word::Default) => Ok(Some(Key::Other)),
        _ => Ok(None),
    }
}

/// Past empty parentheses.
#[tactic(auto, unfolding(crate::specs::Reader::past_parens))]
pub(crate) fn past_parens(tokens: &[Token]) -> &[Token]
    ensures { result.now ≡ spec.past_parens tokens.now }
{
    if is_at(Mark::LeftParen, tokens) && is_at(Mark::RightParen, &tokens[1..]) {
        &tokens[2..]
    } else {
        tokens
    }
}

/// A reference whose first name was taken.
///
/// # Errors
///
/// `Stop::Refused` where that does not stand there, and `Stop::Memory` where memory ran out.
#[tactic(auto, unfolding(crate::specs::Reader::reference))]
pub fn reference<'a>(
    alloc: Global,
    at: Place,
    name: &Name,
    tokens: &'a [Token],
) -> Result<(Path, &'a [Token]), Stop>
    ensures { Gives (λ x. (x.0, x.1.now)) result (spec.reference at name.now tokens.now) }
{
    let first = name.copy(alloc)?;
    if is_at(Mark::Scope, tokens) {
        let name = name_first(alloc, &tokens[1..])?;
        let scope = Some(first);
        Ok((Path { at, scope, name }, &tokens[2..]))
    } else {
        let path = Path {
            at,
            scope: None,
            name: first,
        };
        Ok((path, tokens))
    }
}

/// Whether the first token may stand after an expression.
pub fn stop_first(tokens: &[Token]) -> bool
    ensures { result ≡ tables.stop_first tokens.now }
{
    match tokens {
        [] => false,
        [first, ..] => match first.kind {
            TokenKind::Mark(
                Mark::Semicolon
                | Mark::Comma
                | Mark::RightParen
                | Mark::RightBracket
                | Mark::RightBrace
                | Mark::LeftBrace
                | Mark::Colon
                | Mark::PlusColon
                | Mark::MinusColon
                | Mark::Assign,
            )
            | TokenKind::Word(Word::Or)
            | TokenKind::End => true,
            _ => false,
        },
    }
}
