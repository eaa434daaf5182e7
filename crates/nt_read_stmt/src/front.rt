// What the first tokens of statements say.
ghost use Rattle.std.specs.Prelude.{◌≡◌, ◌<◌, length, true, IfSome, IfOk, Some, None};
ghost use Rattle.nt_lexer.specs.Numbers as numbers;
ghost use Rattle.nt_read_stmt.specs.Tables as tables;
ghost use Rattle.nt_read_expr.specs.Reader as reader;
ghost use Rattle.nt_read_stmt.specs.Reader as spec;
ghost use Rattle.nt_read_expr.specs.Gives.{Gives};

use nt_lexer::{Mark, Token, TokenKind, Word};
use nt_read_expr::{Stop, is_at, name_first};
use nt_value::{Binary, Bits, Edge, Leaf, Literal, Name, Text};
use std::alloc::Global;

/// What a first token begins.
#[derive(Clone, Copy, Debug, PartialEq, Eq)]
pub(crate) enum Form {
    /// `if`
    Choice,
    /// `begin`
    Block,
    /// `case`
    Case,
    /// What stands before one statement inside.
    Led,
    /// A statement that has none inside.
    Simple,
}

/// A system task (IEEE 1800-2017, 20.2, 21.2.1).
#[derive(Clone, Copy, Debug, PartialEq, Eq)]
pub enum Task {
    /// `$display`
    Display,
    /// `$finish`
    Finish,
}

/// Whether this word stands first.
#[tactic(auto, unfolding(crate::specs::Reader::is_word))]
pub fn is_word(word: Word, tokens: &[Token]) -> bool
    ensures value { result ≡ spec.is_word word tokens.now }
    ensures within { result ≡ true → 0 < length tokens.now }
{
    match tokens {
        [
            Token {
                kind: TokenKind::Word(found),
                ..
            },
            ..
        ] => *found == word,
        _ => false,
    }
}

/// What follows this word, where it stands first.
///
/// # Errors
///
/// `Refused` where it does not.
#[tactic(auto, unfolding(crate::specs::Reader::expect_word))]
pub fn expect_word(word: Word, tokens: &[Token]) -> Result<&[Token], Stop>
    ensures { Gives (λ x. x.now) result (spec.expect_word word tokens.now) }
{
    if is_word(word, tokens) {
        Ok(&tokens[1..])
    } else {
        Err(Stop::Refused)
    }
}

/// The name that stands first, and what follows.
///
/// # Errors
///
/// `Refused` where no name stands first, `Memory` where memory ran out.
#[tactic(auto, unfolding(crate::specs::Reader::take_name))]
pub fn take_name(alloc: Global, tokens: &[Token]) -> Result<(Name, &[Token]), Stop>
    ensures { Gives (λ x. (x.0, x.1.now)) result (spec.take_name tokens.now) }
{
    let name = name_first(alloc, tokens)?;
    Ok((name, &tokens[1..]))
}

/// Whether a name stands first.
#[tactic(auto, unfolding(nt_read_expr::specs::Reader::name_first))]
fn is_name(tokens: &[Token]) -> bool
    ensures value { result ≡ reader.is_some (reader.name_first tokens.now) }
    ensures within { result ≡ true → 0 < length tokens.now }
{
    match tokens {
        [
            Token {
                kind: TokenKind::Name(_),
                ..
            },
            ..
        ] => true,
        _ => false,
    }
}

/// Past the colon and the name that may follow a block or its `end` (IEEE 1800-2017, 9.3.4).
///
/// # Errors
///
/// `Refused` where a colon stands before no name.
#[tactic(auto, unfolding(crate::specs::Reader::past_label))]
pub fn past_label(tokens: &[Token]) -> Result<&[Token], Stop>
    ensures { Gives (λ x. x.now) result (spec.past_label tokens.now) }
{
    if !is_at(Mark::Colon, tokens) {
        return Ok(tokens);
    }
    if is_name(&tokens[1..]) {
        Ok(&tokens[2..])
    } else {
        Err(Stop::Refused)
    }
}

/// Past a number, where one stands first.
#[tactic(auto, unfolding(crate::specs::Reader::past_number))]
pub(crate) fn past_number(tokens: &[Token]) -> &[Token]
    ensures { result.now ≡ spec.past_number tokens.now }
{
    match tokens {
        [
            Token {
                kind: TokenKind::Number(_),
                ..
            },
            rest @ ..,
        ] => rest,
        _ => tokens,
    }
}

/// Past a colon, where one stands first.
#[tactic(auto, unfolding(crate::specs::Reader::past_colon))]
pub fn past_colon(tokens: &[Token]) -> &[Token]
    ensures { result.now ≡ spec.past_colon tokens.now }
{
    if is_at(Mark::Colon, tokens) {
        &tokens[1..]
    } else {
        tokens
    }
}

/// Past `int`, where it stands first.
#[tactic(auto, unfolding(crate::specs::Reader::past_int))]
pub(crate) fn past_int(tokens: &[Token]) -> &[Token]
    ensures { result.now ≡ spec.past_int tokens.now }
{
    if is_word(Word::Int, tokens) {
        &tokens[1..]
    } else {
        tokens
    }
}

/// The text that stands first.
pub(crate) fn text_first(alloc: Global, tokens: &[Token]) -> Result<Text, Stop>
    ensures value { Gives (λ t. t) result (spec.text_kind (reader.first tokens.now)) }
    ensures within { IfOk result (λ _. 0 < length tokens.now) }
{
    match tokens {
        [
            Token {
                kind: TokenKind::Text(text),
                ..
            },
            ..
        ] => Ok(text.copy(alloc)?),
        _ => Err(Stop::Refused),
    }
}

/// The operator of a mark that `=` may follow in an assignment.
pub(crate) fn compound_of(mark: Mark) -> Option<Binary>
    ensures { result ≡ tables.compound_of mark }
{
    match mark {
        Mark::Plus => Some(Binary::Add),
        Mark::Minus => Some(Binary::Sub),
        Mark::Star => Some(Binary::Mul),
        Mark::Slash => Some(Binary::Div),
        Mark::Percent => Some(Binary::Rem),
        Mark::And => Some(Binary::And),
        Mark::Or => Some(Binary::Or),
        Mark::Xor => Some(Binary::Xor),
        Mark::ShiftLeft => Some(Binary::Shl),
        Mark::ShiftRight => Some(Binary::Shr),
        Mark::ArithmeticRight => Some(Binary::Sshr),
        _ => None,
    }
}

/// The operator of `++` and `--`.
pub(crate) fn step_of(mark: Mark) -> Option<Binary>
    ensures { result ≡ tables.step_of mark }
{
    match mark {
        Mark::PlusPlus => Some(Binary::Add),
        Mark::MinusMinus => Some(Binary::Sub),
        _ => None,
    }
}

/// The literal that `++` and `--` add and take away.
pub(crate) fn one() -> Literal
    ensures { result ≡ numbers.decimal_literal 1 }
{
    let leaf = Leaf {
        width: 32,
        signed: true,
        four: true,
    };
    Literal {
        bits: Bits::number(leaf, 1),
        sized: false,
        fill: false,
    }
}

/// The edge whose word stands first.
pub(crate) fn edge_first(tokens: &[Token]) -> Option<Edge>
    ensures value { result ≡ tables.edge_of (reader.first tokens.now) }
    ensures within { IfSome result (λ _. 0 < length tokens.now) }
{
    match tokens {
        [
            Token {
                kind: TokenKind::Word(word),
                ..
            },
            ..
        ] => match *word {
            Word::Posedge => Some(Edge::Pos),
            Word::Negedge => Some(Edge::Neg),
            _ => None,
        },
        _ => None,
    }
}

#[tactic(auto, unfolding(crate::specs::Tables::task_of))]
pub(crate) fn task_of(name: &Name) -> Option<Task>
    ensures { result ≡ tables.task_of name.now }
{
    let text = name.items();
    if text == b"display".as_slice() {
        Some(Task::Display)
    } else if text == b"finish".as_slice() {
        Some(Task::Finish)
    } else {
        None
    }
}

/// What a first token begins.
pub(crate) fn form_of(kind: &TokenKind) -> Form
    ensures { result ≡ tables.form_of kind.now }
{
    match kind {
        TokenKind::Word(word) => match *word {
            Word::If => Form::Choice,
            Word::Begin => Form::Block,
            Word::Case => Form::Case,
            Word::While | Word::Repeat | Word::For | Word::Forever | Word::Foreach | Word::Wait =>
                Form::Led,
            _ => Form::Simple,
        },
        TokenKind::Mark(Mark::Hash | Mark::At) => Form::Led,
        _ => Form::Simple,
    }
}

/// Whether the first token may stand after a statement.
pub fn statement_stop(tokens: &[Token]) -> bool
    ensures { result ≡ tables.statement_stop tokens.now }
{
    match tokens {
        [] => false,
        [first, ..] => match first.kind {
            TokenKind::Word(Word::Else) | TokenKind::Mark(Mark::Colon) => false,
            _ => true,
        },
    }
}
