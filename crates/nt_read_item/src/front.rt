// What the first tokens of items say.
ghost use Rattle.std.specs.Prelude.{◌≡◌, ◌<◌, length, true, Some, IfSome};
ghost use Rattle.nt_read_expr.specs.Gives.{Gives};
ghost use Rattle.nt_read_expr.specs.Reader as reader;
ghost use Rattle.nt_read_item.specs.Tables as tables;
ghost use Rattle.nt_read_item.specs.Reader as spec;

use nt_lexer::{Mark, Token, TokenKind, Word};
use nt_read_expr::is_at;
use nt_read_stmt::is_word;
use nt_read_unit::is_name;
use nt_value::ProcKind;

/// The form of an item.
#[derive(Clone, Copy, Debug, PartialEq, Eq)]
pub enum Form {
    Import,
    Params,
    Typedef,
    Nettype,
    Function,
    Nets,
    Vars,
    Assigns,
    Instances,
    Procedure,
}

/// Whether this word stands first, and what follows it where it does.
#[tactic(auto, unfolding(crate::specs::Reader::flag))]
pub fn flag(word: Word, tokens: &[Token]) -> (bool, &[Token])
    ensures { spec.flag word tokens.now ≡ Some (result.0, result.1.now) }
{
    if is_word(word, tokens) {
        (true, &tokens[1..])
    } else {
        (false, tokens)
    }
}

/// Whether a word of parameters says that they are local, where one stands first.
pub(crate) fn param_first(tokens: &[Token]) -> Option<bool>
    ensures value { result ≡ tables.param_of (reader.first tokens.now) }
    ensures within { IfSome result (λ _. 0 < length tokens.now) }
{
    match tokens {
        [
            Token {
                kind: TokenKind::Word(word),
                ..
            },
            ..
        ] => match *word {
            Word::Parameter => Some(false),
            Word::Localparam => Some(true),
            _ => None,
        },
        _ => None,
    }
}

/// Whether a word of wires stands first.
pub(crate) fn wire_first(tokens: &[Token]) -> bool
    ensures value { result ≡ tables.wire_of (reader.first tokens.now) }
    ensures within { result ≡ true → 0 < length tokens.now }
{
    match tokens {
        [
            Token {
                kind: TokenKind::Word(word),
                ..
            },
            ..
        ] => match *word {
            Word::Wire | Word::Tri => true,
            _ => false,
        },
        _ => false,
    }
}

/// The kind of a procedure, where its word stands first.
pub(crate) fn proc_first(tokens: &[Token]) -> Option<ProcKind>
    ensures value { result ≡ tables.proc_of (reader.first tokens.now) }
    ensures within { IfSome result (λ _. 0 < length tokens.now) }
{
    match tokens {
        [
            Token {
                kind: TokenKind::Word(word),
                ..
            },
            ..
        ] => match *word {
            Word::Initial => Some(ProcKind::Initial),
            Word::Always => Some(ProcKind::Always),
            Word::AlwaysComb => Some(ProcKind::Comb),
            Word::AlwaysFf => Some(ProcKind::Ff),
            _ => None,
        },
        _ => None,
    }
}

fn lifetime_first(tokens: &[Token]) -> Option<bool>
    ensures value { result ≡ tables.lifetime_of (reader.first tokens.now) }
    ensures within { IfSome result (λ _. 0 < length tokens.now) }
{
    match tokens {
        [
            Token {
                kind: TokenKind::Word(word),
                ..
            },
            ..
        ] => match *word {
            Word::Automatic => Some(true),
            Word::Static => Some(false),
            _ => None,
        },
        _ => None,
    }
}

/// Whether each call of a function has its own variables, and what follows the word that says so.
#[tactic(auto, unfolding(crate::specs::Reader::lifetime))]
pub(crate) fn lifetime(tokens: &[Token]) -> (bool, &[Token])
    ensures { spec.lifetime tokens.now ≡ Some (result.0, result.1.now) }
{
    match lifetime_first(tokens) {
        None => (false, tokens),
        Some(own) => (own, &tokens[1..]),
    }
}

/// Whether a word stands first that a variable of a function may begin with.
fn begins_local(tokens: &[Token]) -> bool
    ensures { result ≡ spec.begins_local (reader.first tokens.now) }
{
    match tokens {
        [
            Token {
                kind: TokenKind::Word(word),
                ..
            },
            ..
        ] => match *word {
            Word::Automatic
            | Word::Struct
            | Word::Logic
            | Word::Reg
            | Word::Bit
            | Word::Byte
            | Word::Shortint
            | Word::Int
            | Word::Longint
            | Word::Integer
            | Word::Time => true,
            _ => false,
        },
        _ => false,
    }
}

/// Whether a name that is a type stands first, before one that is declared.
#[tactic(auto, unfolding(crate::specs::Reader::named_type))]
fn named_type(tokens: &[Token]) -> bool
    ensures { result ≡ spec.named_type tokens.now }
{
    if !is_name(tokens) {
        return false;
    }
    if !is_at(Mark::Scope, &tokens[1..]) {
        return is_name(&tokens[1..]);
    }
    if is_name(&tokens[2..]) {
        is_name(&tokens[3..])
    } else {
        false
    }
}

/// Whether a variable of a function begins.
#[tactic(auto, unfolding(crate::specs::Reader::local_goes))]
pub(crate) fn local_goes(tokens: &[Token]) -> bool
    ensures { result ≡ spec.local_goes tokens.now }
{
    if begins_local(tokens) {
        true
    } else {
        named_type(tokens)
    }
}

/// Whether the name that stands first is a module's, and not a type's.
#[tactic(auto, unfolding(crate::specs::Reader::instance_goes))]
fn instance_goes(tokens: &[Token]) -> bool
    requires { 0 < length tokens.now }
    ensures { result ≡ spec.instance_goes tokens.now }
{
    let rest = &tokens[1..];
    if is_at(Mark::Hash, rest) {
        return true;
    }
    if is_name(rest) {
        is_at(Mark::LeftParen, &rest[1..])
    } else {
        false
    }
}

/// The form of item that begins here.
#[tactic(auto, unfolding(crate::specs::Reader::form_of))]
pub fn form_of(tokens: &[Token]) -> Form
    ensures { result ≡ spec.form_of tokens.now }
{
    match tokens {
        [
            Token {
                kind: TokenKind::Word(word),
                ..
            },
            ..
        ] => match *word {
            Word::Import => Form::Import,
            Word::Parameter | Word::Localparam => Form::Params,
            Word::Typedef => Form::Typedef,
            Word::Nettype => Form::Nettype,
            Word::Function => Form::Function,
            Word::Wire | Word::Tri | Word::Interconnect => Form::Nets,
            Word::Assign => Form::Assigns,
            Word::Initial | Word::Always | Word::AlwaysComb | Word::AlwaysFf => Form::Procedure,
            _ => Form::Vars,
        },
        [
            Token {
                kind: TokenKind::Name(_),
                ..
            },
            ..
        ] => {
            if instance_goes(tokens) {
                Form::Instances
            } else {
                Form::Vars
            }
        }
        _ => Form::Vars,
    }
}
