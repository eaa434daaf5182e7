// What stands at the front of a text.
ghost use Rattle.std.specs.Prelude.{◌≡◌, ◌+◌, ◌-◌, ◌<◌, ◌≤◌, IfSome, IfOk, None, Some, drop, length, map, take};
ghost use Rattle.nt_lexer.specs.Bytes as bytes;
ghost use Rattle.nt_lexer.specs.declared.cut.TheConstants as constants;
ghost use Rattle.nt_lexer.specs.Numbers as numbers;
ghost use Rattle.nt_lexer.specs.Directives.{named};
ghost use Rattle.nt_lexer.specs.Pieces as spec;
ghost use Rattle.nt_lexer.specs.Spellings.{marks, words};
ghost use Rattle.nt_lexer.specs.Steps.{IsPieceOf, IsRange};
ghost use Rattle.nt_lexer.specs.declared.kinds.Piece.TheVariants.{Wrong};

use crate::directives::{default_nettype, timescale};
use crate::kinds::{
    Based, HIGH_MARKS, LOW_MARKS, MARKS, MIDDLE_MARKS, Mark, Piece, Run, Sort, TOP_MARKS,
    TokenKind, WORD_RANGES, WORDS, Word,
};
use crate::numbers::{
    based_front, based_literal, decimal, decimal_literal, fill_literal, filling_front, fits_word,
};
use crate::scan::{front_len, lookup_in, run_len, sort};
use crate::texts::{begins_with, closing, inside_len, text_value};
use nt_diag::Rule;
use nt_value::{Name, Text, WIDEST};
use std::alloc::{AllocError, Global};

// Where the words that begin with the byte stand among all.
fn word_range(first: u8) -> (usize, usize)
    ensures { IsRange words first result }
{
    if first.is_ascii_lowercase() {
        WORD_RANGES[usize::from(first - b'a')]
    } else {
        (0, 0)
    }
}

fn word_named(text: &[u8]) -> Option<Word>
    ensures { result ≡ named words text.now }
{
    let [first, ..] = text else {
        return None;
    };
    lookup_in(&WORDS, word_range(*first), text)
}

fn word_or_name(alloc: Global, text: &[u8]) -> Result<TokenKind, AllocError>
    ensures { IfOk result (λ kind. kind ≡ spec.word_or_name text.now (named words text.now)) }
{
    match word_named(text) {
        Some(word) => Ok(TokenKind::Word(word)),
        None => {
            let name = Name::from_slice(alloc, text)?;
            Ok(TokenKind::Name(name))
        }
    }
}

// The name at the front.
#[tactic(auto, unfolding(crate::specs::Pieces::name_piece))]
fn name_piece(alloc: Global, text: &[u8]) -> Result<Piece, AllocError>
    requires { 0 < length text.now }
    ensures value { IfOk result (λ piece. piece ≡ spec.name_piece text.now) }
    ensures fits { IfOk result (λ piece. IsPieceOf (length text.now) piece) }
{
    let len = front_len(Run::Name, text);
    if 256 < len {
        return Ok(Piece::Wrong(Rule::X4, 0));
    }
    let kind = word_or_name(alloc, &text[..len])?;
    Ok(Piece::Take(len, kind))
}

// The system name whose `$` stands before the text.
#[tactic(auto, unfolding(crate::specs::Pieces::system_piece))]
fn system_piece(alloc: Global, text: &[u8]) -> Result<Piece, AllocError>
    ensures value { IfOk result (λ piece. piece ≡ spec.system_piece text.now) }
    ensures fits { IfOk result (λ piece. IsPieceOf (1 + length text.now) piece) }
{
    let [first, ..] = text else {
        return Ok(Piece::Wrong(Rule::X1, 0));
    };
    if sort(*first) != Sort::Letter {
        return Ok(Piece::Wrong(Rule::X1, 0));
    }
    let len = front_len(Run::Name, text);
    if 256 < len {
        return Ok(Piece::Wrong(Rule::X4, 0));
    }
    let name = Name::from_slice(alloc, &text[..len])?;
    Ok(Piece::Take(1 + len, TokenKind::System(name)))
}

#[tactic(auto, unfolding(crate::specs::Pieces::decimal_piece))]
fn decimal_piece(digits: &[u8]) -> Piece
    requires { 0 < length digits.now }
    ensures value { result ≡ spec.decimal_piece (length digits.now) digits.now }
    ensures fits { IsPieceOf (length digits.now) result }
{
    match decimal(digits, 2147483647) {
        None => Piece::Wrong(Rule::X3, 0),
        Some(number) => Piece::Take(digits.len(), TokenKind::Number(decimal_literal(number))),
    }
}

// A based literal after its size.
#[tactic(auto, unfolding(crate::specs::Pieces::sized_piece))]
fn sized_piece(alloc: Global, size: &[u8], based: Based, rest: &[u8]) -> Result<Piece, AllocError>
    requires within { based.before + based.len ≤ length rest.now }
    requires some { 0 < length size.now }
    ensures value { IfOk result (λ piece. piece ≡ spec.sized_piece (length size.now) size.now based rest.now) }
    ensures fits { IfOk result (λ piece. IsPieceOf (length size.now + length rest.now) piece) }
{
    match decimal(size, u64::from(WIDEST)) {
        None | Some(0) => Ok(Piece::Wrong(Rule::X3, 0)),
        Some(width) => {
            let literal = based_literal(alloc, width as u8, true, based, rest)?;
            Ok(Piece::Take(
                size.len() + (based.before + based.len),
                TokenKind::Number(literal),
            ))
        }
    }
}

// The number at the front, which is a digit.
#[tactic(auto, unfolding(crate::specs::Pieces::number_piece))]
fn number_piece(alloc: Global, text: &[u8]) -> Result<Piece, AllocError>
    requires { 0 < length text.now }
    ensures value { IfOk result (λ piece. piece ≡ spec.number_piece text.now) }
    ensures fits { IfOk result (λ piece. IsPieceOf (length text.now) piece) }
{
    let len = front_len(Run::Number, text);
    let digits = &text[..len];
    let rest = &text[len..];
    match based_front(rest) {
        None => Ok(decimal_piece(digits)),
        Some(based) => {
            let piece = sized_piece(alloc, digits, based, rest)?;
            Ok(piece)
        }
    }
}

// A based literal without a size.
#[tactic(auto, unfolding(crate::specs::Pieces::unsized_piece))]
fn unsized_piece(alloc: Global, based: Based, text: &[u8]) -> Result<Piece, AllocError>
    requires within { based.before + based.len ≤ length text.now }
    requires some { 0 < based.len }
    ensures value { IfOk result (λ piece. piece ≡ spec.unsized_piece based text.now) }
    ensures fits { IfOk result (λ piece. IsPieceOf (length text.now) piece) }
{
    let digits = &text[based.before..based.before + based.len];
    let fits = fits_word(alloc, based.radix, digits)?;
    if !fits {
        return Ok(Piece::Wrong(Rule::X3, 0));
    }
    let literal = based_literal(alloc, 32, false, based, text)?;
    Ok(Piece::Take(based.before + based.len, TokenKind::Number(literal)))
}

// The first mark of the table that stands at the front.
fn first_mark(mut table: &[(&[u8], Mark)], text: &[u8]) -> Option<(Mark, usize)>
    ensures value { result ≡ spec.first_mark (map (λ m. (m.0.now, m.1)) table.entry.now) text.now }
    ensures within { IfSome result (λ found. found.1 ≤ length text.now) }
{
    while let [entry, rest @ ..] = table {
        if text.starts_with(entry.0) {
            return Some((entry.1, entry.0.len()));
        }
        table = rest;
    }
    None
}

// Where the marks that begin with the byte stand among all. Where none can, that is anywhere.
fn mark_range(first: u8) -> (usize, usize)
    ensures { IsRange marks first result }
{
    match first {
        b'!'..=b'/' => LOW_MARKS[usize::from(first - b'!')],
        b':'..=b'@' => MIDDLE_MARKS[usize::from(first - b':')],
        b'['..=b'^' => HIGH_MARKS[usize::from(first - b'[')],
        b'{'..=b'~' => TOP_MARKS[usize::from(first - b'{')],
        _ => (0, MARKS.len()),
    }
}

// The first mark of a part of the table that stands at the front.
fn mark_in(table: &[(&[u8], Mark)], part: (usize, usize), text: &[u8]) -> Option<(Mark, usize)>
    requires ordered { part.0 ≤ part.1 }
    requires inside { part.1 ≤ length table.now }
    ensures value { result ≡ spec.first_mark (take (part.1 - part.0) (drop part.0 (map (λ m. (m.0.now, m.1)) table.now))) text.now }
    ensures within { IfSome result (λ found. found.1 ≤ length text.now) }
{
    first_mark(&table[part.0..part.1], text)
}

// The mark at the front.
fn mark_at(text: &[u8]) -> Option<(Mark, usize)>
    ensures value { result ≡ spec.first_mark marks text.now }
    ensures some { IfSome result (λ found. 0 < found.1) }
    ensures within { IfSome result (λ found. found.1 ≤ length text.now) }
{
    let [first, ..] = text else {
        return None;
    };
    mark_in(&MARKS, mark_range(*first), text)
}

fn mark_or(text: &[u8], rule: Rule) -> Piece
    ensures value { result ≡ spec.mark_or (spec.first_mark marks text.now) (Wrong rule 0) }
    ensures fits { IsPieceOf (length text.now) result }
{
    match mark_at(text) {
        Some((mark, len)) => Piece::Take(len, TokenKind::Mark(mark)),
        None => Piece::Wrong(rule, 0),
    }
}

// What begins with `'`.
#[tactic(auto, unfolding(crate::specs::Pieces::tick_piece))]
fn tick_piece(alloc: Global, text: &[u8]) -> Result<Piece, AllocError>
    ensures value { IfOk result (λ piece. piece ≡ spec.tick_piece text.now) }
    ensures fits { IfOk result (λ piece. IsPieceOf (length text.now) piece) }
{
    if let Some(based) = based_front(text) {
        let piece = unsized_piece(alloc, based, text)?;
        return Ok(piece);
    }
    match filling_front(text) {
        Some(digit) => Ok(Piece::Take(2, TokenKind::Number(fill_literal(digit)))),
        None => Ok(mark_or(text, Rule::X3)),
    }
}

// The text with these bytes between its quotes.
#[tactic(auto, unfolding(crate::specs::Pieces::whole_text))]
fn whole_text(alloc: Global, inside: &[u8]) -> Result<Piece, AllocError>
    requires { length inside.now ≤ constants.MOST_BYTES }
    ensures value { IfOk result (λ piece. piece ≡ spec.whole_text inside.now) }
    ensures fits { IfOk result (λ piece. IsPieceOf (2 + length inside.now) piece) }
{
    let good = run_len(Run::Text, inside);
    if good < inside.len() {
        return Ok(Piece::Wrong(Rule::X1, 1 + good));
    }
    let said = text_value(alloc, inside)?;
    Ok(Piece::Take(inside.len() + 2, TokenKind::Text(Text::new(said))))
}

// The text whose opening quote stands before.
#[tactic(auto, unfolding(crate::specs::Pieces::text_piece))]
fn text_piece(alloc: Global, text: &[u8]) -> Result<Piece, AllocError>
    requires { length text.now ≤ constants.MOST_BYTES }
    ensures value { IfOk result (λ piece. piece ≡ spec.text_piece text.now) }
    ensures fits { IfOk result (λ piece. IsPieceOf (1 + length text.now) piece) }
{
    match inside_len(text) {
        None => Ok(Piece::Wrong(Rule::X3, 0)),
        Some(len) => {
            let piece = whole_text(alloc, &text[..len])?;
            Ok(piece)
        }
    }
}

// A comment or a mark.
#[tactic(auto, unfolding(crate::specs::Pieces::sign_piece))]
fn sign_piece(text: &[u8]) -> Piece
    ensures value { result ≡ spec.sign_piece text.now }
    ensures fits { IsPieceOf (length text.now) result }
{
    if begins_with(b'/', b'/', text) {
        return Piece::Skip(2 + run_len(Run::Line, &text[2..]));
    }
    if !begins_with(b'/', b'*', text) {
        return mark_or(text, Rule::X1);
    }
    match closing(&text[2..]) {
        Some(len) => Piece::Skip(2 + len),
        None => Piece::Wrong(Rule::X2, 0),
    }
}

#[tactic(auto, unfolding(crate::specs::Pieces::directive_piece))]
fn directive_piece(text: &[u8]) -> Piece
    ensures value { result ≡ spec.directive_piece text.now }
    ensures fits { IsPieceOf (length text.now) result }
{
    if let Some((unit, len)) = timescale(text) {
        return Piece::Scale(len, unit);
    }
    match default_nettype(text) {
        Some(len) => Piece::Skip(len),
        None => Piece::Wrong(Rule::X5, 0),
    }
}

/// What stands at the front of the text.
#[tactic(auto, unfolding(crate::specs::Pieces::piece))]
pub(crate) fn piece(alloc: Global, text: &[u8]) -> Result<Piece, AllocError>
    requires { length text.now ≤ constants.MOST_BYTES }
    ensures value { IfOk result (λ piece. piece ≡ spec.piece text.now) }
    ensures fits { IfOk result (λ piece. IsPieceOf (length text.now) piece) }
{
    let [first, rest @ ..] = text else {
        return Ok(Piece::Wrong(Rule::X1, 0));
    };
    let piece = match sort(*first) {
        Sort::Blank => Piece::Skip(1),
        Sort::Letter => name_piece(alloc, text)?,
        Sort::Digit => number_piece(alloc, text)?,
        Sort::Dollar => system_piece(alloc, rest)?,
        Sort::Quote => text_piece(alloc, rest)?,
        Sort::Tick => tick_piece(alloc, text)?,
        Sort::Grave => directive_piece(text),
        Sort::Sign => sign_piece(text),
        Sort::Bad => Piece::Wrong(Rule::X1, 0),
    };
    Ok(piece)
}
