// The tokens of a file.
ghost use Rattle.std.specs.Prelude.{◌≡◌, ◌+◌, ◌<◌, ◌≤◌, ◌++◌, ◌∷◌, [], OnOk, length};
ghost use Rattle.nt_lexer.specs.Cuts as spec;
ghost use Rattle.nt_lexer.specs.declared.cut.TheConstants as constants;
ghost use Rattle.nt_lexer.specs.Laws.{Ascend};
ghost use Rattle.nt_lexer.specs.Steps.{Moved, Steps};

use crate::directives::exponent;
use crate::kinds::{Head, Piece, Token, TokenKind};
use crate::pieces::piece;
use nt_diag::{Fault, Rule};
use nt_value::{Place, Unit};
use std::alloc::{AllocError, Global};

/// How many tokens the files of one run may have together, the last ones of files not counted (this project's limit).
pub const MOST_TOKENS: u32 = 1000000;

/// How many bytes a file may have (this project's limit).
pub const MOST_BYTES: u32 = 4194304;

fn agrees(stated: Option<Unit>, unit: Unit) -> bool
    ensures { result ≡ spec.agrees stated unit }
{
    match stated {
        None => true,
        Some(other) => exponent(other) == exponent(unit),
    }
}

// The place after one byte.
fn step(at: Place, b: u8) -> Place
    requires offset { at.offset < constants.MOST_BYTES }
    requires line { at.line ≤ at.offset + 1 }
    requires column { at.column ≤ at.offset + 1 }
    ensures place { Moved at (b ∷ []) result }
    ensures offset { result.offset ≡ at.offset + 1 }
    ensures line { result.line ≤ result.offset + 1 }
    ensures column { result.column ≤ result.offset + 1 }
{
    let offset = at.offset + 1;
    if b == b'\n' {
        Place {
            file: at.file,
            offset,
            line: at.line + 1,
            column: 1,
        }
    } else {
        Place {
            file: at.file,
            offset,
            line: at.line,
            column: at.column + 1,
        }
    }
}

// The place after these bytes.
fn advance(start: Place, text: &[u8]) -> Place
    requires offset { start.offset + length text.now ≤ constants.MOST_BYTES }
    requires line { start.line ≤ start.offset + 1 }
    requires column { start.column ≤ start.offset + 1 }
    ensures place { Moved start text.now result }
    ensures offset { result.offset ≡ start.offset + length text.now }
    ensures line { result.line ≤ result.offset + 1 }
    ensures column { result.column ≤ result.offset + 1 }
{
    let mut at = start;
    for b in text {
        at = step(at, *b);
    }
    at
}

// Adds a token at the end.
fn add(found: &mut Vec<Token>, token: Token) -> Result<(), AllocError>
    ensures { OnOk result (found.new.items ≡ found.old.items ++ token ∷ []) }
{
    found.push(token)?;
    Ok(())
}

// Takes the piece at the front, whose place is `at`.
#[tactic(auto, unfolding(crate::specs::Cuts::outcome))]
fn take_piece(
    alloc: Global,
    text: &[u8],
    at: Place,
    head: &mut Head,
    found: &mut Vec<Token>,
) -> Result<usize, Fault>
    requires some { 0 < length text.now }
    requires offset { at.offset + length text.now ≤ constants.MOST_BYTES }
    requires line { at.line ≤ at.offset + 1 }
    requires column { at.column ≤ at.offset + 1 }
    requires count { head.old.count ≤ constants.MOST_TOKENS }
    ensures value { Steps text.now at head.old found.old.items result head.new found.new.items }
    ensures count { head.new.count ≤ constants.MOST_TOKENS }
    ensures unit { spec.HasUnit head.old → spec.HasUnit head.new }
{
    match piece(alloc, text)? {
        Piece::Skip(len) => Ok(len),
        Piece::Scale(len, unit) => {
            if !agrees(head.unit, unit) {
                return Err(Fault::refused(Rule::X5, at));
            }
            head.unit = Some(unit);
            Ok(len)
        }
        Piece::Take(len, kind) => {
            if head.count >= MOST_TOKENS {
                return Err(Fault::refused(Rule::X7, at));
            }
            add(found, Token { kind, at })?;
            head.count += 1;
            Ok(len)
        }
        Piece::Wrong(rule, len) => Err(Fault::refused(rule, advance(at, &text[..len]))),
    }
}

/// The tokens of a file, the longest from the left, with `End` last. They stand in the order of their offsets, and all of
/// their places are of the file. The head goes on from the files before.
///
/// # Errors
///
/// `Refused` with the first fault of the file, and `OutOfMemory`. The head is then as it was.
pub fn tokens(alloc: Global, file: u32, bytes: &[u8], head: &mut Head) -> Result<Vec<Token>, Fault>
    requires within { length bytes.now ≤ constants.MOST_BYTES }
    requires count { head.old.count ≤ constants.MOST_TOKENS }
    ensures cut { spec.Cuts file bytes.now head.old result head.new }
    ensures ascending { Ascend file bytes.now result }
    ensures count { head.new.count ≤ constants.MOST_TOKENS }
    ensures unit { spec.HasUnit head.old → spec.HasUnit head.new }
{
    let mut found = Vec::new(alloc);
    let mut now = *head;
    let mut place = Place {
        file,
        offset: 0,
        line: 1,
        column: 1,
    };
    let mut at = 0;
    while at < bytes.len() {
        let rest = &bytes[at..];
        match take_piece(alloc, rest, place, &mut now, &mut found) {
            Err(fault) => return Err(fault),
            Ok(len) => {
                place = advance(place, &rest[..len]);
                at += len;
            }
        }
    }
    add(
        &mut found,
        Token {
            kind: TokenKind::End,
            at: place,
        },
    )?;
    *head = now;
    Ok(found)
}
