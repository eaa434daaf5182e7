// Reading at a cursor.
ghost use Rattle.std.specs.Prelude.{◌≡◌, ◌<◌, length, IfOk};
ghost use Rattle.nt_read_expr.specs.Gives.{Gives};
ghost use Rattle.nt_read_expr.specs.Places.{PlacedIn};
ghost use Rattle.nt_read_stmt.specs.Places.{StatementPlacedIn};
ghost use Rattle.nt_parse_expr.specs.declared.cursor.TheConstants as constants;
ghost use Rattle.nt_parse_expr.specs.Readings as spec;
ghost use Rattle.nt_parse_expr.specs.Readings.{Reads, ReadsStatement, taken};

use nt_ast::{Expr, Stmt};
use nt_diag::{Fault, Refusal, Rule};
use nt_lexer::Token;
use nt_read_expr::{Stop, expression_in, start, stop_first};
use nt_read_stmt::{statement_in, statement_stop};
use std::alloc::{AllocError, Global};

/// How many nodes are open over one another at most, and how many links a chain of operators, of selects or of `else` has.
pub const LIMIT: u32 = 64;

/// A list of tokens, and the place in it where reading goes on.
#[derive(Drop)]
pub struct Cursor {
    pub tokens: Vec<Token>,
    pub at: usize,
}

#[tactic(auto, unfolding(crate::specs::Readings::read_expression))]
fn read_expression(alloc: Global, tokens: &[Token]) -> Result<(Expr, &[Token]), Stop>
    ensures { Gives (λ x. (x.0, x.1.now)) result (spec.read_expression constants.LIMIT tokens.now) }
{
    let (x, rest) = expression_in(alloc, LIMIT, LIMIT, tokens)?;
    if stop_first(rest) {
        Ok((x.into_inner(), rest))
    } else {
        Err(Stop::Refused)
    }
}

#[tactic(auto, unfolding(crate::specs::Readings::read_statement))]
fn read_statement(alloc: Global, tokens: &[Token]) -> Result<(Stmt, &[Token]), Stop>
    ensures { Gives (λ x. (x.0, x.1.now)) result (spec.read_statement constants.LIMIT tokens.now) }
{
    let (x, rest) = statement_in(alloc, LIMIT, LIMIT, tokens)?;
    if statement_stop(rest) {
        Ok((x.into_inner(), rest))
    } else {
        Err(Stop::Refused)
    }
}

/// Reads an expression that a stop follows, and moves the cursor past it (IEEE 1800-2017, clause 11, A.8).
///
/// # Errors
///
/// `Refused` with S1 at the cursor's token, where no front of the tokens before a stop is an expression; `OutOfMemory`. The cursor
/// is then as it was.
pub fn expression(alloc: Global, cursor: &mut Cursor) -> Result<Expr, Fault>
    requires { cursor.old.at < length cursor.old.tokens.items }
    ensures reads { Reads cursor.old result cursor.new }
    ensures placed { IfOk result (λ x. PlacedIn (taken cursor.old cursor.new) x) }
{
    let tokens = &cursor.tokens[cursor.at..];
    let place = start(tokens);
    match read_expression(alloc, tokens) {
        Ok((x, rest)) => {
            let left = rest.len();
            cursor.at = cursor.tokens.len() - left;
            Ok(x)
        }
        Err(Stop::Refused) => Err(Fault::Refused(Refusal {
            rule: Rule::S1,
            place,
        })),
        Err(Stop::Memory) => Err(Fault::OutOfMemory(AllocError)),
    }
}

/// Reads a statement that neither an `else` nor a colon follows, and moves the cursor past it (IEEE 1800-2017, A.6.4).
///
/// # Errors
///
/// `Refused` with S1 at the cursor's token, where no front of the tokens before such an end is a statement; `OutOfMemory`. The
/// cursor is then as it was.
pub fn statement(alloc: Global, cursor: &mut Cursor) -> Result<Stmt, Fault>
    requires { cursor.old.at < length cursor.old.tokens.items }
    ensures reads { ReadsStatement cursor.old result cursor.new }
    ensures placed { IfOk result (λ x. StatementPlacedIn (taken cursor.old cursor.new) x) }
{
    let tokens = &cursor.tokens[cursor.at..];
    let place = start(tokens);
    match read_statement(alloc, tokens) {
        Ok((x, rest)) => {
            let left = rest.len();
            cursor.at = cursor.tokens.len() - left;
            Ok(x)
        }
        Err(Stop::Refused) => Err(Fault::Refused(Refusal {
            rule: Rule::S1,
            place,
        })),
        Err(Stop::Memory) => Err(Fault::OutOfMemory(AllocError)),
    }
}
