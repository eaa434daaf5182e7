// All of a text as one expression or one statement.
ghost use Rattle.std.specs.Prelude.{◌≤◌, length};
ghost use Rattle.nt_texts.specs.Texts.{ExpressionOf, StatementOf};

use nt_ast::{Expr, Stmt};
use nt_diag::{Fault, Refusal, Rule};
use nt_lexer::{Head, tokens};
use nt_parse_expr::{Cursor, expression, start, statement};
use std::alloc::Global;

/// The expression that all of a text is.
///
/// # Errors
///
/// `Refused` exactly where the text cannot be cut into tokens, or its tokens are no one expression.
pub fn expression_of(alloc: Global, text: &[u8]) -> Result<Expr, Fault>
    requires { length text.now ≤ 4194304 }
    ensures { ExpressionOf text.now result }
{
    let mut head = Head {
        unit: None,
        count: 0,
    };
    let list = tokens(alloc, 0, text, &mut head)?;
    let mut cursor = Cursor {
        tokens: list,
        at: 0,
    };
    let place = start(&cursor.tokens);
    let x = expression(alloc, &mut cursor)?;
    if cursor.tokens.len() - cursor.at != 1 {
        return Err(Fault::Refused(Refusal {
            rule: Rule::S1,
            place,
        }));
    }
    Ok(x)
}

/// The statement that all of a text is.
///
/// # Errors
///
/// `Refused` exactly where the text cannot be cut into tokens, or its tokens are no one statement.
pub fn statement_of(alloc: Global, text: &[u8]) -> Result<Stmt, Fault>
    requires { length text.now ≤ 4194304 }
    ensures { StatementOf text.now result }
{
    let mut head = Head {
        unit: None,
        count: 0,
    };
    let list = tokens(alloc, 0, text, &mut head)?;
    let mut cursor = Cursor {
        tokens: list,
        at: 0,
    };
    let place = start(&cursor.tokens);
    let x = statement(alloc, &mut cursor)?;
    if cursor.tokens.len() - cursor.at != 1 {
        return Err(Fault::Refused(Refusal {
            rule: Rule::S1,
            place,
        }));
    }
    Ok(x)
}
