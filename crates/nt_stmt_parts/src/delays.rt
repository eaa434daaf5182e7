// Delays (IEEE 1800-2017, 9.4.1).
ghost use Rattle.std.specs.Prelude.{◌≡◌, IfOk, [], ◌∷◌};
ghost use Rattle.nt_design.specs.Rules.{is_delay_number};
ghost use Rattle.nt_parts.specs.Indices.{number_at};
ghost use Rattle.nt_stmt_parts.specs.Parts.{Delays};

use nt_ast::Expr;
use nt_const::constant_by;
use nt_design::Tree;
use nt_diag::{Fault, Rule};
use nt_parts::{Index, index_of};
use nt_things::ScopeNames;
use nt_typing::Scope;
use nt_value::{Bits, Value};
use sqlite_items::Boxed;
use std::alloc::{AllocError, Global};

// From 0 to 2^48, without x or z.
fn is_delay(index: Index) -> bool
    ensures { result ≡ is_delay_number (number_at index) }
{
    match index {
        Index::Up(number) => number <= 281474976710656,
        Index::Below(_) => false,
        Index::Unknown => false,
    }
}

// A value of one leaf.
fn value_of(alloc: Global, bits: Bits) -> Result<Value, AllocError>
    ensures { IfOk result (λ value. value ≡ bits ∷ []) }
{
    let mut leaves = Vec::new(alloc);
    leaves.push(bits)?;
    Ok(Value::new(leaves))
}

/// A delay: a constant from 0 to 2^48.
///
/// # Errors
///
/// The least fault of the constant expression; T3 at it where it has an x or z, is below 0 or over 2^48; and `OutOfMemory`.
pub fn delay_of(alloc: Global, scope: &Scope, expr: &Expr) -> Result<Boxed<Tree>, Fault>
    ensures { Delays scope.now expr.now result }
{
    let names = ScopeNames { scope };
    let bits = constant_by(alloc, expr, &names, None)?;
    let value = value_of(alloc, bits)?;
    if is_delay(index_of(&value)) {
        Ok(Boxed::new(alloc, Tree::Const(value))?)
    } else {
        Err(Fault::refused(Rule::T3, expr.at()))
    }
}
