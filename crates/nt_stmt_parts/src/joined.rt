// Parts that each may have a fault, together.
ghost use Rattle.std.specs.Prelude.{◌≡◌};
ghost use Rattle.nt_stmt_parts.specs.Together.{both_of, ruled};

use nt_diag::{Fault, Refusal, Rule, earlier};
use nt_value::Place;

fn one_of(a: Refusal, b: Refusal) -> Refusal
    ensures { result ≡ Rattle.nt_stmt_parts.specs.Together.one_of a b }
{
    match earlier(Some(a), Some(b)) {
        Some(least) => least,
        None => a,
    }
}

// The least of two faults. Want of memory comes before any.
fn fault_of(a: Fault, b: Fault) -> Fault
    ensures { result ≡ Rattle.nt_stmt_parts.specs.Together.fault_of a b }
{
    match (a, b) {
        (Fault::Refused(a), Fault::Refused(b)) => Fault::Refused(one_of(a, b)),
        (Fault::Refused(_), b) => b,
        (a, _) => a,
    }
}

/// Both, or the least of their faults.
///
/// # Errors
///
/// The only fault, or the one of the two that stands no later; want of memory before either.
pub fn both<A: Drop, B: Drop>(a: Result<A, Fault>, b: Result<B, Fault>) -> Result<(A, B), Fault>
    ensures { result ≡ both_of a b }
{
    match (a, b) {
        (Ok(a), Ok(b)) => Ok((a, b)),
        (Ok(_), Err(b)) => Err(b),
        (Err(a), Ok(_)) => Err(a),
        (Err(a), Err(b)) => Err(fault_of(a, b)),
    }
}

/// What there is, where nothing breaks a rule at a place; else the rule, or what stands before it.
///
/// # Errors
///
/// The rule at the place where `broken`, or the fault that is there.
pub fn with_rule<A: Drop>(
    broken: bool,
    rule: Rule,
    at: Place,
    a: Result<A, Fault>,
) -> Result<A, Fault>
    ensures { result ≡ ruled broken rule at a }
{
    if broken {
        match a {
            Ok(_) => Err(Fault::refused(rule, at)),
            Err(fault) => Err(fault_of(Fault::refused(rule, at), fault)),
        }
    } else {
        a
    }
}
