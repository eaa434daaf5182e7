// Where an expression ends.
ghost use Rattle.std.specs.Prelude.{◌≡◌, map};
ghost use Rattle.nt_scopes.specs.Means.{is_before as before};
ghost use Rattle.nt_types.specs.Ends.{end_of, latest, latest_item};
ghost use Rattle.nt_types.specs.Ends.{later as later_of};

use nt_ast::{Expr, Key};
use nt_value::Place;

pub(crate) fn is_before(a: Place, b: Place) -> bool
    ensures { result ≡ before a b }
{
    a.file < b.file || (a.file == b.file && a.offset < b.offset)
}

// The later one of two places.
fn later(a: Place, b: Place) -> Place
    ensures { result ≡ later_of a b }
{
    if is_before(a, b) { b } else { a }
}

// The last place in an expression.
#[cycle(ends)]
#[tactic(auto, using(crate::proofs::Ending::equations))]
pub(crate) fn end(expr: &Expr) -> Place
    ensures { result ≡ end_of expr.now }
{
    match expr {
        Expr::Literal { at, .. } => *at,
        Expr::Read { at, path } => later(*at, path.at),
        Expr::Member {
            at,
            of,
            name_at,
            ..
        } => later(later(*at, end(of.get())), *name_at),
        Expr::Item { at, of, index } => later(later(*at, end(of.get())), end(index.get())),
        Expr::Part {
            at,
            of,
            left,
            right,
        } => later(
            later(later(*at, end(of.get())), end(left.get())),
            end(right.get()),
        ),
        Expr::Indexed {
            at,
            of,
            base,
            width,
            ..
        } => later(
            later(later(*at, end(of.get())), end(base.get())),
            end(width.get()),
        ),
        Expr::Unary { at, of, .. } => later(*at, end(of.get())),
        Expr::Binary {
            at,
            left,
            right,
            ..
        } => later(later(*at, end(left.get())), end(right.get())),
        Expr::Choose { at, test, yes, no } => later(
            later(later(*at, end(test.get())), end(yes.get())),
            end(no.get()),
        ),
        Expr::Concat { at, parts } => last(*at, parts.as_slice()),
        Expr::Repeat { at, count, parts } => {
            last(later(*at, end(count.get())), parts.as_slice())
        }
        Expr::Pattern { at, items } => last_item(*at, items.as_slice()),
        Expr::Call { at, path, args } => last(later(*at, path.at), args.as_slice()),
        Expr::Size { at, of } => later(*at, end(of.get())),
        Expr::Time { at } => *at,
        Expr::Sign { at, of, .. } => later(*at, end(of.get())),
    }
}

#[cycle(ends)]
fn last(from: Place, parts: &[Expr]) -> Place
    ensures { result ≡ latest from (map end_of parts.now) }
{
    let mut at = from;
    for part in parts {
        at = later(at, end(part));
    }
    at
}

#[cycle(ends)]
fn last_item(from: Place, items: &[(Option<Key>, Expr)]) -> Place
    ensures { result ≡ latest_item from (map (λ p. (p.0, end_of p.1)) items.now) }
{
    let mut at = from;
    for (_key, part) in items {
        at = later(at, end(part));
    }
    at
}
