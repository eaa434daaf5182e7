// What connections connect.
ghost use Rattle.std.specs.Prelude.{◌≡◌, ◌<◌, ◌≤◌, length, map, slice_get, IfOk, true, take, Some};
ghost use Rattle.std.specs.List.{list_any};
ghost use Rattle.std.specs.Str.{bytes_eq};
ghost use Rattle.nt_diag.specs.Order.{IsLeastOf, AmongAll};
ghost use Rattle.nt_instances.specs.Faults.{ConnFault, ConnsFault, is_target, target_of};
ghost use Rattle.nt_instances.specs.Faults.{targets as targets_of};
ghost use Rattle.nt_instances.specs.Numbers.{number_of as first_number};

use nt_diag::{Refusal, Rule, earlier};
use nt_items::Conn;
use nt_value::Name;
use sqlite_items::Items;
use std::alloc::{AllocError, Global};

fn same(a: &Name, b: &Name) -> bool
    ensures { result ≡ bytes_eq a.now b.now }
{
    a.items() == b.items()
}

fn number_of(names: &[&Name], name: &Name) -> Option<usize>
    ensures { result ≡ first_number (bytes_eq name.now) (map (λ n. n.now) names.now) }
{
    for number in 0..names.len() {
        if same(name, names[number]) {
            return Some(number);
        }
    }
    None
}

// Which of these names a connection connects.
fn target(names: &[&Name], number: usize, name: &Option<Name>) -> Option<usize>
    ensures { result ≡ target_of (map (λ n. n.now) names.now) number name.now }
{
    match name {
        Some(name) => number_of(names, name),
        None => {
            if number < names.len() {
                Some(number)
            } else {
                None
            }
        }
    }
}

/// Which of these names each connection connects: the one of its own name, or, without a name, the one of its number (IEEE 1800-2017,
/// 23.3.2).
///
/// # Errors
///
/// `AllocError` alone.
pub fn targets(
    alloc: Global,
    names: &[&Name],
    conns: &[Conn],
) -> Result<Items<Option<usize>>, AllocError>
    ensures { IfOk result (λ all. all ≡ targets_of (map (λ n. n.now) names.now) conns.now) }
{
    let mut all = Items::new(alloc);
    for number in 0..conns.len() {
        all.push(target(names, number, &conns[number].name))?;
    }
    Ok(all)
}

fn is_again(targets: &[Option<usize>], found: usize) -> bool
    ensures { result ≡ list_any (is_target found) targets.now }
{
    targets.iter().any(|other| match other {
        Some(other) => found == *other,
        None => false,
    })
}

fn conn_fault(rule: Rule, targets: &[Option<usize>], number: usize, conn: &Conn) -> Option<Refusal>
    requires { number < length targets.now }
    ensures { IsLeastOf (ConnFault rule targets.now number conn.now) result }
{
    let refusal = Refusal {
        rule,
        place: conn.at,
    };
    match targets[number] {
        None => Some(refusal),
        Some(found) => {
            if is_again(&targets[..number], found) {
                Some(refusal)
            } else {
                None
            }
        }
    }
}

/// The least fault of connections: at one that connects nothing, or what an earlier one connects.
pub(crate) fn conns_fault(
    alloc: Global,
    rule: Rule,
    names: &[&Name],
    conns: &[Conn],
) -> Result<Option<Refusal>, AllocError>
    ensures { IfOk result (λ f. IsLeastOf (ConnsFault rule (map (λ n. n.now) names.now) conns.now) f) }
{
    let targets = targets(alloc, names, conns)?;
    let least = least(rule, targets.as_slice(), conns);
    Ok(least)
}

fn least(rule: Rule, targets: &[Option<usize>], conns: &[Conn]) -> Option<Refusal>
    requires { length conns.now ≡ length targets.now }
    ensures { IsLeastOf (AmongAll (ConnFault rule targets.now) conns.now) result }
{
    let mut best = None;
    for number in 0..conns.len() {
        best = earlier(best, conn_fault(rule, targets, number, &conns[number]));
    }
    best
}
