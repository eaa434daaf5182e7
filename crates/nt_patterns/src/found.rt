// Items of a pattern by their keys.
ghost use Rattle.std.specs.Prelude.{◌≡◌, Some, if◌then◌else◌};
ghost use Rattle.nt_patterns.specs.Keys.{chosen, key_is, key_other, more_found};
ghost use Rattle.nt_patterns.specs.Picks.{IsFound};
ghost use Rattle.nt_typing.specs.Tables.{items_for, other_items};

use nt_ast::{Expr, Key};
use nt_value::Name;

/// How many there are of some items: none, one by its number, or more.
#[derive(Clone, Copy, Debug)]
pub(crate) enum Found {
    Nothing,
    One(usize),
    Many,
}

fn more(serves: bool, found: Found, index: usize) -> Found
    ensures { result ≡ (if serves then more_found found index else found) }
{
    if !serves {
        return found;
    }
    match found {
        Found::Nothing => Found::One(index),
        Found::One(_) => Found::Many,
        Found::Many => Found::Many,
    }
}

fn is_named(key: &Option<Key>, name: &Name) -> bool
    ensures { result ≡ key_is name.now key.now }
{
    match key {
        Some(Key::Member(own)) => name.items() == own.items(),
        Some(Key::Other) => false,
        None => false,
    }
}

/// Whether a key is `default`.
pub(crate) fn is_other(key: &Option<Key>) -> bool
    ensures { result ≡ key_other key.now }
{
    match key {
        Some(Key::Other) => true,
        Some(Key::Member(_)) => false,
        None => false,
    }
}

/// The items for the member of this name.
pub(crate) fn named(items: &[(Option<Key>, Expr)], name: &Name) -> Found
    ensures { IsFound items.now (items_for (Some name.now) items.now) result }
{
    let mut found = Found::Nothing;
    let mut index = 0;
    for (key, _item) in items {
        found = more(is_named(key, name), found, index);
        index += 1;
    }
    found
}

/// The items for each member or element that isn't named.
pub(crate) fn others(items: &[(Option<Key>, Expr)]) -> Found
    ensures { IsFound items.now (other_items items.now) result }
{
    let mut found = Found::Nothing;
    let mut index = 0;
    for (key, _item) in items {
        found = more(is_other(key), found, index);
        index += 1;
    }
    found
}

/// The one item for a slot, or the one for all that aren't named.
pub(crate) fn one(own: Found, other: Found) -> Option<usize>
    ensures { result ≡ chosen own other }
{
    match own {
        Found::Nothing => match other {
            Found::One(index) => Some(index),
            Found::Nothing => None,
            Found::Many => None,
        },
        Found::One(index) => Some(index),
        Found::Many => None,
    }
}
