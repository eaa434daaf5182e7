// Whether the keys of a pattern serve its type.
ghost use Rattle.std.specs.Prelude.{◌≡◌, ◌∷◌, ℕ, [], None, Some, map, replicate};
ghost use Rattle.nt_ast.specs.declared.expr.Expr.{Expr as Item};
ghost use Rattle.nt_kinds.specs.declared.kind.Kind.{Kind as Form};
ghost use Rattle.nt_typing.specs.Tables.{all_keyed, all_unkeyed, has_slot};

use crate::found::is_other;
use nt_ast::{Expr, Key};
use nt_kinds::Kind;
use nt_value::Name;

/// Whether the items stand in order, without keys.
pub(crate) fn are_unkeyed(items: &[(Option<Key>, Expr)]) -> bool
    ensures { result ≡ all_unkeyed items.now }
{
    for (key, _item) in items {
        if key.is_some() {
            return false;
        }
    }
    true
}

fn has_member(members: &[(Name, Kind)], name: &Name) -> bool
    ensures { result ≡ has_slot (map (λ m. (Some m.0, m.1)) members.now) name.now }
{
    for (own, _kind) in members {
        if own.items() == name.items() {
            return true;
        }
    }
    false
}

fn is_member(members: &[(Name, Kind)], key: &Option<Key>) -> bool
    ensures { (x : Item) → result ≡ all_keyed (map (λ m. (Some m.0, m.1)) members.now) ((key.now, x) ∷ []) }
{
    match key {
        None => false,
        Some(Key::Other) => true,
        Some(Key::Member(name)) => has_member(members, name),
    }
}

/// Whether each key names a member, or is `default`.
pub(crate) fn are_members(members: &[(Name, Kind)], items: &[(Option<Key>, Expr)]) -> bool
    ensures { result ≡ all_keyed (map (λ m. (Some m.0, m.1)) members.now) items.now }
{
    for (key, _item) in items {
        if !is_member(members, key) {
            return false;
        }
    }
    true
}

fn is_default(key: &Option<Key>) -> bool
    ensures { (n : ℕ) (element : Form) (x : Item) → result ≡ all_keyed (replicate n (None, element)) ((key.now, x) ∷ []) }
{
    is_other(key)
}

/// Whether each key is `default`.
pub(crate) fn are_defaults(items: &[(Option<Key>, Expr)]) -> bool
    ensures { (n : ℕ) (element : Form) → result ≡ all_keyed (replicate n (None, element)) items.now }
{
    for (key, _item) in items {
        if !is_default(key) {
            return false;
        }
    }
    true
}
