// What expressions and statements read.
ghost use Rattle.std.specs.Prelude.{◌≡◌, ◌||◌, List, option_map};
ghost use Rattle.std.specs.List.{flat_map, list_any};
ghost use Rattle.nt_value.specs.declared.kind.Edge.{Edge as EdgeValue};
ghost use Rattle.nt_design.specs.Reads.{act_reads, event_trees, or_none, reads_of, target_trees, tree_or_none, trees_of};
ghost use Rattle.nt_design.specs.declared.act.Act.{Act as ActValue};
ghost use Rattle.nt_design.specs.declared.tree.Tree.{Tree as TreeValue};
ghost use Rattle.nt_semantics.specs.Same.{is_one_of};
ghost use Rattle.nt_sensitivity.specs.Readers.{act_is_reader, is_reader, picks_reader};

use crate::objects::is_same_object;
use nt_design::{Act, Edge, Object, Pick, Target, Tree};
use sqlite_items::{Boxed, Items};

fn either(first: bool, second: bool) -> bool
    ensures { result ≡ (first || second) }
{
    first || second
}

/// Whether an expression reads an object. It takes no memory.
#[cycle(trees)]
pub fn tree_reads(tree: &Tree, object: Object) -> bool
    ensures { result ≡ is_one_of (reads_of tree.now) object }
{
    match tree {
        Tree::Const(_) => false,
        Tree::Read(other) => is_same_object(object, *other),
        Tree::Local(_) => false,
        Tree::Leaves { of, .. } => tree_reads(of.get(), object),
        Tree::Item { of, index, .. } => {
            either(
                tree_reads(of.get(), object),
                tree_reads(index.get(), object),
            )
        }
        Tree::Element { index } => tree_reads(index.get(), object),
        Tree::Part { of, low, .. } => {
            either(tree_reads(of.get(), object), tree_reads(low.get(), object))
        }
        Tree::Unary { of, .. } => tree_reads(of.get(), object),
        Tree::Binary { left, right, .. } => {
            either(
                tree_reads(left.get(), object),
                tree_reads(right.get(), object),
            )
        }
        Tree::Choose { test, yes, no } => {
            let arms = either(tree_reads(yes.get(), object), tree_reads(no.get(), object));
            either(tree_reads(test.get(), object), arms)
        }
        Tree::Concat { parts } => some_reads(parts.as_slice(), object),
        Tree::Gather { parts } => some_reads(parts.as_slice(), object),
        Tree::Resize { of, .. } => tree_reads(of.get(), object),
        Tree::Call { args, .. } => some_reads(args.as_slice(), object),
        Tree::Size => false,
        Tree::Time => false,
    }
}

// Whether one of these expressions reads an object.
#[cycle(trees)]
fn some_reads(trees: &[Tree], object: Object) -> bool
    ensures { result ≡ list_any (is_reader object) trees.now }
{
    for tree in trees {
        if tree_reads(tree, object) {
            return true;
        }
    }
    false
}

// Whether one of the expressions of an event control does.
fn some_event(on: &[(Edge, Tree)], object: Object) -> bool
    ensures { result ≡ list_any (λ (e : EdgeValue × TreeValue). is_reader object e.1) on.now }
{
    for (_, tree) in on {
        if tree_reads(tree, object) {
            return true;
        }
    }
    false
}

/// Whether one of the expressions of an event control reads an object (IEEE 1800-2017, 9.4.2). It takes no memory.
pub fn event_reads(on: &[(Edge, Tree)], object: Object) -> bool
    ensures { result ≡ is_one_of (flat_map reads_of (event_trees on.now)) object }
{
    some_event(on, object)
}

// Whether the index or base of one of these steps reads an object.
fn path_reads(path: &[Pick], object: Object) -> bool
    ensures { result ≡ list_any (picks_reader object) path.now }
{
    for pick in path {
        if pick_reads(pick, object) {
            return true;
        }
    }
    false
}

fn pick_reads(pick: &Pick, object: Object) -> bool
    ensures { result ≡ picks_reader object pick.now }
{
    match pick {
        Pick::Leaves { .. } => false,
        Pick::Item { index, .. } => tree_reads(index, object),
        Pick::Part { low, .. } => tree_reads(low, object),
    }
}

fn target_reads(target: &Target, object: Object) -> bool
    ensures { result ≡ list_any (is_reader object) (target_trees target.now) }
{
    match target {
        Target::Var { path, .. } => path_reads(path.as_slice(), object),
        Target::Slot { .. } => false,
        Target::Local { path, .. } => path_reads(path.as_slice(), object),
    }
}

// Whether an expression in a statement reads an object.
#[cycle(acts)]
fn has_reader(act: &Act, object: Object) -> bool
    ensures { result ≡ act_is_reader object act.now }
{
    match act {
        Act::Null { .. } => false,
        Act::Block { items, .. } => some_act(items.as_slice(), object),
        Act::Assign { left, right, .. } => {
            either(target_reads(left, object), tree_reads(right, object))
        }
        Act::Nonblocking { left, right, .. } => {
            either(target_reads(left, object), tree_reads(right, object))
        }
        Act::If { test, yes, no, .. } => {
            let branches = either(has_reader(yes.get(), object), maybe_act(no, object));
            either(tree_reads(test, object), branches)
        }
        Act::Case {
            test,
            arms,
            other,
            ..
        } => {
            let own = either(tree_reads(test, object), some_item(arms.as_slice(), object));
            let parts = either(some_arm(arms.as_slice(), object), maybe_act(other, object));
            either(own, parts)
        }
        Act::While { test, body, .. } => {
            either(tree_reads(test, object), has_reader(body.get(), object))
        }
        Act::Repeat { count, body, .. } => {
            either(tree_reads(count, object), has_reader(body.get(), object))
        }
        Act::For {
            left,
            first,
            test,
            step,
            body,
            ..
        } => {
            let tests = either(tree_reads(first, object), tree_reads(test, object));
            let own = either(target_reads(left, object), tests);
            let parts = either(
                has_reader(step.get(), object),
                has_reader(body.get(), object),
            );
            either(own, parts)
        }
        Act::Forever { body, .. } => has_reader(body.get(), object),
        Act::Foreach { body, .. } => has_reader(body.get(), object),
        Act::Delay { amount, body, .. } => {
            either(tree_reads(amount, object), has_reader(body.get(), object))
        }
        Act::Event { on, body, .. } => {
            either(
                some_event(on.as_slice(), object),
                has_reader(body.get(), object),
            )
        }
        Act::Wait { test, body, .. } => {
            either(tree_reads(test, object), has_reader(body.get(), object))
        }
        Act::Return { value, .. } => maybe_tree(value, object),
        Act::Break { .. } => false,
        Act::Continue { .. } => false,
        Act::Call { args, .. } => some_reads(args.as_slice(), object),
        Act::Display { args, .. } => some_reads(args.as_slice(), object),
        Act::Finish { .. } => false,
    }
}

// Whether one of these statements does.
#[cycle(acts)]
fn some_act(acts: &[Act], object: Object) -> bool
    ensures { result ≡ list_any (act_is_reader object) acts.now }
{
    for act in acts {
        if has_reader(act, object) {
            return true;
        }
    }
    false
}

// Whether the statement of one of these arms does.
#[cycle(acts)]
fn some_arm(arms: &[(Items<Tree>, Act)], object: Object) -> bool
    ensures { result ≡ list_any (λ (arm : List TreeValue × ActValue). act_is_reader object arm.1) arms.now }
{
    for (_, act) in arms {
        if has_reader(act, object) {
            return true;
        }
    }
    false
}

// Whether the statement that there may be does.
#[cycle(acts)]
fn maybe_act(act: &Option<Boxed<Act>>, object: Object) -> bool
    ensures { result ≡ list_any (is_reader object) (or_none (option_map trees_of act.now)) }
{
    match act {
        None => false,
        Some(act) => has_reader(act.get(), object),
    }
}

// Whether an item of one of these arms reads an object.
fn some_item(arms: &[(Items<Tree>, Act)], object: Object) -> bool
    ensures { result ≡ list_any (λ (arm : List TreeValue × ActValue). list_any (is_reader object) arm.0) arms.now }
{
    for (items, _) in arms {
        if some_reads(items.as_slice(), object) {
            return true;
        }
    }
    false
}

// Whether the expression that there may be does.
fn maybe_tree(tree: &Option<Tree>, object: Object) -> bool
    ensures { result ≡ list_any (is_reader object) (tree_or_none tree.now) }
{
    match tree {
        None => false,
        Some(tree) => tree_reads(tree, object),
    }
}

/// Whether a statement reads an object, those in it too (9.2.2.2.1, 9.4.2.2). It takes no memory.
pub fn act_reads(act: &Act, object: Object) -> bool
    ensures { result ≡ is_one_of (act_reads act.now) object }
{
    has_reader(act, object)
}
