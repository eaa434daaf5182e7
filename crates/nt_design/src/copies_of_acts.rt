// Equal copies of targets and statements.
ghost use Rattle.std.specs.Prelude.{◌≡◌, IfOk};

use crate::{Act, Edge, Pick, Target, Tree, copy_tree};
use nt_value::Text;
use sqlite_items::{Boxed, Items};
use std::alloc::{AllocError, Global};

/// Equal expressions.
///
/// # Errors
///
/// `AllocError` alone.
pub fn copy_trees(alloc: Global, trees: &[Tree]) -> Result<Items<Tree>, AllocError>
    ensures { IfOk result (λ ts. ts ≡ trees.now) }
{
    let mut copies = Items::new(alloc);
    for tree in trees {
        copies.push(copy_tree(alloc, tree)?)?;
    }
    Ok(copies)
}

// An equal step of a path.
fn copy_pick(alloc: Global, pick: &Pick) -> Result<Pick, AllocError>
    ensures { IfOk result (λ p. p ≡ pick.now) }
{
    match pick {
        Pick::Leaves { first, count } => Ok(Pick::Leaves {
            first: *first,
            count: *count,
        }),
        Pick::Item {
            index,
            low,
            size,
            up,
        } => {
            let index = copy_tree(alloc, index)?;
            Ok(Pick::Item {
                index,
                low: *low,
                size: *size,
                up: *up,
            })
        }
        Pick::Part { low, width } => {
            let low = copy_tree(alloc, low)?;
            Ok(Pick::Part { low, width: *width })
        }
    }
}

// An equal path.
fn copy_path(alloc: Global, path: &[Pick]) -> Result<Items<Pick>, AllocError>
    ensures { IfOk result (λ ps. ps ≡ path.now) }
{
    let mut copies = Items::new(alloc);
    for pick in path {
        copies.push(copy_pick(alloc, pick)?)?;
    }
    Ok(copies)
}

/// An equal target.
///
/// # Errors
///
/// `AllocError` alone.
pub fn copy_target(alloc: Global, target: &Target) -> Result<Target, AllocError>
    ensures { IfOk result (λ t. t ≡ target.now) }
{
    match target {
        Target::Var { var, path } => {
            let path = copy_path(alloc, path.as_slice())?;
            Ok(Target::Var { var: *var, path })
        }
        Target::Slot {
            net,
            slot,
            low,
            width,
        } => Ok(Target::Slot {
            net: *net,
            slot: *slot,
            low: *low,
            width: *width,
        }),
        Target::Local { local, path } => {
            let path = copy_path(alloc, path.as_slice())?;
            Ok(Target::Local {
                local: *local,
                path,
            })
        }
    }
}

// Equal event expressions.
fn copy_events(alloc: Global, on: &[(Edge, Tree)]) -> Result<Items<(Edge, Tree)>, AllocError>
    ensures { IfOk result (λ es. es ≡ on.now) }
{
    let mut copies = Items::new(alloc);
    for event in on {
        let (edge, tree) = event;
        copies.push((*edge, copy_tree(alloc, tree)?))?;
    }
    Ok(copies)
}

/// An equal statement.
///
/// # Errors
///
/// `AllocError` alone.
pub fn copy_act(alloc: Global, act: &Act) -> Result<Act, AllocError>
    ensures { IfOk result (λ a. a ≡ act.now) }
{
    match act {
        Act::Null { at } => Ok(Act::Null { at: *at }),
        Act::Block { items, at } => {
            let mut copies = Items::new(alloc);
            for item in items.as_slice() {
                copies.push(copy_act(alloc, item)?)?;
            }
            Ok(Act::Block {
                items: copies,
                at: *at,
            })
        }
        Act::Assign { left, right, at } => {
            let left = copy_target(alloc, left)?;
            let right = copy_tree(alloc, right)?;
            Ok(Act::Assign {
                left,
                right,
                at: *at,
            })
        }
        Act::Nonblocking { left, right, at } => {
            let left = copy_target(alloc, left)?;
            let right = copy_tree(alloc, right)?;
            Ok(Act::Nonblocking {
                left,
                right,
                at: *at,
            })
        }
        Act::If {
            test,
            yes,
            no: None,
            at,
        } => {
            let test = copy_tree(alloc, test)?;
            let yes = Boxed::new(alloc, copy_act(alloc, yes.get())?)?;
            Ok(Act::If {
                test,
                yes,
                no: None,
                at: *at,
            })
        }
        Act::If {
            test,
            yes,
            no: Some(no),
            at,
        } => {
            let test = copy_tree(alloc, test)?;
            let yes = Boxed::new(alloc, copy_act(alloc, yes.get())?)?;
            let no = Boxed::new(alloc, copy_act(alloc, no.get())?)?;
            Ok(Act::If {
                test,
                yes,
                no: Some(no),
                at: *at,
            })
        }
        Act::Case {
            test,
            arms,
            other: None,
            at,
        } => {
            let test = copy_tree(alloc, test)?;
            let mut copies = Items::new(alloc);
            for arm in arms.as_slice() {
                let (items, body) = arm;
                let items = copy_trees(alloc, items.as_slice())?;
                copies.push((items, copy_act(alloc, body)?))?;
            }
            Ok(Act::Case {
                test,
                arms: copies,
                other: None,
                at: *at,
            })
        }
        Act::Case {
            test,
            arms,
            other: Some(other),
            at,
        } => {
            let test = copy_tree(alloc, test)?;
            let mut copies = Items::new(alloc);
            for branch in arms.as_slice() {
                let (items, body) = branch;
                let items = copy_trees(alloc, items.as_slice())?;
                copies.push((items, copy_act(alloc, body)?))?;
            }
            let other = Boxed::new(alloc, copy_act(alloc, other.get())?)?;
            Ok(Act::Case {
                test,
                arms: copies,
                other: Some(other),
                at: *at,
            })
        }
        Act::While { test, body, at } => {
            let test = copy_tree(alloc, test)?;
            let body = Boxed::new(alloc, copy_act(alloc, body.get())?)?;
            Ok(Act::While {
                test,
                body,
                at: *at,
            })
        }
        Act::Repeat { count, body, at } => {
            let count = copy_tree(alloc, count)?;
            let body = Boxed::new(alloc, copy_act(alloc, body.get())?)?;
            Ok(Act::Repeat {
                count,
                body,
                at: *at,
            })
        }
        Act::For {
            fresh,
            left,
            first,
            test,
            step,
            body,
            at,
        } => {
            let left = copy_target(alloc, left)?;
            let first = copy_tree(alloc, first)?;
            let test = copy_tree(alloc, test)?;
            let step = Boxed::new(alloc, copy_act(alloc, step.get())?)?;
            let body = Boxed::new(alloc, copy_act(alloc, body.get())?)?;
            Ok(Act::For {
                fresh: *fresh,
                left,
                first,
                test,
                step,
                body,
                at: *at,
            })
        }
        Act::Forever { body, at } => {
            let body = Boxed::new(alloc, copy_act(alloc, body.get())?)?;
            Ok(Act::Forever { body, at: *at })
        }
        Act::Foreach {
            bounds,
            index,
            body,
            at,
        } => {
            let body = Boxed::new(alloc, copy_act(alloc, body.get())?)?;
            Ok(Act::Foreach {
                bounds: *bounds,
                index: *index,
                body,
                at: *at,
            })
        }
        Act::Delay { amount, body, at } => {
            let amount = copy_tree(alloc, amount)?;
            let body = Boxed::new(alloc, copy_act(alloc, body.get())?)?;
            Ok(Act::Delay {
                amount,
                body,
                at: *at,
            })
        }
        Act::Event { any, on, body, at } => {
            let on = copy_events(alloc, on.as_slice())?;
            let body = Boxed::new(alloc, copy_act(alloc, body.get())?)?;
            Ok(Act::Event {
                any: *any,
                on,
                body,
                at: *at,
            })
        }
        Act::Wait { test, body, at } => {
            let test = copy_tree(alloc, test)?;
            let body = Boxed::new(alloc, copy_act(alloc, body.get())?)?;
            Ok(Act::Wait {
                test,
                body,
                at: *at,
            })
        }
        Act::Return { value: None, at } => Ok(Act::Return {
            value: None,
            at: *at,
        }),
        Act::Return {
            value: Some(value),
            at,
        } => {
            let value = copy_tree(alloc, value)?;
            Ok(Act::Return {
                value: Some(value),
                at: *at,
            })
        }
        Act::Break { at } => Ok(Act::Break { at: *at }),
        Act::Continue { at } => Ok(Act::Continue { at: *at }),
        Act::Call { function, args, at } => {
            let args = copy_trees(alloc, args.as_slice())?;
            Ok(Act::Call {
                function: *function,
                args,
                at: *at,
            })
        }
        Act::Display { text, args, at } => {
            let text = text.copy(alloc)?;
            let args = copy_trees(alloc, args.as_slice())?;
            Ok(Act::Display {
                text,
                args,
                at: *at,
            })
        }
        Act::Finish { at } => Ok(Act::Finish { at: *at }),
    }
}
