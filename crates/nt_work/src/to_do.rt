// Statements as what is to do.
ghost use Rattle.std.specs.Prelude.{◌≡◌, ◌++◌, OnOk};
ghost use Rattle.nt_semantics.specs.State.{to_do};

use nt_design::{Act, copy_act};
use nt_semantics::Work;
use sqlite_items::{Boxed, Items};
use std::alloc::{AllocError, Global};

/// Adds what a statement is to do: the statements of a block in order, and so of those in it (IEEE 1800-2017, 9.3.1), or a
/// copy of itself.
///
/// # Errors
///
/// Where memory is refused. Some of it may have been added then.
pub fn add_to_do(alloc: Global, act: &Act, items: &mut Items<Work>) -> Result<(), AllocError>
    ensures { OnOk result (items.new ≡ items.old ++ to_do act.now) }
{
    if let Act::Block { items: acts, .. } = act {
        if !acts.is_empty() {
            for inner in acts.as_slice() {
                add_to_do(alloc, inner, items)?;
            }
            return Ok(());
        }
    }
    let act = Boxed::new(alloc, copy_act(alloc, act)?)?;
    items.push(Work::Do { act })?;
    Ok(())
}
