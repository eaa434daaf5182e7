// The variables and nets that a trace shows.
ghost use Rattle.std.specs.Prelude.{◌≡◌, IfOk, OnOk};
ghost use Rattle.nt_semantics.specs.Texts.{objects_of as shown_in};
ghost use Rattle.nt_observe.specs.Shown.{with_maybe};

use nt_design::{Design, Object};
use nt_sensitivity::is_one_of;
use sqlite_items::Items;
use std::alloc::{AllocError, Global};

// One object more, where it is a new one.
fn add(all: &mut Items<Object>, object: Option<Object>) -> Result<(), AllocError>
    ensures { OnOk result (all.new ≡ with_maybe all.old object) }
{
    let Some(object) = object else {
        return Ok(());
    };
    if is_one_of(all.as_slice(), object) {
        return Ok(());
    }
    all.push(object)
}

/// The variables and nets of a design in the order of elaboration, each once: that of their names in its scopes. A net that has several
/// names stands at its first one.
///
/// # Errors
///
/// `AllocError` alone.
pub fn objects_of(alloc: Global, design: &Design) -> Result<Items<Object>, AllocError>
    ensures { IfOk result (λ all. all ≡ shown_in design.now) }
{
    let mut all = Items::new(alloc);
    for scoped in design.scopes.as_slice() {
        add(&mut all, scoped.object)?;
    }
    Ok(all)
}
