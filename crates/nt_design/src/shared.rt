// What threads may share.
use crate::Design;

// Does nothing. Threads may share a `T`, and one may be handed to another thread.
fn is_shared<T: Send + Sync>() {}

/// Does nothing. It is proved only because threads may share a design.
pub fn design_is_shared() {
    is_shared::<Design>();
}
