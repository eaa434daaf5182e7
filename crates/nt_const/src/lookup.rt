// Who knows what names mean.
ghost use Rattle.std.specs.Prelude.{◌≡◌, IfOk};
ghost use Rattle.nt_const.specs.Rules.{Names};

use crate::Seen;
use nt_ast::Path;
use std::alloc::{AllocError, Global};

/// Whoever knows what names mean. A path has its place, so one name may mean different things at different places.
pub trait Lookup {
    ghost sees: { Self → Names };

    /// What is seen of a path. Want of memory is the only failure.
    fn look(&self, alloc: Global, path: &Path) -> Result<Seen, AllocError>
        ensures { IfOk result (λ seen. seen ≡ sees self.now path.now) };
}
