// Copies of names and keys.
ghost use Rattle.std.specs.Prelude.{◌≡◌, IfOk};

use crate::{Key, Path};
use std::alloc::{AllocError, Global};

pub(crate) fn copy_path(alloc: Global, path: &Path) -> Result<Path, AllocError>
    ensures { IfOk result (λ copy. copy ≡ path.now) }
{
    let name = path.name.copy(alloc)?;
    let scope = match &path.scope {
        None => None,
        Some(scope) => Some(scope.copy(alloc)?),
    };
    Ok(Path {
        at: path.at,
        scope,
        name,
    })
}

pub(crate) fn copy_key(alloc: Global, key: &Option<Key>) -> Result<Option<Key>, AllocError>
    ensures { IfOk result (λ copy. copy ≡ key.now) }
{
    match key {
        None => Ok(None),
        Some(Key::Other) => Ok(Some(Key::Other)),
        Some(Key::Member(name)) => Ok(Some(Key::Member(name.copy(alloc)?))),
    }
}
