// Parts of slices.
ghost use Rattle.std.specs.Prelude.{◌≡◌, take, drop};

// What follows so many items.
pub(crate) fn after<T>(items: &[T], count: usize) -> &[T]
    ensures { result.now ≡ drop count items.now }
{
    if count <= items.len() {
        &items[count..]
    } else {
        &[]
    }
}

// The first so many items.
pub(crate) fn first_of<T>(items: &[T], count: usize) -> &[T]
    ensures { result.now ≡ take count items.now }
{
    if count <= items.len() {
        &items[..count]
    } else {
        items
    }
}
