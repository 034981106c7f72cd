// Slices changed at an index that may be past their end. A function, since the library's `get_mut` does not say what the slice ends as.
ghost use Rattle.std.specs.Prelude.{◌≡◌, slice_set};

// Another item at an index; past the end nothing changes.
pub fn put<T: Drop>(items: &mut [T], index: usize, item: T)
    ensures { items.new ≡ slice_set items.old index item }
{
    if index < items.len() {
        items[index] = item;
    }
}
