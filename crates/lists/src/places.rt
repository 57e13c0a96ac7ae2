// Writing at a place of a list that may be too short for it.
ghost use Rattle.std.specs.Prelude.{◌≡◌, slice_set};

// Puts an item at a place, if there is one.
pub fn put<T: Copy>(items: &mut [T], i: usize, item: T)
    ensures { items.new ≡ slice_set items.old i item }
{
    // Tried through `get_mut`: a proof then knows nothing of what the slice holds.
    if i < items.len() {
        items[i] = item;
    }
}
