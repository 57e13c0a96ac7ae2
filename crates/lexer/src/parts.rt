// Bytes of a text, and where a part of it ends.
ghost use Rattle.std.specs.Prelude.{◌≡◌, ◌+◌, ◌≤◌, length, drop, slice_index};
ghost use Rattle.text.specs.Fields.{up_to};

// What is left of a text from a place on: nothing past the end.
fn left_from(bytes: &[u8], from: usize) -> &[u8]
    ensures { result.now ≡ drop from bytes.now }
{
    bytes.get(from..).unwrap_or(&[])
}

// The place of the first `sep` from `from` on, or the end; past the end, `from` itself.
pub fn until(bytes: &[u8], from: usize, sep: u8) -> usize
    ensures { (result ≡ from + up_to sep (drop from bytes.now)) × ((from ≤ length bytes.now → result ≤ length bytes.now)) }
{
    // No `skip` of an iterator, which would pass over each byte before `from`.
    let left = left_from(bytes, from);
    from + left.iter().take_while(|b| **b != sep).count()
}

// The byte at a place, or 0 past the end.
pub(crate) fn byte_at(bytes: &[u8], at: usize) -> u8
    ensures { result ≡ slice_index bytes.now at }
{
    bytes.get(at).copied().unwrap_or(0)
}
