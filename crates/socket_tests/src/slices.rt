//! Parts of slices.

// The first bytes of these, so many of them, or all.
pub(crate) fn first(bytes: &[u8], count: usize) -> &[u8] {
    &bytes[..count.min(bytes.len())]
}
