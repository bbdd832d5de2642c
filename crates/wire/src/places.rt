//! The places of entries, one after the other. Assumes nothing.
ghost use Rattle.std.specs.Prelude.{◌≤◌};

/// The places of the entries that some bytes have, of so many bytes each.
#[derive(Clone, Copy)]
pub(crate) struct Places<'a, const SIZE: usize> {
    pub(crate) entries: &'a [u8],
    ghost wide: { 8 ≤ SIZE },
}
