//! Pieces of a file, which come one after the other. Assumes nothing.
ghost use Rattle.std.specs.Prelude.{◌≡◌, ℕ, ◌+◌, ◌-◌, ◌^◌, ◌≤◌, min, List, ◌++◌, length};
ghost use Rattle.starts.specs.Window.{counted, window};

/// A piece of a file, which begins at place `at` of it.
#[derive(Clone, Copy)]
pub struct Piece<'a> {
    pub(crate) at: usize,
    pub(crate) bytes: &'a [u8],
}

impl<'a> Piece<'a> {
    /// Where the next piece begins, as far as places can be counted.
    pub fn end(self) -> usize
        ensures { result ≡ min (self.entry.at + length self.entry.bytes.now) (2 ^ 64 - 1) }
    {
        self.at.saturating_add(self.bytes.len())
    }

    /// Copies what the piece has of the bytes from place `begin` on.
    pub fn copy_to(self, begin: usize, out: &mut [u8])
        requires { begin + length out.old ≤ 2 ^ 63 }
        ensures { (s : List ℕ) → self.entry.at ≡ counted s → out.old ≡ window begin (length out.old) s → out.new ≡ window begin (length out.old) (s ++ self.entry.bytes.now) }
    {
        let from = begin.max(self.at);
        let to = (begin + out.len()).min(self.end());
        if from < to {
            let shared = &self.bytes[from - self.at..to - self.at];
            out[from - begin..to - begin].copy_from_slice(shared);
        }
    }
}
