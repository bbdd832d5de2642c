//! Numbers as four bytes, the high byte first. Assumes nothing.
ghost use Rattle.std.specs.Prelude.{◌≡◌, ◌+◌, ◌*◌, ◌≤◌, length};
ghost use Rattle.std.specs.List.{flat_map};
ghost use Rattle.fault.specs.Memory.{over};
ghost use Rattle.wire.specs.Words.{bytes4, word_at, words};

use tree::receivers::ReceiverList;

/// The number in the four bytes from a place on.
pub fn word_at(bytes: &[u8], place: usize) -> u32
    requires { place + 4 ≤ length bytes.now }
    ensures { result ≡ word_at bytes.now place }
{
    u32::from_be_bytes(*bytes[place..].first_chunk().unwrap())
}

/// The numbers that bytes hold, one in each four.
#[derive(Clone, Copy)]
pub struct Words<'a> {
    pub bytes: &'a [u8],
}

impl<'a> ReceiverList for Words<'a> {
    ghost list = { λ s. words s.bytes.now };

    fn count(&self) -> usize {
        self.bytes.len() / 4
    }

    fn at(&self, index: usize) -> u32 {
        word_at(self.bytes, 4 * index)
    }
}

/// Writes a number to the front of lent memory.
pub fn write_word(n: u32, out: &mut [u8])
    requires { 4 ≤ length out.old }
    ensures { out.new ≡ over (bytes4 n) out.old }
{
    out[..4].copy_from_slice(&n.to_be_bytes());
}

/// Writes numbers to the front of lent memory.
pub fn write_words(numbers: &[u32], out: &mut [u8])
    requires { 4 * length numbers.now ≤ length out.old }
    ensures { out.new ≡ over (flat_map bytes4 numbers.now) out.old }
{
    // Over `chunks_exact_mut` and `zip` no proof was found of what they leave.
    for (i, number) in numbers.iter().enumerate() {
        write_word(*number, &mut out[4 * i..]);
    }
}
