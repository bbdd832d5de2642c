//! The first two bytes of every file: its kind, and the height of its tree. Assumes nothing.
ghost use Rattle.std.specs.Prelude.{◌≡◌, ◌≤◌, [], ◌∷◌, length, slice_index};
ghost use Rattle.fault.specs.Lowest.{judged};
ghost use Rattle.fault.specs.Memory.{over};
ghost use Rattle.wire.specs.Head.{head_faults};
ghost use Rattle.wire.specs.Kinds.{number_of, levels_of};

use fault::Fault;
use tree::heights::Height;

/// What a file is, with the number that is its first byte.
#[derive(Clone, Copy, Debug, PartialEq, Eq)]
pub enum Kind {
    Revocation = 1,
    Labels = 2,
    Sending = 3,
    Starts = 4,
}

impl Kind {
    pub fn number(self) -> u8
        ensures { result ≡ number_of self }
    {
        self as u8
    }
}

/// The height in a file whose kind has this number.
fn height_in(kind: u8, bytes: &[u8]) -> Result<Height, Fault>
    ensures { levels_of result ≡ judged (head_faults kind bytes.now) (slice_index bytes.now 1) }
{
    if bytes.len() < 2 || bytes[0] != kind {
        return Err(Fault::Malformed);
    }
    Height::try_from(bytes[1])
}

/// The height in a file of this kind.
pub fn read_height(kind: Kind, bytes: &[u8]) -> Result<Height, Fault>
    ensures { levels_of result ≡ judged (head_faults (number_of kind) bytes.now) (slice_index bytes.now 1) }
{
    height_in(kind.number(), bytes)
}

/// The same, for whoever has numbers and no types of them.
pub fn read_head(kind: u8, bytes: &[u8]) -> Result<u8, Fault>
    ensures { result ≡ judged (head_faults kind bytes.now) (slice_index bytes.now 1) }
{
    Ok(height_in(kind, bytes)?.levels)
}

/// Writes a kind and a height to the front of lent memory.
pub(crate) fn write_head(kind: Kind, height: u8, out: &mut [u8])
    requires { 2 ≤ length out.old }
    ensures { out.new ≡ over (number_of kind ∷ height ∷ []) out.old }
{
    out[0] = kind.number();
    out[1] = height;
}
