//! What comes from a label or a key, as the bytes of terms. Assumes nothing.
ghost use Rattle.std.specs.Prelude.{◌≡◌, ◌+◌, ◌<◌, ◌≤◌, [], ◌∷◌, if◌then◌else◌, MatchResult, nat_le};
ghost use Rattle.fault.specs.declared.Fault.TheVariants.{OutOfRange};
ghost use Rattle.secrecy.specs.Terms.{Left, Right, Middle, side};
ghost use Rattle.keys.specs.Asking.{point, Asked};
ghost use Rattle.keys.specs.Promise.{WorksOut, PadAndCheck, last_number};

use crate::blocks::{back, counter_of, front};
use crate::cipher::Cipher;
use crate::{Key, Pad};
use fault::Fault;

/// The label one step down to the left. Left and right have names of their own, as the subject has them; `sides` is what both are made of.
pub fn left<C: Cipher>(cipher: &mut C, label: Key) -> Key
    ensures term { WorksOut C.Cipher.gives Left label result }
    ensures asked { C.Cipher.steps cipher.old (point label 0) cipher.new }
{
    sides(cipher, label).0
}

/// The label one step down to the right.
pub fn right<C: Cipher>(cipher: &mut C, label: Key) -> Key
    ensures term { WorksOut C.Cipher.gives Right label result }
    ensures asked { C.Cipher.steps cipher.old (point label 0) cipher.new }
{
    sides(cipher, label).1
}

/// The labels on both sides, for the work of one.
pub fn sides<C: Cipher>(cipher: &mut C, label: Key) -> (Key, Key)
    ensures left { WorksOut C.Cipher.gives Left label result.0 }
    ensures right { WorksOut C.Cipher.gives Right label result.1 }
    ensures asked { C.Cipher.steps cipher.old (point label 0) cipher.new }
{
    let block = cipher.block(label, 0);
    (front(&block), back(&block))
}

/// The label one step down to `node`.
pub(crate) fn side<C: Cipher>(cipher: &mut C, label: Key, node: u32) -> Key
    ensures term { WorksOut C.Cipher.gives (side node) label result }
    ensures asked { C.Cipher.steps cipher.old (point label 0) cipher.new }
{
    if node % 2 == 0 {
        left(cipher, label)
    } else {
        right(cipher, label)
    }
}

/// The key that a label gives; of a session key, the show's key.
pub fn middle<C: Cipher>(cipher: &mut C, label: Key) -> Key
    ensures term { WorksOut C.Cipher.gives Middle label result }
    ensures asked { C.Cipher.steps cipher.old (point label 1) cipher.new }
{
    front(&cipher.block(label, 1))
}

/// What covers a session key and its check in a header under `key`, in the sending with this number.
pub fn pad<C: Cipher>(cipher: &mut C, key: Key, number: u32) -> Result<Pad, Fault>
    ensures answer { MatchResult result (λ b. (number ≤ last_number) × PadAndCheck C.Cipher.gives number key b) (λ e. (e ≡ OutOfRange) × (last_number < number)) }
    ensures asked { Asked C.Cipher.steps cipher.old (if nat_le number last_number then point key (number + 2) ∷ [] else []) cipher.new }
{
    let counter = counter_of(number)?;
    Ok(front(&cipher.block(key, counter)))
}
