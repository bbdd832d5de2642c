//! The revocation list as a file. Assumes nothing.
ghost use Rattle.std.specs.Prelude.{◌≡◌, ◌+◌, ◌*◌, ◌^◌, ◌<◌, ◌≤◌, length, take, IfOk, if◌then◌else◌, Some, None, nat_eq};
ghost use Rattle.fault.specs.Lowest.{judged, lowest};
ghost use Rattle.fault.specs.Memory.{afterwards, over};
ghost use Rattle.wire.specs.Words.{words};
ghost use Rattle.wire.specs.Revocation.{max_revoked, named_faults, count_in, revoked_in, revocation_bytes, revocation_faults, revocation_in, write_answer, ReadsAs};

use crate::head::{Kind, read_height, write_head};
use crate::words::{Words, word_at, write_word, write_words};
use fault::{Fault, Refusal, lower_of};
use tree::receivers::{ReceiverList, fault_in};

/// A list names at most so many revoked receivers.
pub const MAX_REVOKED: usize = 4096;

/// The most parts that cover all receivers but those of a list.
pub const MAX_PARTS: usize = 2 * MAX_REVOKED - 1;

/// The bytes before the first receiver.
const HEAD: usize = 6;

/// What a revocation list says besides its receivers. These stand in lent memory, since reading a list needs no heap.
#[derive(Clone, Copy)]
pub struct Revocation {
    pub height: u8,
    pub count: usize,
}

/// How many bytes a list of so many receivers has.
fn size_of_list(count: usize) -> usize
    requires { count < 2 ^ 32 }
    ensures { result ≡ 6 + 4 * count }
{
    4 * count + HEAD
}

/// The lowest fault of receivers that a list names.
fn fault_in_named<L: ReceiverList>(height: u8, receivers: &L) -> Option<Fault>
    ensures { result ≡ lowest (named_faults height (L.list receivers.now)) }
{
    lower_of(
        fault_in(height, receivers),
        Fault::TooManyRevoked.when(receivers.count() > MAX_REVOKED),
    )
}

/// How many receivers a list has, if it has as many as it says.
fn count_in(bytes: &[u8]) -> Option<usize>
    ensures { result ≡ (if nat_eq (length bytes.now) (6 + 4 * count_in bytes.now) then Some (count_in bytes.now) else None) }
{
    if bytes.len() < HEAD {
        return None;
    }
    let count = word_at(bytes, 2) as usize;
    (bytes.len() == size_of_list(count)).then_some(count)
}

/// Copies receivers to the front of lent memory.
fn copy_words(from: Words, to: &mut [u32; MAX_REVOKED])
    requires { length (words from.bytes.now) ≤ max_revoked }
    ensures { to.new ≡ over (words from.entry.bytes.now) to.old }
{
    for (i, receiver) in to[..from.count()].iter_mut().enumerate() {
        *receiver = from.at(i);
    }
}

/// Reads a revocation list. Its receivers go to the front of the lent memory; a refusal leaves that as it was.
pub fn read_revocation(
    bytes: &[u8],
    receivers: &mut [u32; MAX_REVOKED],
) -> Result<Revocation, Fault>
    ensures read { result ≡ judged (revocation_faults bytes.now) (revocation_in bytes.now) }
    ensures memory { receivers.new ≡ afterwards result (revoked_in bytes.now) receivers.old }
    ensures exact { IfOk result (λ v. bytes.now ≡ revocation_bytes v.height (revoked_in bytes.now)) }
{
    let height = read_height(Kind::Revocation, bytes)?;
    let Some(count) = count_in(bytes) else {
        return Err(Fault::Malformed);
    };
    let words = Words {
        bytes: &bytes[HEAD..],
    };
    if let Some(fault) = fault_in_named(height.levels, &words) {
        return Err(fault);
    }
    copy_words(words, receivers);
    Ok(Revocation {
        height: height.levels,
        count,
    })
}

/// Writes a revocation list to the front of the lent memory, and answers how many bytes it has. A refusal leaves the memory as it was.
pub fn write_revocation(height: u8, receivers: &[u32], out: &mut [u8]) -> Result<usize, Refusal>
    ensures answer { result ≡ write_answer height receivers.now (length out.old) }
    ensures memory { out.new ≡ afterwards result (revocation_bytes height receivers.now) out.old }
    ensures read_back { IfOk result (λ n. ReadsAs (take n out.new) height receivers.now) }
{
    if let Some(fault) = fault_in_named(height, &receivers) {
        return Err(fault.into());
    }
    let size = size_of_list(receivers.len());
    if out.len() < size {
        return Err(Refusal::NoRoom);
    }
    write_head(Kind::Revocation, height, out);
    write_word(receivers.len() as u32, &mut out[2..]);
    write_words(receivers, &mut out[HEAD..]);
    Ok(size)
}
