//! A whole sending, from the starts that were read for its revoked receivers. Assumes nothing.
ghost use Rattle.std.specs.Prelude.{◌≡◌, ℕ, ◌≤◌, true, false, List, map, length, take, IfOk, OnErr, Some, None, MatchResult};
ghost use Rattle.fault.specs.declared.Fault.TheVariants.{OutOfRange};
ghost use Rattle.fault.specs.declared.Refusal.TheVariants.{Faulty};
ghost use Rattle.fault.specs.Lowest.{lowest};
ghost use Rattle.fault.specs.Memory.{over, afterwards};
ghost use Rattle.tree.specs.Cover.{cover};
ghost use Rattle.tree.specs.Promise.{most, CoverCovers};
ghost use Rattle.tree.specs.Written.{cover_answer};
ghost use Rattle.secrecy.specs.Air.{Sending, as_trial};
ghost use Rattle.secrecy.specs.Blind.{ShowsBytes};
ghost use Rattle.keys.specs.Drawn.{Draws, world};
ghost use Rattle.starts.specs.Reading.{HasStarts};
ghost use Rattle.wire.specs.Sending.{sending_size, ReadsAsSent};
ghost use Rattle.sending.specs.Answer.{send_faults, room_for, send_answer, answer_from, OwnStarts};
ghost use Rattle.sending.specs.Headers.{firsts_kept};
ghost use Rattle.sending.specs.Secret.{SendingsSecret};
ghost use Rattle.sending.specs.Sent.{covered, sent_file, Ordered, SentIn, FileIsAir};

use crate::headers::{has_starts, write_headers};
use crate::show::{Order, Show};
use fault::{Fault, Refusal, lower_than};
use keys::Key;
use keys::cipher::Cipher;
use starts::table::Starts;
use tree::cover::{cover_judged, has_room};
use tree::numbers::fault_in_number;
use tree::parts::Part;
use tree::receivers::Receivers;
use wire::sending::{HEAD, HEADER, head_bytes, size_of_sending};

/// What is to be sent, or the lowest fault of its number and of its revoked receivers.
fn judged<'a>(height: u8, revoked: &'a [u32], number: u32, session: Key) -> Result<Order<'a>, Fault>
    ensures { MatchResult result (λ order. (None ≡ lowest (send_faults height number revoked.now)) × (order.revoked.height.levels ≡ height) × (order.revoked.list.now ≡ revoked.now) × (order.show.number ≡ number) × (order.show.session ≡ session)) (λ fault. Some fault ≡ lowest (send_faults height number revoked.now)) }
{
    let in_number = fault_in_number(number);
    match Receivers::judged(height, revoked) {
        Err(fault) => Err(lower_than(fault, in_number)),
        Ok(revoked) => match in_number {
            Some(fault) => Err(fault),
            None => Ok(Order {
                revoked,
                show: Show { number, session },
            }),
        },
    }
}

/// For how many parts there is room, where so many can be noted and so many bytes be written.
fn room_for(noted: usize, bytes: usize) -> usize
    ensures { result ≡ room_for noted bytes }
{
    noted.min(bytes.saturating_sub(HEAD) / HEADER)
}

/// The cover of all but the revoked, in the front of lent memory, and how many parts it has.
fn cover_rest(revoked: Receivers, parts: &mut [Part]) -> Result<u32, Refusal>
    ensures answer { result ≡ cover_answer revoked.entry.height.levels revoked.entry.list.now (length parts.old) }
    ensures memory { parts.new ≡ afterwards result (cover revoked.entry.height.levels revoked.entry.list.now) parts.old }
    ensures within { IfOk result (λ n. n ≤ length parts.new) }
{
    let count = cover_judged(revoked, parts)?;
    Ok(count as u32)
}

/// Writes what was ordered where there is room for it, and answers how many parts it has.
fn write_order<C: Cipher>(
    cipher: &mut C,
    starts: &Starts,
    order: Order,
    parts: &mut [Part],
    out: &mut [u8],
) -> Result<u32, Refusal>
    requires noted { most (length order.revoked.list.now) ≤ length parts.old }
    requires room { sending_size (most (length order.revoked.list.now)) ≤ length out.old }
    ensures within { IfOk result (λ n. sending_size n ≤ length out.old) }
    ensures noted { parts.new ≡ over (cover order.entry.revoked.height.levels order.entry.revoked.list.now) parts.old }
    ensures written { (us s : List ℕ) → HasStarts order.entry.revoked.height.levels us s starts.now → MatchResult result (λ n. (firsts_kept order.entry.revoked.height.levels us (cover order.entry.revoked.height.levels order.entry.revoked.list.now) ≡ true) × (n ≡ length (cover order.entry.revoked.height.levels order.entry.revoked.list.now)) × ((d : Draws) (m : Sending) → Ordered C.Cipher.gives s order.entry.revoked.height.levels order.entry.show.number order.entry.revoked.list.now order.entry.show.session d m → SentIn (world C.Cipher.gives d) order.entry.revoked.height.levels m out.old out.new)) (λ r. (firsts_kept order.entry.revoked.height.levels us (cover order.entry.revoked.height.levels order.entry.revoked.list.now) ≡ false) × (r ≡ Faulty OutOfRange) × (out.new ≡ out.old)) }
{
    let count = cover_rest(order.revoked, parts)?;
    let cover = &parts[0..count as usize];
    if !has_starts(starts, cover) {
        return Err(Fault::OutOfRange.into());
    }
    out[0..HEAD].copy_from_slice(&head_bytes(
        order.revoked.height.levels,
        order.show.number,
        count,
    ));
    write_headers(cipher, starts, cover, order.show, &mut out[HEAD..])?;
    Ok(count)
}

/// Writes a sending to the front of the lent memory, with its parts noted in the front of `parts`, and answers how many bytes it has. A refusal leaves
/// all memory as it was, unless a start is missing, when the parts are noted. None is missing of starts that were read for the revoked receivers.
pub fn write_sending<C: Cipher>(
    cipher: &mut C,
    starts: &Starts,
    revoked: &[u32],
    number: u32,
    session: Key,
    parts: &mut [Part],
    out: &mut [u8],
) -> Result<usize, Refusal>
    ensures answer { (h : ℕ) (us s : List ℕ) → HasStarts h us s starts.now → result ≡ answer_from h us number revoked.now (length parts.old) (length out.old) }
    ensures own_starts { OwnStarts }
    ensures within { IfOk result (λ n. n ≤ length out.old) }
    ensures parts { (h : ℕ) (us s : List ℕ) → HasStarts h us s starts.now → parts.new ≡ afterwards (send_answer h number revoked.now (length parts.old) (length out.old)) (cover h revoked.now) parts.old }
    ensures memory { (h : ℕ) (us s : List ℕ) (d : Draws) (m : Sending) → HasStarts h us s starts.now → Ordered C.Cipher.gives s h number revoked.now session d m → out.new ≡ afterwards result (sent_file (world C.Cipher.gives d) h m) out.old }
    ensures refused { (h : ℕ) (us s : List ℕ) → HasStarts h us s starts.now → OnErr result (out.new ≡ out.old) }
    ensures read_back { (h : ℕ) (us s : List ℕ) (d : Draws) (m : Sending) → HasStarts h us s starts.now → Ordered C.Cipher.gives s h number revoked.now session d m → IfOk result (λ n. ReadsAsSent (take n out.new) h number (cover h revoked.now) (map (covered (world C.Cipher.gives d) h (as_trial h m)) (cover h revoked.now))) }
    ensures few { CoverCovers }
    ensures air { FileIsAir }
    ensures secret { SendingsSecret }
    ensures over_bytes { ShowsBytes }
{
    let order = judged(starts.height(), revoked, number, session)?;
    if !has_room(revoked.len(), room_for(parts.len(), out.len())) {
        return Err(Refusal::NoRoom);
    }
    let count = write_order(cipher, starts, order, parts, out)?;
    Ok(size_of_sending(count))
}
