//! The headers of parts, one behind the other. Assumes nothing.
ghost use Rattle.std.specs.Prelude.{◌≡◌, ℕ, ◌*◌, ◌≤◌, List, length, MatchResult};
ghost use Rattle.secrecy.specs.Air.{Trial};
ghost use Rattle.secrecy.specs.Terms.{Session};
ghost use Rattle.secrecy.specs.Worlds.{bytes};
ghost use Rattle.keys.specs.Drawn.{Draws, world};
ghost use Rattle.starts.specs.Drawn.{DrawnIn};
ghost use Rattle.starts.specs.Kept.{is_kept};
ghost use Rattle.starts.specs.Reading.{HasStarts};
ghost use Rattle.sending.specs.Headers.{firsts_kept, AllSendable, WroteHeaders};

use crate::header::header;
use crate::show::Show;
use fault::Fault;
use keys::cipher::Cipher;
use starts::table::Starts;
use tree::parts::Part;
use wire::sending::{HEADER, header_bytes};

/// Whether the start is there from which the key of a part comes.
fn has_start(starts: &Starts, part: Part) -> bool
    ensures { (h : ℕ) (us s : List ℕ) → HasStarts h us s starts.now → result ≡ is_kept h us part.first }
{
    starts.of(part.first).is_some()
}

/// Whether the starts are there from which the keys of parts come.
pub fn has_starts(starts: &Starts, parts: &[Part]) -> bool
    ensures { (h : ℕ) (us s : List ℕ) → HasStarts h us s starts.now → result ≡ firsts_kept h us parts.now }
{
    parts.iter().all(|part| has_start(starts, *part))
}

/// Writes the headers of parts to the front of lent memory. It fails only where a start is missing, a part is improper or the number is too high.
pub fn write_headers<C: Cipher>(
    cipher: &mut C,
    starts: &Starts,
    parts: &[Part],
    show: Show,
    out: &mut [u8],
) -> Result<(), Fault>
    requires { 56 * length parts.now ≤ length out.old }
    ensures { (h : ℕ) (us s : List ℕ) → HasStarts h us s starts.now → AllSendable h us parts.now → MatchResult result (λ _. (d : Draws) (m : Trial) → m.number ≡ show.number → DrawnIn s m.tree h d → show.session ≡ bytes (world C.Cipher.gives d) (Session m.session) → WroteHeaders (world C.Cipher.gives d) h m parts.now out.old out.new) (λ _. ⊥) }
{
    for (i, part) in parts.iter().enumerate() {
        let Some(start) = starts.of(part.first) else {
            return Err(Fault::OutOfRange);
        };
        let covered = header(cipher, start, *part, show)?;
        // Over `chunks_exact_mut` and `zip` no proof was found of what they leave.
        let at = HEADER * i;
        out[at..at + HEADER].copy_from_slice(&header_bytes(*part, covered));
    }
    Ok(())
}
