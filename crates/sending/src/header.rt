//! The header of a part: a session key and sixteen zero bytes under the part's key. Assumes nothing.
ghost use Rattle.std.specs.Prelude.{◌≡◌, ℕ, suc, ◌^◌, ◌<◌, T, ◌++◌, replicate, MatchResult};
ghost use Rattle.tree.specs.Parts.{proper};
ghost use Rattle.secrecy.specs.Air.{Trial};
ghost use Rattle.secrecy.specs.Terms.{Start, Session};
ghost use Rattle.secrecy.specs.Worlds.{xors, bytes};
ghost use Rattle.keys.specs.Drawn.{Draws, world};
ghost use Rattle.sending.specs.Sent.{covered};

use crate::show::Show;
use fault::Fault;
use keys::cipher::Cipher;
use keys::descent::part_key;
use keys::labels::pad;
use keys::{Key, Pad};
use tree::parts::Part;

/// A session key and sixteen zero bytes, added bit by bit to what covers them.
fn under(pad: Pad, session: Key) -> Pad
    ensures { result ≡ xors pad (session ++ replicate 16 0) }
{
    let mut plain = [0; 48];
    plain[0..32].copy_from_slice(&session);
    let mut covered = pad;
    // Over `zip` no invariant was found that says what is left of the bytes.
    for (i, byte) in covered.iter_mut().enumerate() {
        *byte ^= plain[i];
    }
    covered
}

/// The 48 bytes of a part's header, from the start of the part's first node.
pub fn header<C: Cipher>(cipher: &mut C, start: Key, part: Part, show: Show) -> Result<Pad, Fault>
    ensures { (h : ℕ) → part.second < 2 ^ suc h → T (proper h part) → MatchResult result (λ b. (d : Draws) (m : Trial) → m.number ≡ show.number → start ≡ bytes (world C.Cipher.gives d) (Start m.tree part.first) → show.session ≡ bytes (world C.Cipher.gives d) (Session m.session) → b ≡ covered (world C.Cipher.gives d) h m part) (λ _. ⊥) }
{
    let key = part_key(cipher, start, part)?;
    let pad = pad(cipher, key, show.number)?;
    Ok(under(pad, show.session))
}
