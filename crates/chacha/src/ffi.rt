// The block as `chacha_c` exports it to callers outside Rattle: slices of any length come in, and those of a wrong length are refused.
// Kept for the C interface: a `bool` for the refusal, and the function here and there, since a crate is a library or a static library.
ghost use Rattle.std.specs.Prelude.{◌≡◌, ◌&&◌, length, if◌then◌else◌, ◌==◌};
ghost use Rattle.chacha.specs.Rfc8439.{chacha20_block};

use crate::block;

/// Writes the block to `out`, or changes nothing and returns false where the key is not of 32 bytes, the nonce not of 12
/// or `out` not of 64.
pub fn zozhimbe_block(key: &[u8], counter: u32, nonce: &[u8], out: &mut [u8]) -> bool
    ensures accepts { result ≡ (length key.now == 32 && length nonce.now == 12 && length out.old == 64) }
    ensures after { out.new ≡ (if result then chacha20_block key.now counter nonce.now else out.old) }
{
    let Ok(key) = <[u8; 32]>::try_from(key) else {
        return false;
    };
    let Ok(nonce) = <[u8; 12]>::try_from(nonce) else {
        return false;
    };
    // Not `<&mut [u8; 64]>::try_from(out)`: its contract doesn't say what a write through it leaves in `out`.
    if out.len() != 64 {
        return false;
    }
    out.copy_from_slice(&block(key, counter, nonce));
    true
}
