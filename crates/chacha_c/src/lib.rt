//! The block for callers outside Rattle, as a static library: slices of any length come in, and those of a wrong length are refused.
//! Kept for the C interface: a `bool` for the refusal, and what `chacha::ffi` has once more, since a crate is a library or a static library.
#![tactic(auto)]

ghost use Rattle.std.specs.Prelude.{◌≡◌, ◌&&◌, length, if◌then◌else◌, ◌==◌};
ghost use Rattle.chacha.specs.Rfc8439.{chacha20_block};

/// Writes the block to `out`, or changes nothing and returns false where the key is not of 32 bytes, the nonce not of 12
/// or `out` not of 64.
#[unsafe(no_mangle)]
pub extern "C" fn zozhimbe_block(key: &[u8], counter: u32, nonce: &[u8], out: &mut [u8]) -> bool
    ensures accepts { result ≡ (length key.now == 32 && length nonce.now == 12 && length out.old == 64) }
    ensures after { out.new ≡ (if result then chacha20_block key.now counter nonce.now else out.old) }
{
    chacha::ffi::zozhimbe_block(key, counter, nonce, out)
}
