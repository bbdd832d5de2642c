//! Block functions that tell what they are asked. Assumes nothing.
ghost use Rattle.std.specs.Prelude.{◌≡◌, ℕ, List};
ghost use Rattle.secrecy.specs.Worlds.{Point};
ghost use Rattle.keys.specs.Asking.{point};
ghost use Rattle.keys.specs.Drawn.{zero_nonce_block};

use crate::Key;

/// A block of a cipher.
pub type Block = [u8; 64];

/// A block function. Its state is whatever it keeps of the questions: `steps` relates what it was before a question to what it is after it.
pub trait Cipher {
    ghost gives: { List ℕ → ℕ → List ℕ };

    ghost steps: { Self → Point → Self → Type 0 };

    fn block(&mut self, key: Key, counter: u32) -> Block
        ensures bytes { result ≡ gives key counter }
        ensures asked { steps self.old (point key counter) self.new };
}

/// ChaCha20 with twelve zero bytes as the nonce. It keeps nothing.
#[derive(Clone, Copy)]
pub struct ChaCha20;

impl Cipher for ChaCha20 {
    ghost gives = { zero_nonce_block };

    ghost steps = { λ _ _ _. Unit {0} };

    fn block(&mut self, key: Key, counter: u32) -> Block {
        chacha::block(key, counter, [0; 12])
    }
}
