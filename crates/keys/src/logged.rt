//! ChaCha20 with a list of what it was asked, for tests that count blocks. Assumes nothing.
ghost use Rattle.std.specs.Prelude.{◌≡◌, []};
ghost use Rattle.keys.specs.Drawn.{zero_nonce_block};
ghost use Rattle.keys.specs.Log.{log_of, logs};

use crate::Key;
use crate::cipher::{Block, ChaCha20, Cipher};

/// How many questions the list has room for.
const ROOM: usize = 64;

#[derive(Clone, Copy, Debug, Default, PartialEq, Eq)]
pub struct Question {
    pub key: Key,
    pub counter: u32,
}

/// The first `len` of the questions were asked. What is asked when there is no room left is not noted. An array beside its length, since a list with
/// a length of its own can't be copied.
#[derive(Clone, Copy)]
pub struct Logged {
    pub questions: [Question; ROOM],
    pub len: usize,
}

impl Logged {
    /// One that was asked nothing yet.
    pub fn new() -> Logged
        ensures len { result.len ≡ 0 }
        ensures log { log_of result ≡ [] }
    {
        Logged {
            questions: [Question {
                key: [0; 32],
                counter: 0,
            }; ROOM],
            len: 0,
        }
    }
}

impl Cipher for Logged {
    ghost gives = { zero_nonce_block };

    ghost steps = { logs };

    fn block(&mut self, key: Key, counter: u32) -> Block {
        if self.len < ROOM {
            self.questions[self.len] = Question { key, counter };
            self.len += 1;
        }
        ChaCha20.block(key, counter)
    }
}
