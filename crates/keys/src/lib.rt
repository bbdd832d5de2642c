//! Labels and keys, as the bytes of terms: what comes from a label, going down the tree, the key of a part, and the bytes that cover a session key.
//! Assumes nothing.
#![tactic(auto)]

ghost use Rattle.keys.specs.Drawn.{ZozhimbeReal};
ghost use Rattle.keys.specs.Log.{LogExact};

mod blocks;
pub mod cipher;
pub mod descent;
pub mod labels;
pub mod logged;

/// Labels and keys have the size of a cipher's key. An alias, as `Pad` is: a type of its own would ask more of callers, who give arrays.
pub type Key = [u8; 32];

/// What covers a session key and the sixteen zero bytes after it.
pub type Pad = [u8; 48];

/// What the contracts rest on: the theorems on worlds hold of ChaCha20's, and `Asked` says just what was asked.
pub fn keys_theorems()
    ensures world { ZozhimbeReal }
    ensures exact { LogExact }
{}
