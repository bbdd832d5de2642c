//! Entries of one size, each two nodes and then a body: labels with their places, and the headers of a sending. Assumes nothing.
ghost use Rattle.std.specs.Prelude.{◌≡◌, ◌+◌, ◌≤◌, length};
ghost use Rattle.wire.specs.Entries.{first_place, entry_bytes};

use crate::words::{word_at, write_word};
use tree::parts::Part;

/// The bytes of the two nodes before a body.
const PLACE: usize = 8;

/// An entry, where so many bytes are a place and a body.
pub(crate) fn entry<const BODY: usize, const SIZE: usize>(
    place: Part,
    body: [u8; BODY],
) -> [u8; SIZE]
    requires { SIZE ≡ 8 + BODY }
    ensures { result ≡ entry_bytes place body.entry }
{
    let mut bytes = [0; SIZE];
    let out = &mut bytes[..];
    write_word(place.first, out);
    write_word(place.second, &mut out[4..]);
    out[PLACE..].copy_from_slice(&body);
    bytes
}

/// The two nodes of an entry.
pub(crate) fn place_in(entry: &[u8]) -> Part
    requires { 8 ≤ length entry.now }
    ensures { result ≡ first_place entry.now }
{
    Part {
        first: word_at(entry, 0),
        second: word_at(entry, 4),
    }
}
