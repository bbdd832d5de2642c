//! A sending as a file. Assumes nothing.
ghost use Rattle.std.specs.Prelude.{◌≡◌, not, ◌&&◌, ◌||◌, ◌++◌, length, ◌==◌};
ghost use Rattle.fault.specs.declared.Fault.TheVariants.{OutOfRange, ImproperPart};
ghost use Rattle.fault.specs.Lowest.{when, lowest, judged};
ghost use Rattle.tree.specs.Nodes.{in_tree, below};
ghost use Rattle.tree.specs.Parts.{is_all, descends};
ghost use Rattle.wire.specs.Words.{word_at};
ghost use Rattle.wire.specs.Entries.{entry_bytes};
ghost use Rattle.wire.specs.Sending.{parts_in, sending_head, sending_size, all_inside, all_descend, sending_in, sending_faults, said_by_sending};

use crate::entry::entry;
use crate::head::{Kind, read_height, write_head};
use crate::places::Places;
use crate::words::{word_at, write_word};
use fault::{Fault, lower_of};
use tree::heights::Height;
use tree::numbers::fault_in_number;
use tree::parts::Part;

/// The bytes before the first header.
pub const HEAD: usize = 10;

/// The bytes of a header with its part.
pub const HEADER: usize = 56;

/// A sending: its number, and the bytes of its headers, which are borrowed.
#[derive(Clone, Copy)]
pub struct Sending<'a> {
    pub height: u8,
    pub number: u32,
    pub headers: &'a [u8],
}

/// How many bytes a sending with so many parts has.
pub fn size_of_sending(count: u32) -> usize
    ensures { result ≡ sending_size count }
{
    HEAD + HEADER * count as usize
}

/// The front of a sending, up to its first header.
pub fn head_bytes(height: u8, number: u32, count: u32) -> [u8; HEAD]
    ensures { result ≡ sending_head height number count }
{
    let mut bytes = [0; HEAD];
    write_head(Kind::Sending, height, &mut bytes);
    write_word(number, &mut bytes[2..]);
    write_word(count, &mut bytes[6..]);
    bytes
}

/// A header with its part, as a sending has it.
pub fn header_bytes(part: Part, covered: [u8; 48]) -> [u8; HEADER]
    ensures { result ≡ entry_bytes part covered }
{
    entry(part, covered)
}

/// Whether a sending has as many headers as it says.
fn is_whole(bytes: &[u8]) -> bool
    ensures { result ≡ (length bytes.now == sending_size (word_at bytes.now 6)) }
{
    bytes.len() >= HEAD && bytes.len() == size_of_sending(word_at(bytes, 6))
}

/// Whether both nodes of a part are in the tree, or it is the part of all receivers.
fn is_inside(height: Height, part: Part) -> bool
    ensures { result ≡ (is_all part || (in_tree height.levels part.first && in_tree height.levels part.second)) }
{
    part == Part::ALL || height.has_node(part.first) && height.has_node(part.second)
}

/// Whether a node is at or below another, at most `height` steps down.
fn is_below(height: Height, above: u32, node: u32) -> bool
    ensures { result ≡ below height.levels above node }
{
    // Unlike who goes down from a label, this judges numbers that may be no nodes of the tree.
    let mut here = node;
    for _ in 0..height.levels {
        if above == here {
            return true;
        }
        here /= 2;
    }
    above == here
}

/// Whether the second node of a part is strictly below the first, or it is the part of all receivers.
fn is_descending(height: Height, part: Part) -> bool
    ensures { result ≡ (is_all part || descends height.levels part) }
{
    part == Part::ALL || is_below(height, part.first, part.second) && part.first != part.second
}

/// The lowest fault of the parts that headers name.
fn fault_in_parts(height: Height, headers: &[u8]) -> Option<Fault>
    ensures { result ≡ lowest (when (not (all_inside height.levels (parts_in headers.now))) OutOfRange ++ when (not (all_descend height.levels (parts_in headers.now))) ImproperPart) }
{
    let mut parts = Places::<HEADER> { entries: headers };
    let inside = parts.all(|part| is_inside(height, part));
    let mut parts = Places::<HEADER> { entries: headers };
    let descending = parts.all(|part| is_descending(height, part));
    lower_of(
        Fault::OutOfRange.when(!inside),
        Fault::ImproperPart.when(!descending),
    )
}

/// Reads a sending.
pub fn read_sending(bytes: &[u8]) -> Result<Sending<'_>, Fault>
    ensures { said_by_sending result ≡ judged (sending_faults bytes.now) (sending_in bytes.now) }
{
    let height = read_height(Kind::Sending, bytes)?;
    if !is_whole(bytes) {
        return Err(Fault::Malformed);
    }
    let number = word_at(bytes, 2);
    let headers = &bytes[HEAD..];
    match lower_of(fault_in_number(number), fault_in_parts(height, headers)) {
        Some(fault) => Err(fault),
        None => Ok(Sending {
            height: height.levels,
            number,
            headers,
        }),
    }
}
