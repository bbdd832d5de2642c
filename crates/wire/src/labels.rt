//! A receiver's labels as a file. Assumes nothing.
ghost use Rattle.std.specs.Prelude.{◌≡◌, ◌&&◌, ◌==◌};
ghost use Rattle.fault.specs.Lowest.{judged};
ghost use Rattle.tree.specs.Walks.{left_of};
ghost use Rattle.wire.specs.Entries.{entry_bytes};
ghost use Rattle.wire.specs.Labels.{places, labels_head, all_in_tree, same_places, labels_size, labels_in, labels_faults, labels_faults_for, said_by};

use crate::entry::entry;
use crate::head::{Kind, read_height, write_head};
use crate::places::Places;
use crate::words::{word_at, write_word};
use fault::{Fault, lower_than};
use tree::heights::Height;
use tree::parts::Part;
use tree::way::Way;

/// The bytes of a label with its place: the node under which it is, its own node, and the label.
pub const ENTRY: usize = 40;

/// The bytes before the first of these.
pub const HEAD: usize = 38;

/// A receiver's labels: the start of 0, and the bytes of the others with their places, which are borrowed.
#[derive(Clone, Copy)]
pub struct Labels<'a> {
    pub height: u8,
    pub receiver: u32,
    pub start: [u8; 32],
    pub entries: &'a [u8],
}

/// How many bytes a label file of a tree of this height has.
pub fn size_of_labels(height: u8) -> usize
    ensures { result ≡ labels_size height }
{
    let h = usize::from(height);
    HEAD + ENTRY * (h * (h + 1) / 2)
}

/// A label with its place, as a file has it.
pub fn entry_bytes(place: Part, label: [u8; 32]) -> [u8; ENTRY]
    ensures { result ≡ entry_bytes place label }
{
    entry(place, label)
}

/// The front of a receiver's file, up to the start of 0. Behind kind and height it has nothing in common with that of a sending.
pub fn head_bytes(height: u8, receiver: u32, start: [u8; 32]) -> [u8; HEAD]
    ensures { result ≡ labels_head height receiver start }
{
    let mut bytes = [0; HEAD];
    write_head(Kind::Labels, height, &mut bytes);
    write_word(receiver, &mut bytes[2..]);
    bytes[6..].copy_from_slice(&start);
    bytes
}

/// Whether all nodes that labels name are in the tree.
fn all_in_tree(height: Height, entries: &[u8]) -> bool
    ensures { result ≡ all_in_tree height.levels (places entries.now) }
{
    Places::<ENTRY> { entries }.all(|place| height.has_node(place.first)
        && height.has_node(place.second))
}

fn is_same(a: Part, b: Part) -> bool
    ensures { result ≡ (a.first == b.first && a.second == b.second) }
{
    a.first == b.first && a.second == b.second
}

/// Whether labels are those of the way, in its order.
fn is_along(way: Way, entries: &[u8]) -> bool
    ensures { result ≡ same_places (places entries.now) (left_of way) }
{
    let mut left = way;
    for place in (Places::<ENTRY> { entries }) {
        let Some(step) = left.next() else {
            return false;
        };
        if !is_same(place, step) {
            return false;
        }
    }
    left.next().is_none()
}

/// Reads a receiver's labels.
pub fn read_labels(bytes: &[u8]) -> Result<Labels<'_>, Fault>
    ensures { said_by result ≡ judged (labels_faults bytes.now) (labels_in bytes.now) }
{
    let height = read_height(Kind::Labels, bytes)?;
    if bytes.len() != size_of_labels(height.levels) {
        return Err(Fault::Malformed);
    }
    let receiver = word_at(bytes, 2);
    let entries = &bytes[HEAD..];
    let Some(way) = Way::of(height.levels, receiver) else {
        return Err(Fault::OutOfRange);
    };
    if !all_in_tree(height, entries) {
        return Err(Fault::OutOfRange);
    }
    if !is_along(way, entries) {
        return Err(Fault::WrongLabels);
    }
    Ok(Labels {
        height: height.levels,
        receiver,
        start: bytes[6..HEAD].try_into().unwrap(),
        entries,
    })
}

/// Reads a receiver's labels, for a tree of this height.
pub fn read_labels_for(height: u8, bytes: &[u8]) -> Result<Labels<'_>, Fault>
    ensures { said_by result ≡ judged (labels_faults_for height bytes.now) (labels_in bytes.now) }
{
    let other = Fault::OutOfRange.when(bytes.get(1).copied().unwrap_or(0) != height);
    match read_labels(bytes) {
        Err(fault) => Err(lower_than(fault, other)),
        Ok(labels) => match other {
            Some(fault) => Err(fault),
            None => Ok(labels),
        },
    }
}
