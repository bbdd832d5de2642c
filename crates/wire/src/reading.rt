//! Going through the places of entries. Assumes nothing.
ghost use Rattle.std.specs.Iterator.{YieldsFirst, item_count};
ghost use Rattle.wire.specs.Entries.{places_in};

use crate::entry::place_in;
use crate::places::Places;
use tree::parts::Part;

impl<'a, const SIZE: usize> Iterator for Places<'a, SIZE> {
    type Item = Part;

    ghost next_gives = { YieldsFirst (λ s. places_in SIZE s.entries.now) };

    ghost remaining = { item_count (λ s. places_in SIZE s.entries.now) };

    fn next(&mut self) -> Option<Part> {
        let (entry, rest) = self.entries.split_at_checked(SIZE)?;
        self.entries = rest;
        Some(place_in(entry))
    }
}
