//! Which receivers are asked for: by number, or all from one to another.
use anyhow::anyhow;
use cli::{Stop, parse_number};
use std::alloc::{AllocError, Global};
use tree::nodes::leaf_of;

/// All receivers from the first to the last. Std's `RangeInclusive` has no order to sort by.
#[derive(Clone, Copy, PartialEq, Eq, PartialOrd, Ord)]
pub struct Range {
    pub first: u32,
    pub last: u32,
}

fn parse_range(text: &str) -> Option<Range> {
    let (first, last) = text.split_once("-").unwrap_or((text, text));
    let first = parse_number(first)?;
    let last = parse_number(last)?;
    (first <= last).then_some(Range { first, last })
}

/// What an argument asks for.
fn read_range(text: &str) -> Result<Range, Stop> {
    parse_range(text).ok_or_else(|| {
        Stop::Failed(anyhow!("{text} is neither a receiver nor a range A-B of receivers"))
    })
}

/// What arguments ask for, in rising order.
pub fn read_ranges(heap: Global, texts: &[String]) -> Result<Vec<Range>, Stop> {
    let mut ranges: Vec<Range> = texts
        .iter()
        .map(|text| read_range(text.as_str()))
        .try_collect(heap)?;
    ranges.sort()?;
    Ok(ranges)
}

/// The receivers of ranges that rise, each once; or one that is not in a tree of this height, if there is such a one.
pub fn receivers_in(heap: Global, height: u8, ranges: &[Range]) -> Result<Vec<u32>, AllocError> {
    let mut receivers = Vec::new(heap);
    let mut next = 0;
    for range in ranges {
        if leaf_of(height, range.last).is_none() {
            return vec![in heap; range.last; 1];
        }
        let end = range.last + 1;
        receivers.extend(next.max(range.first)..end)?;
        next = next.max(end);
    }
    Ok(receivers)
}
