//! Reading a file of starts in pieces. Assumes nothing.
ghost use Rattle.std.specs.Prelude.{◌≡◌, ℕ, List, [], ◌++◌, IfOk, Some, MatchResult};
ghost use Rattle.fault.specs.Lowest.{lowest};
ghost use Rattle.starts.specs.Format.{asked_faults};
ghost use Rattle.starts.specs.Reading.{HasRead, HasStarts};

use crate::filling::fill_starts;
use crate::judging::fault_in_file;
use crate::nodes::unread_starts;
use crate::piece::Piece;
use crate::reader::StartsReader;
use crate::table::Starts;
use fault::{Fault, lower_of};
use std::alloc::{AllocError, Global};
use tree::receivers::Receivers;

impl StartsReader {
    /// Begins to read, for receivers of a tree of this height. Faults of theirs are told at the end, with those of the file.
    pub fn begin(heap: Global, height: u8, receivers: &[u32]) -> Result<StartsReader, AllocError>
        ensures { IfOk result (HasRead height receivers.now []) }
    {
        let (starts, asked) = match Receivers::judged(height, receivers) {
            Ok(asked) => (unread_starts(asked, heap)?, None),
            Err(fault) => (Vec::new(heap), Some(fault)),
        };
        Ok(StartsReader {
            height,
            starts,
            head: [0; 2],
            at: 0,
            done: 0,
            asked,
        })
    }

    /// Reads the next piece of the file.
    pub fn read_on(&mut self, piece: &[u8])
        ensures { (h : ℕ) (us s : List ℕ) → HasRead h us s self.old → HasRead h us (s ++ piece.now) self.new }
    {
        let piece = Piece {
            at: self.at,
            bytes: piece,
        };
        piece.copy_to(0, &mut self.head);
        self.done += fill_starts(&mut self.starts[self.done..], piece);
        self.at = piece.end();
    }

    /// The lowest fault of the file, if what was read is all of it, and of the receivers.
    fn fault(&self) -> Option<Fault>
        ensures { (h : ℕ) (us s : List ℕ) → HasRead h us s self.now → result ≡ lowest (asked_faults h us s) }
    {
        let in_file = fault_in_file(&self.head, self.at);
        let of_height = Fault::OutOfRange.when(self.head[1] != self.height);
        lower_of(lower_of(in_file, of_height), self.asked)
    }

    /// The starts, or the lowest fault of the file and of the receivers.
    pub fn finish(self) -> Result<Starts, Fault>
        ensures { (h : ℕ) (us s : List ℕ) → HasRead h us s self → MatchResult result (λ t. HasStarts h us s t) (λ f. lowest (asked_faults h us s) ≡ Some f) }
    {
        match self.fault() {
            Some(fault) => Err(fault),
            None => Ok(Starts {
                height: self.height,
                starts: self.starts,
            }),
        }
    }
}
