//! Looking a start up. Assumes nothing.
ghost use Rattle.std.specs.Prelude.{◌≡◌, ℕ, List, if◌then◌else◌, Some, None};
ghost use Rattle.starts.specs.Format.{start_in};
ghost use Rattle.starts.specs.Kept.{is_kept};
ghost use Rattle.starts.specs.Reading.{HasStarts};

use crate::table::Starts;

impl Starts {
    pub fn height(&self) -> u8
        ensures { result ≡ self.now.height }
    {
        self.height
    }

    /// The start of a node, if it was kept.
    pub fn of(&self, node: u32) -> Option<[u8; 32]>
        ensures { (h : ℕ) (us s : List ℕ) → HasStarts h us s self.now → result ≡ (if is_kept h us node then Some (start_in s node) else None) }
    {
        let place = self
            .starts
            .binary_search_by_key(&node, |start| start.node)
            .ok()?;
        Some(self.starts[place].bytes)
    }
}
