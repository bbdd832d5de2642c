//! What a sending brings, and to whom. Assumes nothing.
ghost use Rattle.std.specs.Prelude.{◌≤◌};
ghost use Rattle.tree.specs.Numbers.{last_number};

use keys::Key;
use tree::receivers::Receivers;

/// The session key of a show, and the number of the sending that brings it, which is none above the highest.
#[derive(Clone, Copy)]
pub struct Show {
    pub number: u32,
    pub session: Key,
    ghost low: { number ≤ last_number },
}

/// A show for all receivers of a tree but the revoked.
#[derive(Clone, Copy)]
pub struct Order<'a> {
    pub revoked: Receivers<'a>,
    pub show: Show,
}
