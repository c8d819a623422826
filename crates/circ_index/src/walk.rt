//! How far the patterns are gone through that can become a term.
ghost use Rattle.std.specs.Prelude.{◌≡◌, false};

use crate::rows::Ahead;

// So many places are tried by keys before the seats are looked for.
const MOST_TRIES: u32 = 4;

/// The next places of patterns that can become a term: at first by keys, and where some were tried
/// in vain, by seats.
#[derive(Drop)]
pub struct Walk {
    pub(crate) ahead: Ahead,
    pub(crate) by_seat: bool,
    tries: u32,
}

impl Walk {
    // A walk by keys, which stands at these places.
    pub(crate) fn by_keys(ahead: Ahead) -> Walk
        ensures places { result.ahead ≡ ahead }
        ensures way { result.by_seat ≡ false }
    {
        Walk {
            ahead,
            by_seat: false,
            tries: MOST_TRIES,
        }
    }

    // Counts one place more. True once, if so many were tried.
    pub(crate) fn tires(&mut self) -> bool
        ensures places { self.new.ahead ≡ self.old.ahead }
        ensures way { self.new.by_seat ≡ self.old.by_seat }
    {
        let tires = self.tries == 1;
        self.tries = self.tries.saturating_sub(1);
        tires
    }
}
