//! What takes the bytes of a file.
ghost use Rattle.std.specs.Prelude.{◌≡◌, ◌≤◌, ◌+◌, ◌++◌, ℕ, List, length, OnOk};

use crate::files::MOST_BYTES;
use std::alloc::AllocError;

/// What takes the bytes of a file, piece by piece.
pub trait Intake {
    /// The first, given these bytes, is the second.
    ghost takes: { Self → List ℕ → Self → Type 0 };

    /// Takes the next bytes. After want of memory nothing is known of what was taken.
    fn give(&mut self, piece: &[u8]) -> Result<(), AllocError>
        requires { (start : Self) × (bytes : List ℕ) × takes start bytes self.old
            × (length bytes + length piece.now ≤ MOST_BYTES) }
        ensures { OnOk result ((start : Self) (bytes : List ℕ) → takes start bytes self.old →
            takes start (bytes ++ piece.now) self.new) };
}

impl Intake for Vec<u8> {
    ghost takes = { λ old bytes new. new.items ≡ old.items ++ bytes };

    #[tactic(auto, using(crate::proofs::Rules::joins))]
    fn give(&mut self, piece: &[u8]) -> Result<(), AllocError> {
        self.extend_from_slice(piece)
    }
}
