//! The theories of the library, as texts.
#![tactic(auto)]

ghost use Rattle.std.specs.Prelude.{◌≡◌};
ghost use Rattle.std.specs.Option.{option_copied};
ghost use Rattle.circ_lib.specs.Library.{library_text};

mod texts;

use crate::texts::{BITS, LANG, PROC, STREAM, TREE};

/// The text of a name. None exactly where the library has no theory of this name.
#[tactic(auto, using(crate::proofs::Written::written))]
pub fn lookup(name: &[u8]) -> Option<&'static [u8]>
    ensures { option_copied result ≡ library_text name.now }
{
    if name == b"BITS".as_slice() {
        return Some(BITS);
    }
    if name == b"STREAM".as_slice() {
        return Some(STREAM);
    }
    if name == b"TREE".as_slice() {
        return Some(TREE);
    }
    if name == b"LANG".as_slice() {
        return Some(LANG);
    }
    if name == b"PROC".as_slice() {
        return Some(PROC);
    }
    None
}
