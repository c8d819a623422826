//! The command `library`: a text of the library is printed.
ghost use Rattle.std.specs.Prelude.{◌≡◌, IfOk, IfErr};
ghost use Rattle.circ_reports.specs.Library.{RefusesLibrary};

use circ_status::Status;
use std::alloc::Global;

/// A copy of the text, or the answer in its place.
pub fn library(alloc: Global, text: &[u8]) -> Result<Vec<u8>, Status>
    ensures given { IfOk result (λ v. v.items ≡ text.now) }
    ensures refused { IfErr result RefusesLibrary }
{
    Ok(Vec::from_slice(alloc, text)?)
}
