//! Splits that wait for their reasons.
ghost use Rattle.std.specs.Prelude.{◌≡◌, [], IfOk};
ghost use Rattle.std.specs.Option.{option_map};
ghost use Rattle.circ_proof.specs.Plain.{plain_why};
ghost use Rattle.circ_file.specs.Splits.{given, tops};

use circ_proof::{Chain, Why};
use std::alloc::AllocError;

/// A split that has fewer reasons than its count.
#[derive(Drop)]
pub(crate) struct OpenSplit {
    pub(crate) chain: Chain,
    pub(crate) term: u32,
    pub(crate) count: u32,
    pub(crate) whys: Vec<Why>,
}

/// Gives a whole reason to the innermost split, and that to the next where it is whole by it. The
/// reason that no split waits for.
pub(crate) fn give(splits: &mut Vec<OpenSplit>, why: Why) -> Result<Option<Why>, AllocError>
    ensures { IfOk result (λ o. given (tops splits.old.items []) (plain_why why) ≡
        (tops splits.new.items [], option_map plain_why o)) }
{
    let mut why = why;
    while let Some(mut split) = splits.pop() {
        split.whys.push(why)?;
        if split.whys.len() as u64 != split.count as u64 {
            splits.push(split)?;
            return Ok(None);
        }
        let OpenSplit {
            chain,
            term,
            whys,
            ..
        } = split;
        why = Why::Split { chain, term, whys };
    }
    Ok(Some(why))
}
