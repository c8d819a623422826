//! What uses make of a term.
ghost use Rattle.std.specs.Prelude.{unwrap_or};
ghost use Rattle.circ_plain_search.specs.Joining.{put, put_all};
ghost use Rattle.circ_join.specs.Uses.{plain_use, plain_uses};
ghost use Rattle.circ_term.specs.Limits.{Builds, IsWithinLimits};
ghost use Rattle.circ_term.specs.Tree.{replaced};
ghost use Rattle.circ_join.specs.Stopping.{Puts};

use crate::stop::Stop;
use crate::uses::HypothesisUse;
use circ_term::{Term, TermFault};
use std::alloc::Global;

/// The term with the uses of a Join put in, one after another. They are not counted.
pub fn put_all(alloc: Global, term: &Term, uses: &[HypothesisUse]) -> Result<Term, Stop>
    ensures { Puts (put_all term.now (plain_uses uses.now)) result }
{
    let mut whole = term.share()?;
    for one in uses {
        match put(alloc, &whole, one) {
            Ok(made) => whole = made,
            Err(stop) => return Err(stop),
        }
    }
    Ok(whole)
}

// The term with the new subterm at the use's path.
fn put(alloc: Global, whole: &Term, one: &HypothesisUse) -> Result<Term, Stop>
    ensures { Puts (put whole.now (plain_use one.now)) result }
{
    one.new.known();
    match put_at(alloc, whole, one.path.as_slice(), &one.new) {
        Ok(made) => Ok(made),
        Err(fault) => Err(Stop::of_term(fault)),
    }
}

/// The term with this subterm at the path. Where there is no such path it is as before.
pub fn put_at(alloc: Global, whole: &Term, path: &[u16], new: &Term) -> Result<Term, TermFault>
    requires within { IsWithinLimits new.now }
    ensures { Builds result (unwrap_or (replaced whole.now path.now new.now) whole.now) }
{
    whole.known();
    match whole.replace(alloc, path, new) {
        Ok(Some(made)) => Ok(made),
        Ok(None) => Ok(whole.share()?),
        Err(fault) => Err(fault),
    }
}
