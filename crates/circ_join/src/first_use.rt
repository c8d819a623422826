//! The first hypothesis that can be used on two terms.
ghost use Rattle.std.specs.Prelude.{◌≡◌, ◌≤◌, ◌<◌, ◌*◌, ◌/◌, length, Some};
ghost use Rattle.std.specs.Option.{option_map};
ghost use Rattle.std.specs.List.{slice_get};
ghost use Rattle.circ_term.specs.Subst.{substitution_of};
ghost use Rattle.circ_theory.specs.Goal.{Goal as TheGoal};
ghost use Rattle.circ_conditional_search.specs.Joining.{first_use_trying};
ghost use Rattle.circ_join.specs.Binding.{BindsSides};
ghost use Rattle.circ_join.specs.Hypotheses.{way_at};
ghost use Rattle.circ_join.specs.Trying.{normaliser_of, Works, use_by};
ghost use Rattle.circ_join.specs.Uses.{plain_use};

use crate::binding::bind_conditions;
use crate::conditions::passes;
use crate::hypotheses::Hypotheses;
use crate::uses::{HypothesisUse, chains_of};
use circ_rewrite::RewriteFault;
use circ_term::{Path, Subst, Term};
use circ_theory::Way;
use circ_tries::Reducer;
use std::alloc::Global;

impl Hypotheses {
    /// The first use of a hypothesis on both terms, which stand at the path. They are tried in
    /// order, each from left to right before the other way about.
    pub fn first_use(
        &self,
        alloc: Global,
        reducer: &mut Reducer<'_>,
        path: &[u16],
        a: &Term,
        b: &Term,
        budget: &mut u64,
    ) -> Result<Option<HypothesisUse>, RewriteFault>
        ensures exact { Works (option_map plain_use) budget.new
            (first_use_trying (normaliser_of reducer.old) 0 self.now.all path.now a.now b.now
            budget.old) result }
        ensures less { budget.new ≤ budget.old }
        ensures same { reducer.new ≡ reducer.old }
    {
        let mut from = 0;
        loop {
            let Some((place, subst)) = self.first(from, a, b)? else {
                return Ok(None);
            };
            match self.use_at(alloc, reducer, place, subst, path, b, budget) {
                Err(fault) => return Err(fault),
                Ok(Some(one)) => return Ok(Some(one)),
                Ok(None) => from = place + 1,
            }
        }
    }

    // The use of the hypothesis at a place that matches, where its conditions hold.
    fn use_at(
        &self,
        alloc: Global,
        reducer: &mut Reducer<'_>,
        place: u32,
        subst: Subst,
        path: &[u16],
        new: &Term,
        budget: &mut u64,
    ) -> Result<Option<HypothesisUse>, RewriteFault>
        requires there { place < 2 * length self.now.all }
        requires binds { (h : TheGoal) → slice_get self.now.all (place / 2) ≡ Some h
            → BindsSides h subst }
        ensures exact { (h : TheGoal) → slice_get self.now.all (place / 2) ≡ Some h
            → Works (option_map plain_use) budget.new (use_by (normaliser_of reducer.old) place h
            path.now new.now (substitution_of subst) budget.old) result }
        ensures less { budget.new ≤ budget.old }
        ensures same { reducer.new ≡ reducer.old }
    {
        let hyp = &self.goals()[place as usize / 2];
        let passes = match passes(alloc, reducer, hyp.conds.as_slice(), &subst, budget) {
            Err(fault) => return Err(fault),
            Ok(None) => return Ok(None),
            Ok(Some(passes)) => passes,
        };
        let mut subst = subst;
        bind_conditions(hyp.conds.as_slice(), &mut subst)?;
        Ok(Some(HypothesisUse {
            number: place / 2,
            way: way_at(place),
            path: Path::from_slice(alloc, path)?,
            terms: subst.terms()?,
            conds: chains_of(alloc, passes)?,
            new: new.share()?,
        }))
    }
}

// Which side of a hypothesis is found at a place.
fn way_at(place: u32) -> Way
    ensures { result ≡ way_at place }
{
    if place % 2 == 0 {
        Way::Forth
    } else {
        Way::Back
    }
}
