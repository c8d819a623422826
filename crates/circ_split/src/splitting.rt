//! The splits of a goal into cases.
ghost use Rattle.std.specs.Prelude.{◌≡◌, ◌≤◌, ◌<◌, ◌+◌, ◌^◌, ℕ, []};
ghost use Rattle.std.specs.Prelude.{◌∷◌, ◌++◌, length, map, Err, OnOk};
ghost use Rattle.circ_term.specs.Tree.{sort_of};
ghost use Rattle.circ_theory.specs.Limits.{condition_limit};
ghost use Rattle.circ_theory.specs.Pairs.{plain_pair};
ghost use Rattle.circ_proof.specs.Plain.{plain_chain};
ghost use Rattle.circ_proof.specs.Proof.{split_limit};
ghost use Rattle.circ_plain_search.specs.Joining.{Not_split};
ghost use Rattle.circ_plain_search.specs.Search.{case_of, case_reason, constants_of, sides_with};
ghost use Rattle.circ_conditional_search.specs.Search.{normal_sides_trying, split_cases_trying};
ghost use Rattle.circ_conditional_search.specs.Search.{each_case_trying};
ghost use Rattle.circ_split.specs.Answers.{GivesSides, GivesReason, GivesCases};
ghost use Rattle.circ_split.specs.Answers.{case_answer};

use crate::casing::{case_of, constants_of};
use crate::opening::first_open_of;
use crate::sides::{Sides, normal_sides};
use circ_join::Stop;
use circ_proof::Why;
use circ_term::Term;
use circ_theory::{Pair, Theory, share_pairs};
use circ_tries::Reducer;
use std::alloc::Global;

/// What goals are split by.
#[derive(Clone, Copy)]
pub struct Splitting<'a> {
    /// Where memory comes from.
    pub alloc: Global,
    /// The theory.
    pub theory: &'a Theory,
}

/// A term that is split on, with a reason for each constant of its sort's case list.
#[derive(Drop)]
pub struct Cases {
    /// The term.
    pub term: Term,
    /// The reasons.
    pub whys: Vec<Why<Term>>,
}

// Two sides, and an open term of theirs that they are split on.
#[derive(Clone, Copy)]
struct Split<'a> {
    term: &'a Term,
    left: &'a Term,
    right: &'a Term,
}

impl Splitting<'_> {
    /// The cases of the first open subterm of the left side, or else of the right side. A case
    /// whose sides are not equal is split again, with eight splits inside one another at most.
    /// Each case puts the conditions of the goal and its own assumptions in place of the reducer's,
    /// whatever these were. No clause says which they are afterwards: those of the last case that
    /// was tried, none where memory ran out as they were put in place, or as before where there was
    /// no case.
    pub fn split_cases(
        &self,
        reducer: &mut Reducer<'_>,
        conds: &[Pair],
        left: &Term,
        right: &Term,
        budget: &mut u64,
    ) -> Result<Cases, Stop>
        requires theory { reducer.old.theory ≡ self.now.theory.now }
        requires few { length conds.now ≤ condition_limit }
        ensures exact { GivesCases (split_cases_trying self.now.theory.now reducer.old.rules
            split_limit (map plain_pair conds.now) left.now right.now budget.old)
            budget.new result }
        ensures less { budget.new ≤ budget.old }
        ensures theory { reducer.new.theory ≡ reducer.old.theory }
        ensures rules { reducer.new.rules ≡ reducer.old.rules }
    {
        let mut assumptions = share_pairs(self.alloc, conds)?;
        self.split_with(8, reducer, &mut assumptions, left, right, budget)
    }

    // The same under assumptions, with room for so many splits.
    #[cycle(split)]
    fn split_with(
        &self,
        room: u32,
        reducer: &mut Reducer<'_>,
        assumptions: &mut Vec<Pair>,
        left: &Term,
        right: &Term,
        budget: &mut u64,
    ) -> Result<Cases, Stop>
        requires theory { reducer.old.theory ≡ self.now.theory.now }
        requires few { length assumptions.old.items + room ≤ condition_limit + split_limit }
        ensures exact { GivesCases (split_cases_trying self.now.theory.now reducer.old.rules room
            (map plain_pair assumptions.old.items) left.now right.now budget.old)
            budget.new result }
        ensures less { budget.new ≤ budget.old }
        ensures theory { reducer.new.theory ≡ reducer.old.theory }
        ensures rules { reducer.new.rules ≡ reducer.old.rules }
        ensures same { OnOk result (assumptions.new.items ≡ assumptions.old.items) }
    {
        if room == 0 {
            return stuck(self.alloc, left, right, assumptions.as_slice());
        }
        match first_open_of(self.theory, left, right) {
            None => stuck(self.alloc, left, right, assumptions.as_slice()),
            Some(term) => {
                let split = Split { term, left, right };
                self.each_case(room - 1, reducer, assumptions, &split, budget)
            }
        }
    }

    // The term, with a reason for each constant in order.
    #[cycle(split)]
    fn each_case(
        &self,
        room: u32,
        reducer: &mut Reducer<'_>,
        assumptions: &mut Vec<Pair>,
        split: &Split<'_>,
        budget: &mut u64,
    ) -> Result<Cases, Stop>
        requires theory { reducer.old.theory ≡ self.now.theory.now }
        requires few { length assumptions.old.items + room < condition_limit + split_limit }
        ensures exact { GivesCases (each_case_trying self.now.theory.now reducer.old.rules
            (split_cases_trying self.now.theory.now reducer.old.rules room)
            (map plain_pair assumptions.old.items)
            split.now.term.now split.now.left.now split.now.right.now
            (constants_of self.now.theory.now (sort_of split.now.term.now)) budget.old)
            budget.new result }
        ensures less { budget.new ≤ budget.old }
        ensures theory { reducer.new.theory ≡ reducer.old.theory }
        ensures rules { reducer.new.rules ≡ reducer.old.rules }
        ensures same { OnOk result (assumptions.new.items ≡ assumptions.old.items) }
    {
        let term = split.term.share()?;
        let mut whys = Vec::new(self.alloc);
        let constants = constants_of(self.theory, split.term.sort());
        for i in 0..constants.len() {
            match self.one_case(room, reducer, assumptions, split, constants[i], budget) {
                Err(stop) => return Err(stop),
                Ok(why) => whys.push(why)?,
            }
        }
        Ok(Cases { term, whys })
    }

    // The case is assumed, and both sides are normalised.
    #[cycle(split)]
    fn one_case(
        &self,
        room: u32,
        reducer: &mut Reducer<'_>,
        assumptions: &mut Vec<Pair>,
        split: &Split<'_>,
        constant: u32,
        budget: &mut u64,
    ) -> Result<Why<Term>, Stop>
        requires theory { reducer.old.theory ≡ self.now.theory.now }
        requires few { length assumptions.old.items + room < condition_limit + split_limit }
        ensures exact { GivesReason (case_answer self.now.theory.now reducer.old.rules room
            (map plain_pair assumptions.old.items ++ case_of split.now.term.now constant ∷ [])
            split.now.left.now split.now.right.now budget.old) budget.new result }
        ensures less { budget.new ≤ budget.old }
        ensures theory { reducer.new.theory ≡ reducer.old.theory }
        ensures rules { reducer.new.rules ≡ reducer.old.rules }
        ensures same { OnOk result (assumptions.new.items ≡ assumptions.old.items) }
    {
        let case = case_of(self.alloc, split.term, constant)?;
        assumptions.push(case)?;
        match self.case_reason(room, reducer, assumptions, split.left, split.right, budget) {
            Err(stop) => Err(stop),
            Ok(why) => {
                let _case = assumptions.pop();
                Ok(why)
            }
        }
    }

    // The reason of a case under these assumptions, its own among them.
    #[cycle(split)]
    fn case_reason(
        &self,
        room: u32,
        reducer: &mut Reducer<'_>,
        assumptions: &mut Vec<Pair>,
        left: &Term,
        right: &Term,
        budget: &mut u64,
    ) -> Result<Why<Term>, Stop>
        requires theory { reducer.old.theory ≡ self.now.theory.now }
        requires few { length assumptions.old.items + room ≤ condition_limit + split_limit }
        ensures exact { GivesReason (case_answer self.now.theory.now reducer.old.rules room
            (map plain_pair assumptions.old.items) left.now right.now budget.old)
            budget.new result }
        ensures less { budget.new ≤ budget.old }
        ensures theory { reducer.new.theory ≡ reducer.old.theory }
        ensures rules { reducer.new.rules ≡ reducer.old.rules }
        ensures same { OnOk result (assumptions.new.items ≡ assumptions.old.items) }
    {
        match self.case_sides(reducer, assumptions.as_slice(), left, right, budget) {
            Err(stop) => Err(stop),
            Ok(sides) => self.sides_reason(room, reducer, assumptions, sides, budget),
        }
    }

    // A case ends where its sides are equal, and else is split again.
    #[cycle(split)]
    fn sides_reason(
        &self,
        room: u32,
        reducer: &mut Reducer<'_>,
        assumptions: &mut Vec<Pair>,
        sides: Sides,
        budget: &mut u64,
    ) -> Result<Why<Term>, Stop>
        requires theory { reducer.old.theory ≡ self.now.theory.now }
        requires few { length assumptions.old.items + room ≤ condition_limit + split_limit }
        ensures exact { GivesReason (case_reason
            (split_cases_trying self.now.theory.now reducer.old.rules room)
            (map plain_pair assumptions.old.items)
            (sides_with sides.left sides.right (plain_chain sides.chain) budget.old))
            budget.new result }
        ensures less { budget.new ≤ budget.old }
        ensures theory { reducer.new.theory ≡ reducer.old.theory }
        ensures rules { reducer.new.rules ≡ reducer.old.rules }
        ensures same { OnOk result (assumptions.new.items ≡ assumptions.old.items) }
    {
        if sides.left.same(&sides.right) {
            return Ok(Why::Same { chain: sides.chain });
        }
        match self.split_with(
            room,
            reducer,
            assumptions,
            &sides.left,
            &sides.right,
            budget,
        ) {
            Err(stop) => Err(stop),
            Ok(cases) => Ok(Why::Split {
                chain: sides.chain,
                term: cases.term,
                whys: cases.whys,
            }),
        }
    }

    // Both sides in normal form under these assumptions.
    fn case_sides(
        &self,
        reducer: &mut Reducer<'_>,
        assumptions: &[Pair],
        left: &Term,
        right: &Term,
        budget: &mut u64,
    ) -> Result<Sides, Stop>
        requires theory { reducer.old.theory ≡ self.now.theory.now }
        requires few { length assumptions.now < 2 ^ 32 }
        ensures exact { GivesSides (normal_sides_trying self.now.theory.now reducer.old.rules
            (map plain_pair assumptions.now) left.now right.now budget.old) budget.new result }
        ensures less { budget.new ≤ budget.old }
        ensures theory { reducer.new.theory ≡ reducer.old.theory }
        ensures rules { reducer.new.rules ≡ reducer.old.rules }
    {
        reducer.assume(assumptions)?;
        normal_sides(self.alloc, reducer, left, right, budget)
    }
}

// The two sides cannot be split further under the assumptions.
fn stuck(alloc: Global, left: &Term, right: &Term, assumptions: &[Pair]) -> Result<Cases, Stop>
    ensures { (n : ℕ) → GivesCases (Err (Not_split left.now right.now
        (map plain_pair assumptions.now))) n result }
{
    let left = left.share()?;
    let right = right.share()?;
    let assumptions = share_pairs(alloc, assumptions)?;
    Err(Stop::Stuck {
        left,
        right,
        assumptions,
    })
}
