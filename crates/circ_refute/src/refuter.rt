//! A refutation, pair by pair.
ghost use Rattle.std.specs.Prelude.{◌≡◌, ◌+◌, ◌≤◌, ◌^◌, ℕ, map, length, false, IfOk, OnOk};
ghost use Rattle.std.specs.List.{list_any};
ghost use Rattle.circ_term.specs.Tree.{sort_of};
ghost use Rattle.circ_term.specs.Order.{is_same};
ghost use Rattle.circ_theory.specs.Observing.{is_hidden};
ghost use Rattle.circ_theory.specs.Theory.{sides, IsWellSortedPair};
ghost use Rattle.circ_theory.specs.Fresh.{fresh_after};
ghost use Rattle.circ_entry.specs.Plain.{plain_entry, plain_entries};
ghost use Rattle.circ_refute.specs.PlainRefutation.{conclude, is_pair, refutation};
ghost use Rattle.circ_refute.specs.Plain.{entries_by, entry_of, led_to, pair_of, plain_refuted};
ghost use Rattle.circ_refute.specs.Plain.{HasOrigin, HaveOrigins, IsFrom};
ghost use Rattle.circ_refute.specs.Progress.{conclusion_from, conclusion_of_expanding};
ghost use Rattle.circ_refute.specs.Progress.{conclusion_of_pair, first_progress, progress, work};
ghost use Rattle.circ_refute.specs.Progress.{rewriting_in, GoesOn, HaltsWith, HasRoom, HasRoomFor};

use crate::children::push_children;
use crate::descendant::{Descendant, Origin};
use crate::halt::Halt;
use crate::refuted::Refuted;
use crate::two_cases::are_two_cases;
use circ_entry::Entry;
use circ_rewrite::theory_rules;
use circ_term::Term;
use circ_theory::{Goal, Theory, variables_from};
use circ_tries::Reducer;
use std::alloc::{AllocError, Global};
use std::collections::VecDeque;

// What looks for a difference: the pairs of a goal that were expanded, in order, those that wait,
// and what is left of the budgets. Normal forms are kept from one goal to the next.
#[derive(Drop)]
pub(crate) struct Refuter<'a> {
    pub(crate) alloc: Global,
    pub(crate) theory: &'a Theory,
    pub(crate) reducer: Reducer<'a>,
    pub(crate) expanded: Vec<Descendant>,
    pub(crate) queue: VecDeque<Descendant>,
    pub(crate) rewrites: u64,
    pub(crate) derives: u64,
}

impl<'a> Refuter<'a> {
    // A refuter that has not begun.
    pub(crate) fn new(
        alloc: Global,
        theory: &'a Theory,
        rewrites: u64,
        derives: u64,
    ) -> Result<Refuter<'a>, AllocError>
        ensures theory { IfOk result (λ r. r.theory.now ≡ theory.now) }
        ensures reducer { IfOk result (λ r. r.reducer ≡ rewriting_in theory.now) }
        ensures rewrites { IfOk result (λ r. r.rewrites ≡ rewrites) }
        ensures derives { IfOk result (λ r. r.derives ≡ derives) }
    {
        let rules = theory_rules(alloc, theory)?;
        let reducer = Reducer::new(alloc, theory, rules)?;
        Ok(Refuter {
            alloc,
            theory,
            reducer,
            expanded: Vec::new(alloc),
            queue: VecDeque::new(alloc),
            rewrites,
            derives,
        })
    }

    // What is found of a goal, with what is left of the budgets. After want of memory they hold no
    // more than before.
    pub(crate) fn refute(&mut self, goal: &Goal) -> Result<Refuted, AllocError>
        requires reducer { self.old.reducer ≡ rewriting_in self.old.theory.now }
        requires sorted { IsWellSortedPair self.old.theory.now.signature (sides goal.now) }
        requires low { fresh_after goal.now.left goal.now.right ≤ 2 ^ 31 }
        requires few { self.old.derives ≤ 10000 }
        ensures exact { IfOk result (λ r. refutation self.old.theory.now self.old.derives
            self.old.rewrites goal.now ≡ conclude (plain_refuted r) self.new.rewrites
            self.new.derives) }
        ensures theory { self.new.theory ≡ self.old.theory }
        ensures reducer { self.new.reducer ≡ self.old.reducer }
        ensures rewrites { self.new.rewrites ≤ self.old.rewrites }
        ensures derives { self.new.derives ≤ self.old.derives }
    {
        self.begin(goal)?;
        match self.run() {
            Halt::Found(refuted) => Ok(refuted),
            Halt::Memory => Err(AllocError),
        }
    }

    // The goal alone waits.
    fn begin(&mut self, goal: &Goal) -> Result<(), AllocError>
        ensures begun { OnOk result
            (progress self.new ≡ first_progress goal.now self.old.rewrites self.old.derives) }
        ensures origins { OnOk result
            (HaveOrigins self.new.expanded.items self.new.queue.items) }
        ensures theory { self.new.theory ≡ self.old.theory }
        ensures reducer { self.new.reducer ≡ self.old.reducer }
        ensures rewrites { self.new.rewrites ≡ self.old.rewrites }
        ensures derives { self.new.derives ≡ self.old.derives }
    {
        self.expanded = Vec::new(self.alloc);
        self.queue = VecDeque::new(self.alloc);
        self.queue.push_back(Descendant {
            left: goal.left.share()?,
            right: goal.right.share()?,
            origin: None,
        })?;
        Ok(())
    }

    // Looks at one pair after another, until something is found.
    fn run(&mut self) -> Halt
        requires reducer { self.old.reducer ≡ rewriting_in self.old.theory.now }
        requires room { HasRoom self.old.theory.now (progress self.old) }
        requires origins { HaveOrigins self.old.expanded.items self.old.queue.items }
        ensures halts { HaltsWith (conclusion_from self.old.theory.now (progress self.old))
            (progress self.new) result }
        ensures theory { self.new.theory ≡ self.old.theory }
        ensures reducer { self.new.reducer ≡ self.old.reducer }
        ensures rewrites { self.new.rewrites ≤ self.old.rewrites }
        ensures derives { self.new.derives ≤ self.old.derives }
    {
        loop {
            match self.turn() {
                Ok(()) => {}
                Err(halt) => return halt,
            }
        }
    }

    // The first pair that waits is normalised and looked at.
    fn turn(&mut self) -> Result<(), Halt>
        requires reducer { self.old.reducer ≡ rewriting_in self.old.theory.now }
        requires room { HasRoom self.old.theory.now (progress self.old) }
        requires origins { HaveOrigins self.old.expanded.items self.old.queue.items }
        ensures goes { GoesOn self.old.theory.now
            (conclusion_from self.old.theory.now (progress self.old)) (work (progress self.old))
            (progress self.new) result }
        ensures origins { OnOk result
            (HaveOrigins self.new.expanded.items self.new.queue.items) }
        ensures theory { self.new.theory ≡ self.old.theory }
        ensures reducer { self.new.reducer ≡ self.old.reducer }
        ensures rewrites { self.new.rewrites ≤ self.old.rewrites }
        ensures derives { self.new.derives ≤ self.old.derives }
    {
        let Some(waiting) = self.queue.pop_front() else {
            return Err(Halt::Found(Refuted::Alike));
        };
        self.theory.known();
        waiting.left.known();
        waiting.right.known();
        let left = match self.reducer.value(&waiting.left, 0, &mut self.rewrites) {
            Ok(left) => left,
            Err(fault) => return Err(Halt::of_rewrite(fault)),
        };
        let right = match self.reducer.value(&waiting.right, 0, &mut self.rewrites) {
            Ok(right) => right,
            Err(fault) => return Err(Halt::of_rewrite(fault)),
        };
        self.judge(waiting.origin, left, right)
    }

    // A pair of normal forms is passed over or expanded, or is a difference.
    fn judge(&mut self, origin: Option<Origin>, left: Term, right: Term) -> Result<(), Halt>
        requires room { HasRoomFor self.old.theory.now (progress self.old) left right }
        requires origins { HaveOrigins self.old.expanded.items self.old.queue.items }
        requires origin { HasOrigin (length self.old.expanded.items) origin }
        ensures goes { GoesOn self.old.theory.now
            (conclusion_of_pair self.old.theory.now (progress self.old)
            (entries_by self.old.theory.now (led_to self.old.theory.now self.old.expanded.items)
            origin) left right) (work (progress self.old) + 1) (progress self.new) result }
        ensures origins { OnOk result
            (HaveOrigins self.new.expanded.items self.new.queue.items) }
        ensures theory { self.new.theory ≡ self.old.theory }
        ensures reducer { self.new.reducer ≡ self.old.reducer }
        ensures rewrites { self.new.rewrites ≡ self.old.rewrites }
        ensures derives { self.new.derives ≤ self.old.derives }
    {
        if left.same(&right) {
            return Ok(());
        }
        if self.theory.is_hidden(left.sort()) {
            if has_pair(self.expanded.as_slice(), &left, &right) {
                return Ok(());
            }
            return self.expand(origin, left, right);
        }
        self.judge_visible(origin, left, right)
    }

    // A visible pair of normal forms that are not the same is passed over, or is a difference.
    fn judge_visible(&self, origin: Option<Origin>, left: Term, right: Term) -> Result<(), Halt>
        requires room { HasRoom self.now.theory.now (progress self.now) }
        requires origins { HaveOrigins self.now.expanded.items self.now.queue.items }
        requires origin { HasOrigin (length self.now.expanded.items) origin }
        requires apart { is_same left right ≡ false }
        requires visible { is_hidden self.now.theory.now (sort_of left) ≡ false }
        ensures { GoesOn self.now.theory.now
            (conclusion_of_pair self.now.theory.now (progress self.now)
            (entries_by self.now.theory.now (led_to self.now.theory.now self.now.expanded.items)
            origin) left right) (work (progress self.now) + 1) (progress self.now) result }
    {
        if !are_two_cases(self.theory, &left, &right) {
            return Ok(());
        }
        let entries = self.entries(origin)?;
        Err(Halt::Found(Refuted::Differs {
            entries,
            left,
            right,
        }))
    }

    // A pair is expanded, where a Derive is left.
    fn expand(&mut self, origin: Option<Origin>, left: Term, right: Term) -> Result<(), Halt>
        requires room { HasRoomFor self.old.theory.now (progress self.old) left right }
        requires origins { HaveOrigins self.old.expanded.items self.old.queue.items }
        requires origin { HasOrigin (length self.old.expanded.items) origin }
        ensures goes { GoesOn self.old.theory.now
            (conclusion_of_expanding self.old.theory.now (progress self.old)
            (entries_by self.old.theory.now (led_to self.old.theory.now self.old.expanded.items)
            origin) left right) (work (progress self.old) + 1) (progress self.new) result }
        ensures origins { OnOk result
            (HaveOrigins self.new.expanded.items self.new.queue.items) }
        ensures theory { self.new.theory ≡ self.old.theory }
        ensures reducer { self.new.reducer ≡ self.old.reducer }
        ensures rewrites { self.new.rewrites ≡ self.old.rewrites }
        ensures derives { self.new.derives ≤ self.old.derives }
    {
        self.theory.known();
        if self.derives == 0 {
            return Err(Halt::Found(Refuted::Spent));
        }
        self.derives -= 1;
        let parent = self.expanded.len();
        match push_children(
            self.alloc,
            self.theory,
            parent,
            &left,
            &right,
            &mut self.queue,
        ) {
            Ok(()) => {}
            Err(fault) => return Err(Halt::of_term(fault)),
        }
        self.expanded.push(Descendant {
            left,
            right,
            origin,
        })?;
        Ok(())
    }

    // The entries that led to a pair, from the goal on.
    fn entries(&self, origin: Option<Origin>) -> Result<Vec<Entry>, AllocError>
        requires origins { HaveOrigins self.now.expanded.items self.now.queue.items }
        requires origin { HasOrigin (length self.now.expanded.items) origin }
        ensures { IfOk result (λ v. plain_entries v.items ≡ entries_by self.now.theory.now
            (led_to self.now.theory.now self.now.expanded.items) origin) }
    {
        let mut entries = Vec::new(self.alloc);
        let mut last = origin;
        while let Some(origin) = last {
            entries.push(self.entry(origin)?)?;
            last = self.expanded[origin.parent].origin;
        }
        entries.reverse();
        Ok(entries)
    }

    // The last of them, with variables for its parameters.
    fn entry(&self, origin: Origin) -> Result<Entry, AllocError>
        requires { (count : ℕ) × IsFrom count origin }
        ensures { IfOk result (λ e. plain_entry e ≡ entry_of self.now.theory.now origin) }
    {
        self.theory.known();
        let params = match self.theory.parameter_sorts(origin.derivative) {
            Some(sorts) => variables_from(self.alloc, origin.first, sorts)?,
            None => Vec::new(self.alloc),
        };
        Ok(Entry {
            derivative: origin.derivative,
            params,
        })
    }
}

// Whether one of the pairs has these sides, in this order.
fn has_pair(pairs: &[Descendant], left: &Term, right: &Term) -> bool
    ensures { result ≡ list_any (is_pair left.now right.now) (map pair_of pairs.now) }
{
    for pair in pairs {
        if left.same(&pair.left) && right.same(&pair.right) {
            return true;
        }
    }
    false
}
