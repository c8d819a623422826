//! A checker that takes the parts of a proof one after the other.
ghost use Rattle.std.specs.Prelude.{◌≡◌, ◌<◌, ◌+◌, ◌^◌, ◌++◌, ◌∷◌, [], ℕ, List, Some, None, true, false};
ghost use Rattle.std.specs.Prelude.{map, take};
ghost use Rattle.std.specs.Prelude.{OnOk, IsErr};
ghost use Rattle.std.specs.Result.{OnErr};
ghost use Rattle.circ_term.specs.Growing.{Grows};
ghost use Rattle.circ_theory.specs.Theory.{Theory};
ghost use Rattle.circ_theory.specs.Goal.{Goal as PlainGoal};
ghost use Rattle.circ_proof.specs.Proof.{Proof, ProofFor};
ghost use Rattle.circ_proof.specs.Parts.{Part as PlainPart, parts_of};
ghost use Rattle.circ_proof.specs.Parts.{Head, Certificate, Goals, Step as StepPart};
ghost use Rattle.circ_proof.specs.Accepted.{Derives, FirstFail};
ghost use Rattle.circ_theory.specs.Rewriting.{named};
ghost use Rattle.circ_proof.specs.Plain.{plain_links};
ghost use Rattle.circ_proof.specs.Link.{resolved_links};
ghost use Rattle.circ_proof.specs.Rules.{map_step};
ghost use Rattle.circ_proof.specs.PlainProof.{plain_step, plain_names};
ghost use Rattle.circ_table.specs.Part.{plain_part};
ghost use Rattle.circ_entering.specs.Lines.{numbered_at, lines_at, AreLinesAt, LinesStay};
ghost use Rattle.circ_check.specs.Deciding.{plain_list, Finds, FoundBehave, DerivedBehave};
ghost use Rattle.circ_check.specs.Checking.{with_derived, goals_in};
ghost use Rattle.circ_check.specs.Ready.{IsPartReady};
ghost use Rattle.circ_check.specs.Watching.{failed_of, derived_of, checking_of, IsSpent};
ghost use Rattle.circ_check.specs.Watching.{Stands, FitsNext, IsSound, IsAsBefore};
ghost use Rattle.circ_check.specs.Watching.{IsBehindHead, KnowsTheory, EndsBlock, Took, Notes};

mod whole;

use crate::making::made_by;
use crate::naming::put_goals;
use crate::tally::Tally;
use circ_certificates::certify_next;
use circ_entering::NamedLines;
use circ_nodes::{Nodes, Terms};
use circ_proof::{GoalNames, Link, Step};
use circ_rules::Due;
use circ_shared::Pattern;
use circ_special::Gamma;
use circ_steps::{Rules, SharedDerivative, SharedState, derivatives, equations};
use circ_table::{Part, Table};
use circ_theory::{Goal, Theory};
use std::alloc::{AllocError, Global};
use std::collections::VecDeque;

/// A checker that takes the parts of a proof one after the other. After want of memory it takes no
/// more.
#[derive(Drop)]
pub struct Checker<'a> {
    alloc: Global,
    theory: &'a Theory,
    // The terms that have numbers, those of the block under way last.
    nodes: Nodes,
    // The theory's equations and derivatives, and the table's lines, by number.
    equations: Vec<Pattern>,
    derivatives: Vec<SharedDerivative>,
    lines: NamedLines,
    gamma: Gamma,
    due: Due,
    state: SharedState,
    // How many of the hypotheses are goals of earlier blocks.
    earlier: usize,
    // The goals of the block under way.
    own: Vec<Pattern>,
    // How many terms there were when its steps began.
    base: usize,
    // Those terms of the block that were built.
    terms: Terms,
    // The head was taken.
    is_begun: bool,
    // A step has failed.
    is_stopped: bool,
    // Memory ran out.
    is_spent: bool,
    tally: Tally,
    derived: Vec<Vec<Goal>>,
}

impl<'a> Checker<'a> {
    /// Nothing was taken.
    pub fn new(alloc: Global, theory: &'a Theory) -> Checker<'a>
        ensures { Stands theory.now [] result }
    {
        Checker {
            alloc,
            theory,
            nodes: Nodes::new(alloc),
            equations: Vec::new(alloc),
            derivatives: Vec::new(alloc),
            lines: NamedLines::empty(alloc),
            gamma: Gamma::empty(alloc),
            due: Due::all(),
            state: no_state(alloc),
            earlier: 0,
            own: Vec::new(alloc),
            base: 0,
            terms: Terms::new(alloc),
            is_begun: false,
            is_stopped: false,
            is_spent: false,
            tally: Tally::new(),
            derived: Vec::new(alloc),
        }
    }

    /// The next part of the proof.
    pub fn take(&mut self, part: Part) -> Result<(), AllocError>
        requires { (IsSpent self.old → ⊥) → FitsNext (plain_part part) self.old }
        ensures taken { OnOk result ((th : Theory) (xs : List PlainPart) →
            Stands th xs self.old → Stands th (xs ++ plain_part part ∷ []) self.new) }
        ensures kept { OnErr result (IsAsBefore self.old self.new) }
        ensures spent { OnErr result (IsSpent self.new) }
        ensures again { IsSpent self.old → IsErr result }
    {
        if self.is_spent {
            return Err(AllocError);
        }
        self.theory.known();
        match self.take_part(part) {
            Ok(()) => Ok(()),
            Err(_) => {
                self.is_spent = true;
                Err(AllocError)
            }
        }
    }

    /// The first certificate or step that failed so far. Certificates are counted from 1, and the
    /// steps of all blocks follow in one count.
    pub fn failed(&self) -> Option<u64>
        ensures same { result ≡ failed_of self.now }
        ensures exact { (th : Theory) (p : Proof) → ProofFor th p →
            Stands th (parts_of p) self.now → Finds th p result }
        ensures early { (th : Theory) (p : Proof) (xs ys : List PlainPart) (n : ℕ) →
            ProofFor th p → parts_of p ≡ xs ++ ys → Stands th xs self.now →
            result ≡ Some n → FirstFail th p n }
        ensures sound { (th : Theory) (p : Proof) → ProofFor th p →
            Stands th (parts_of p) self.now → FoundBehave th p result }
    {
        self.theory.known();
        self.tally.failed
    }

    /// For each block that was begun, the goals that its Derive steps appended to the hypotheses,
    /// up to the first step that failed.
    pub fn derived(&self) -> &[Vec<Goal>]
        ensures same { map plain_list result.now ≡ derived_of self.now }
        ensures exact { (th : Theory) (p : Proof) → ProofFor th p →
            Stands th (parts_of p) self.now → failed_of self.now ≡ None →
            Derives th p (map plain_list result.now) }
        ensures sound { (th : Theory) (p : Proof) → ProofFor th p →
            Stands th (parts_of p) self.now → failed_of self.now ≡ None →
            DerivedBehave th (map plain_list result.now) }
    {
        self.theory.known();
        self.derived.as_slice()
    }

    fn take_part(&mut self, part: Part) -> Result<(), AllocError>
        requires ready { IsPartReady self.old.theory.now (checking_of self.old) (plain_part part) }
        requires behind { IsBehindHead (plain_part part) self.old }
        requires sound { IsSound self.old.theory.now self.old }
        ensures took { OnOk result (Took self.old.theory.now (plain_part part) self.old self.new) }
        ensures kept { OnErr result (IsAsBefore self.old self.new) }
    {
        match part {
            Part::Head { table, gamma } => self.begin(table, gamma),
            Part::Certificate { links } => self.certify(links.as_slice()),
            Part::Goals { names, .. } => self.begin_block(names.as_slice()),
            Part::Step { step } => self.take_step(&step),
        }
    }

    // The table and the special set.
    fn begin(&mut self, table: Table, gamma: Gamma) -> Result<(), AllocError>
        requires { IsSound self.old.theory.now self.old }
        ensures took { OnOk result (Took self.old.theory.now (Head table gamma)
            self.old self.new) }
        ensures kept { OnErr result (IsAsBefore self.old self.new) }
    {
        self.enter(table)?;
        self.gamma = gamma;
        self.due = Due::all();
        self.base = self.nodes.len();
        self.is_begun = true;
        Ok(())
    }

    // The theory gets numbers, and the first line of the table.
    fn enter(&mut self, table: Table) -> Result<(), AllocError>
        ensures grows { Grows self.old.nodes self.new.nodes }
        ensures knows { OnOk result (KnowsTheory self.old.theory.now self.new.nodes
            self.new.equations.items self.new.derivatives.items) }
        ensures lines { OnOk result (AreLinesAt self.new.nodes self.new.lines) }
        ensures stay { OnOk result (LinesStay self.new.nodes self.new.lines) }
        ensures table { OnOk result (lines_at self.new.nodes self.new.lines ≡ table) }
        ensures others { self.new ≡ record self.old {
          nodes = self.new.nodes;
          equations = self.new.equations;
          derivatives = self.new.derivatives;
          lines = self.new.lines;
        } }
    {
        self.equations = equations(self.alloc, self.theory, &mut self.nodes)?;
        self.derivatives = derivatives(self.alloc, self.theory, &mut self.nodes)?;
        self.lines = NamedLines::of_table(self.alloc, &mut self.nodes, table)?;
        Ok(())
    }

    // The certificate that is due next.
    fn certify(&mut self, links: &[Link]) -> Result<(), AllocError>
        requires ready { IsPartReady self.old.theory.now (checking_of self.old)
            (Certificate (plain_links links.now)) }
        requires begun { self.old.is_begun ≡ true }
        requires sound { IsSound self.old.theory.now self.old }
        ensures took { OnOk result (Took self.old.theory.now
            (Certificate (plain_links links.now)) self.old self.new) }
        ensures kept { OnErr result (IsAsBefore self.old self.new) }
    {
        self.lines.enter_links(&mut self.nodes, links)?;
        self.certify_entered(links)
    }

    // The same where the lines are entered that the links name.
    fn certify_entered(&mut self, links: &[Link]) -> Result<(), AllocError>
        requires ready { IsPartReady self.old.theory.now (checking_of self.old)
            (Certificate (plain_links links.now)) }
        requires begun { self.old.is_begun ≡ true }
        requires sound { IsSound self.old.theory.now self.old }
        requires named { resolved_links (numbered_at self.old.nodes self.old.lines)
            (plain_links links.now)
            ≡ resolved_links (lines_at self.old.nodes self.old.lines) (plain_links links.now) }
        ensures took { OnOk result (Took self.old.theory.now
            (Certificate (plain_links links.now)) self.old self.new) }
        ensures kept { OnErr result (IsAsBefore self.old self.new) }
    {
        let rules = Rules {
            alloc: self.alloc,
            theory: self.theory,
            equations: self.equations.as_slice(),
            derivatives: self.derivatives.as_slice(),
            gamma: &self.gamma,
            table: self.lines.numbers(),
        };
        let holds = certify_next(&rules, &mut self.nodes, &mut self.due, links)?;
        self.tally = self.tally.counted(holds);
        Ok(())
    }

    // A block with the goals of these names. After a step that failed it is begun in name alone.
    fn begin_block(&mut self, names: &[GoalNames]) -> Result<(), AllocError>
        requires begun { self.old.is_begun ≡ true }
        requires names { (goals : List PlainGoal) × IsPartReady self.old.theory.now
            (checking_of self.old) (Goals goals (map plain_names names.now)) }
        requires sound { IsSound self.old.theory.now self.old }
        ensures took { OnOk result ((goals : List PlainGoal) → IsPartReady self.old.theory.now
            (checking_of self.old) (Goals goals (map plain_names names.now))
            → Took self.old.theory.now (Goals goals (map plain_names names.now))
            self.old self.new) }
        ensures kept { OnErr result (IsAsBefore self.old self.new) }
    {
        if self.is_stopped {
            return begin_list(self.alloc, &mut self.derived);
        }
        self.end_block()?;
        self.lines.begin_block(&mut self.nodes, names)?;
        put_goals(
            self.alloc,
            &mut self.nodes,
            self.lines.numbers(),
            names,
            &mut self.state.goals,
            &mut self.own,
        )?;
        self.base = self.nodes.len();
        begin_list(self.alloc, &mut self.derived)
    }

    // The block's own goals take the place of what it derived, and the terms of its steps go.
    fn end_block(&mut self) -> Result<(), AllocError>
        requires { IsSound self.old.theory.now self.old }
        ensures ended { OnOk result (EndsBlock self.old self.new) }
        ensures kept { OnErr result (IsAsBefore self.old self.new) }
    {
        self.state.cut(&mut self.nodes, self.base, self.earlier);
        self.terms = Terms::new(self.alloc);
        self.state.hyps.append(&mut self.own)?;
        self.earlier = self.state.hyps.len();
        Ok(())
    }

    fn take_step(&mut self, step: &Step) -> Result<(), AllocError>
        requires ready { IsPartReady self.old.theory.now (checking_of self.old)
            (StepPart (plain_step step.now)) }
        requires begun { self.old.is_begun ≡ true }
        requires sound { IsSound self.old.theory.now self.old }
        ensures took { OnOk result (Took self.old.theory.now
            (StepPart (plain_step step.now)) self.old self.new) }
        ensures kept { OnErr result (IsAsBefore self.old self.new) }
    {
        if self.is_stopped {
            self.tally = self.tally.with_one();
            return Ok(());
        }
        self.advance(step)
    }

    // The step, where none has failed.
    fn advance(&mut self, step: &Step) -> Result<(), AllocError>
        requires going { self.old.is_stopped ≡ false }
        requires ready { IsPartReady self.old.theory.now (checking_of self.old)
            (StepPart (plain_step step.now)) }
        requires begun { self.old.is_begun ≡ true }
        requires sound { IsSound self.old.theory.now self.old }
        ensures took { OnOk result (Took self.old.theory.now
            (StepPart (plain_step step.now)) self.old self.new) }
        ensures kept { OnErr result (IsAsBefore self.old self.new) }
    {
        self.lines.enter_step(&mut self.nodes, step)?;
        self.advance_entered(step)
    }

    // The same where the lines are entered that the step names.
    fn advance_entered(&mut self, step: &Step) -> Result<(), AllocError>
        requires going { self.old.is_stopped ≡ false }
        requires ready { IsPartReady self.old.theory.now (checking_of self.old)
            (StepPart (plain_step step.now)) }
        requires begun { self.old.is_begun ≡ true }
        requires sound { IsSound self.old.theory.now self.old }
        requires named { map_step (named (numbered_at self.old.nodes self.old.lines))
            (plain_step step.now)
            ≡ map_step (named (lines_at self.old.nodes self.old.lines)) (plain_step step.now) }
        ensures took { OnOk result (Took self.old.theory.now
            (StepPart (plain_step step.now)) self.old self.new) }
        ensures kept { OnErr result (IsAsBefore self.old self.new) }
    {
        let made = made_by(
            self.alloc,
            &self.nodes,
            &mut self.terms,
            step,
            &self.state.goals,
        )?;
        let rules = Rules {
            alloc: self.alloc,
            theory: self.theory,
            equations: self.equations.as_slice(),
            derivatives: self.derivatives.as_slice(),
            gamma: &self.gamma,
            table: self.lines.numbers(),
        };
        let holds = rules.apply(&mut self.nodes, &mut self.state, step)?;
        self.note_step(holds, made)
    }

    // A step was tried, which made this goal a hypothesis if it holds.
    fn note_step(&mut self, holds: bool, made: Option<Goal>) -> Result<(), AllocError>
        requires { self.old.tally.count + 1 < 2 ^ 64 }
        ensures noted { OnOk result (Notes holds (goals_in made) self.old self.new) }
        ensures kept { OnErr result (IsAsBefore self.old self.new) }
    {
        if !holds {
            self.is_stopped = true;
            self.tally = self.tally.with_failure();
            return Ok(());
        }
        add_last(&mut self.derived, made)?;
        self.tally = self.tally.with_one();
        Ok(())
    }
}

// Nothing is taken as proved, and nothing is to be proved.
fn no_state(alloc: Global) -> SharedState
    ensures hyps { result.hyps.items ≡ [] }
    ensures goals { result.goals.items ≡ [] }
{
    SharedState {
        hyps: Vec::new(alloc),
        goals: VecDeque::new(alloc),
    }
}

// One more block has derived nothing.
fn begin_list(alloc: Global, lists: &mut Vec<Vec<Goal>>) -> Result<(), AllocError>
    ensures begun { OnOk result (map plain_list lists.new.items ≡
        map plain_list lists.old.items ++ [] ∷ []) }
    ensures kept { OnErr result (lists.new.items ≡ lists.old.items) }
{
    lists.push(Vec::new(alloc))?;
    Ok(())
}

// The goal goes last in the last list.
fn add_last(lists: &mut Vec<Vec<Goal>>, made: Option<Goal>) -> Result<(), AllocError>
    ensures added { OnOk result (map plain_list lists.new.items ≡
        with_derived (map plain_list lists.old.items) (goals_in made)) }
    ensures kept { OnErr result (map plain_list lists.new.items ≡
        map plain_list lists.old.items) }
{
    let Some(goal) = made else {
        return Ok(());
    };
    if let Some(list) = lists.last_mut() {
        list.push(goal)?;
    }
    Ok(())
}
