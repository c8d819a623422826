//! The lines of a proof in their order: the part under way, and the parts that are whole.
ghost use Rattle.std.specs.Prelude.{◌≡◌, ◌++◌, ℕ, [], true, false, List, None, IfOk, OnOk};
ghost use Rattle.circ_term.specs.Tree.{Tree};
ghost use Rattle.circ_special.specs.Special.{IsSet};
ghost use Rattle.circ_proof.specs.Plain.{plain_chain};
ghost use Rattle.circ_line.specs.Line.{head_line, table_line, place_line, TableLine};
ghost use Rattle.circ_line.specs.Line.{certificate_line, block_line, end_line};
ghost use Rattle.circ_grammar.specs.Machine.{empty};
ghost use Rattle.circ_grammar.specs.Now.{Begin, Ended, is_front, is_block, next_goal};
ghost use Rattle.circ_grammar.specs.Now.{next_given};
ghost use Rattle.circ_proof_text.specs.Parts.{Head};
ghost use Rattle.circ_file.specs.View.{now_of, queue_of, plain_part, shown_front_parts};
ghost use Rattle.circ_file.specs.View.{IsMachineOf, Moves, Pops};
ghost use Rattle.circ_file.specs.declared.machine.Mode.TheVariants.{Opened};

use crate::splits::OpenSplit;
use circ_proof::{Chain, GoalNames, Link};
use circ_special::{Gamma, Place};
use circ_table::{Part, Table};
use circ_theory::{Goal, Theory};
use std::alloc::{AllocError, Global};
use std::collections::VecDeque;
use std::mem;

/// What the last line belongs to.
#[derive(Clone, Copy)]
pub(crate) enum Mode {
    Begin,
    Tabling,
    Placing,
    Certifying,
    Opened,
    Stepping,
    Simplifying,
    Reducing,
    Joining,
    Closed,
    Ended,
}

/// The part under way, and the parts that are whole.
#[derive(Drop)]
pub(crate) struct Machine {
    pub(crate) alloc: Global,
    pub(crate) mode: Mode,
    /// The places so far.
    pub(crate) places: Vec<Place>,
    /// The links of a certificate.
    pub(crate) links: Vec<Link>,
    /// The goals of a block.
    pub(crate) goals: Vec<Goal>,
    /// The numbers of their sides.
    pub(crate) names: Vec<GoalNames>,
    /// The links of a Simplify, or of the innermost reason.
    pub(crate) chain: Chain,
    /// The splits that wait for reasons, the innermost last.
    pub(crate) splits: Vec<OpenSplit>,
    /// What the conditions of links that are open belong to, in `Mode::Joining`.
    pub(crate) base: Mode,
    /// The chains of those that the innermost is inside, the outermost first.
    pub(crate) conds: Vec<Chain>,
    /// The chain of the innermost.
    pub(crate) cond: Chain,
    pub(crate) queue: VecDeque<Part>,
}

impl Machine {
    /// No line was read.
    pub(crate) fn new(alloc: Global) -> Machine
        ensures begin { now_of result ≡ Begin }
        ensures queue { queue_of result ≡ [] }
        ensures places { result.places.items ≡ [] }
        ensures kept { (ts : List Tree) → IsMachineOf ts result }
    {
        Machine {
            alloc,
            mode: Mode::Begin,
            places: Vec::new(alloc),
            links: Vec::new(alloc),
            goals: Vec::new(alloc),
            names: Vec::new(alloc),
            chain: empty_chain(alloc),
            splits: Vec::new(alloc),
            base: Mode::Begin,
            conds: Vec::new(alloc),
            cond: empty_chain(alloc),
            queue: VecDeque::new(alloc),
        }
    }

    pub(crate) fn on_head(&mut self) -> bool
        ensures { (ts : List Tree) (v : ℕ) → IsMachineOf ts self.old →
            Moves result ts self.old (head_line v) self.new }
    {
        match self.mode {
            Mode::Begin => {
                self.mode = Mode::Tabling;
                true
            }
            _ => false,
        }
    }

    pub(crate) fn on_table(&mut self) -> bool
        ensures { (ts : List Tree) (l : TableLine) → IsMachineOf ts self.old →
            Moves result ts self.old (table_line l) self.new }
    {
        matches!(self.mode, Mode::Tabling)
    }

    pub(crate) fn on_place(&mut self, place: Place) -> Result<bool, AllocError>
        ensures { IfOk result (λ taken. (ts : List Tree) → IsMachineOf ts self.old →
            Moves taken ts self.old (place_line place.op place.arg) self.new) }
    {
        match self.mode {
            Mode::Tabling | Mode::Placing => {
                self.places.push(place)?;
                self.mode = Mode::Placing;
                Ok(true)
            }
            _ => Ok(false),
        }
    }

    /// A certificate begins.
    pub(crate) fn begin_certificate(
        &mut self,
        theory: &Theory,
        table: Table,
    ) -> Result<(), AllocError>
        requires front { is_front (now_of self.old) ≡ true }
        requires kept { IsMachineOf table self.old }
        requires set { IsSet theory.now self.old.places.items }
        ensures { OnOk result (Moves true table self.old certificate_line self.new) }
    {
        self.end_front(theory, table)?;
        self.links = Vec::new(self.alloc);
        self.mode = Mode::Certifying;
        Ok(())
    }

    /// A block begins.
    pub(crate) fn begin_block(&mut self, theory: &Theory, table: Table) -> Result<(), AllocError>
        requires block { is_block (now_of self.old) ≡ true }
        requires kept { IsMachineOf table self.old }
        requires set { IsSet theory.now self.old.places.items }
        ensures { OnOk result (Moves true table self.old block_line self.new) }
    {
        self.end_front(theory, table)?;
        self.goals = Vec::new(self.alloc);
        self.names = Vec::new(self.alloc);
        self.mode = Mode::Opened;
        Ok(())
    }

    pub(crate) fn on_end(&mut self) -> bool
        ensures { (ts : List Tree) → IsMachineOf ts self.old →
            Moves result ts self.old end_line self.new }
    {
        match self.mode {
            Mode::Closed => {
                self.mode = Mode::Ended;
                true
            }
            _ => false,
        }
    }

    /// Whether a block began, and no step of it.
    pub(crate) fn is_opened(&self) -> bool
        ensures yes { result ≡ true → self.now.mode ≡ Opened }
        ensures no { (a b : ℕ) → result ≡ false → next_goal (now_of self.now) a b ≡ None }
        ensures given { (p : ℕ × ℕ) → result ≡ false → next_given (now_of self.now) p ≡ None }
    {
        matches!(self.mode, Mode::Opened)
    }

    /// Whether the last line was the proof's.
    pub(crate) fn is_ended(&self) -> bool
        ensures yes { result ≡ true → now_of self.now ≡ Ended }
        ensures no { result ≡ false → now_of self.now ≡ Ended → ⊥ }
    {
        matches!(self.mode, Mode::Ended)
    }

    /// The part that has waited longest.
    pub(crate) fn pop(&mut self) -> Option<Part>
        ensures popped { Pops result (queue_of self.old) (queue_of self.new) }
        ensures next { now_of self.new ≡ now_of self.old }
        ensures places { self.new.places ≡ self.old.places }
        ensures kept { (ts : List Tree) → IsMachineOf ts self.old → IsMachineOf ts self.new }
    {
        self.queue.pop_front()
    }

    /// Whether a certificate or the first block may begin.
    pub(crate) fn is_front(&self) -> bool
        ensures { result ≡ is_front (now_of self.now) }
    {
        matches!(self.mode, Mode::Tabling | Mode::Placing | Mode::Certifying)
    }

    /// Whether a block may begin.
    pub(crate) fn is_block(&self) -> bool
        ensures { result ≡ is_block (now_of self.now) }
    {
        match self.mode {
            Mode::Closed => true,
            _ => self.is_front(),
        }
    }

    // The part that ends where a certificate or the first block begins goes to the queue.
    fn end_front(&mut self, theory: &Theory, table: Table) -> Result<(), AllocError>
        requires kept { IsMachineOf table self.old }
        requires set { IsSet theory.now self.old.places.items }
        ensures queue { OnOk result (queue_of self.new ≡
            queue_of self.old ++ shown_front_parts table (now_of self.old)) }
        ensures places { OnOk result (self.new.places.items ≡ self.old.places.items) }
    {
        match self.mode {
            Mode::Tabling | Mode::Placing => {
                let part = head(self.alloc, theory, table, self.places.as_slice())?;
                self.queue.push_back(part)?;
            }
            Mode::Certifying => {
                let links = mem::replace(&mut self.links, Vec::new(self.alloc));
                self.queue.push_back(Part::Certificate { links })?;
            }
            _ => {}
        }
        Ok(())
    }
}

pub(crate) fn empty_chain(alloc: Global) -> Chain
    ensures { plain_chain result ≡ empty }
{
    Chain {
        left: Vec::new(alloc),
        right: Vec::new(alloc),
    }
}

// The places are copied, since they are still asked for.
fn head(alloc: Global, theory: &Theory, table: Table, places: &[Place]) -> Result<Part, AllocError>
    requires { IsSet theory.now places.now }
    ensures { IfOk result (λ p. plain_part p ≡ Head table places.now) }
{
    let places = Vec::from_slice(alloc, places)?;
    match Gamma::of(theory, places) {
        Some(gamma) => Ok(Part::Head { table, gamma }),
        None => unreachable!(),
    }
}
