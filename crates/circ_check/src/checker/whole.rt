//! A proof that is taken whole.
ghost use Rattle.std.specs.Prelude.{◌≡◌, ◌<◌, ◌++◌, [], List, map, IfOk, OnOk};
ghost use Rattle.circ_term.specs.Growing.{Grows};
ghost use Rattle.circ_theory.specs.Theory.{Theory as PlainTheory};
ghost use Rattle.circ_proof.specs.Proof.{Proof as PlainProof, ProofFor};
ghost use Rattle.circ_proof.specs.Parts.{Part, Head, parts_of};
ghost use Rattle.circ_proof.specs.Parts.{certificate_parts, step_parts, block_parts};
ghost use Rattle.circ_proof.specs.PlainProof.{plain_proof, plain_steps, plain_certificates};
ghost use Rattle.circ_proof.specs.PlainProof.{plain_block};
ghost use Rattle.circ_entering.specs.Lines.{lines_at, AreLinesAt, LinesStay};
ghost use Rattle.circ_check.specs.Deciding.{plain_list};
ghost use Rattle.circ_check.specs.Watching.{Stands, IsSound, Took, KnowsTheory, HasLeft};
ghost use Rattle.circ_check.specs.Watching.{derived_of};

use crate::checker::Checker;
use circ_entering::{NamedLines, enter_terms};
use circ_proof::{Proof, Step};
use circ_rules::Due;
use circ_special::Gamma;
use circ_steps::{derivatives, equations};
use circ_table::Table;
use circ_theory::Goal;
use std::alloc::AllocError;
use std::mem::replace;

impl Checker<'_> {
    /// Takes all parts of a proof. Costs a look-up for each node of the table's terms, counted as
    /// trees, and what the parts cost.
    pub(crate) fn take_proof(&mut self, proof: &Proof) -> Result<(), AllocError>
        requires fits { ProofFor self.old.theory.now (plain_proof proof.now) }
        requires start { Stands self.old.theory.now [] self.old }
        ensures { OnOk result
            (Stands self.old.theory.now (parts_of (plain_proof proof.now)) self.new) }
    {
        self.theory.known();
        self.begin_proof(proof)?;
        self.take_behind_head(proof)?;
        Ok(())
    }

    /// The same by its table's lines. Costs two look-ups at most for each of them that is named and
    /// for each argument in it, however large the terms are, and what the parts cost.
    pub(crate) fn take_by_table(&mut self, proof: &Proof, table: &Table) -> Result<(), AllocError>
        requires table { table.now ≡ proof.now.table.items }
        requires fits { ProofFor self.old.theory.now (plain_proof proof.now) }
        requires start { Stands self.old.theory.now [] self.old }
        ensures { OnOk result
            (Stands self.old.theory.now (parts_of (plain_proof proof.now)) self.new) }
    {
        self.theory.known();
        let shared = table.share()?;
        let gamma = self.special_set(proof)?;
        self.begin(shared, gamma)?;
        self.take_behind_head(proof)?;
        Ok(())
    }

    /// The goals that were derived, which are no longer kept.
    pub(crate) fn take_derived(&mut self) -> Vec<Vec<Goal>>
        ensures { map plain_list result.items ≡ derived_of self.old }
    {
        let none = Vec::new(self.alloc);
        replace(&mut self.derived, none)
    }

    // The table and the special set.
    fn begin_proof(&mut self, proof: &Proof) -> Result<(), AllocError>
        requires fits { ProofFor self.old.theory.now (plain_proof proof.now) }
        requires sound { IsSound self.old.theory.now self.old }
        ensures { OnOk result (Took self.old.theory.now
            (Head proof.now.table.items proof.now.gamma) self.old self.new) }
    {
        let gamma = self.special_set(proof)?;
        self.enter_proof(proof)?;
        self.gamma = gamma;
        self.due = Due::all();
        self.base = self.nodes.len();
        self.is_begun = true;
        Ok(())
    }

    // The special set once more.
    fn special_set(&self, proof: &Proof) -> Result<Gamma, AllocError>
        requires { ProofFor self.now.theory.now (plain_proof proof.now) }
        ensures { IfOk result (λ g. g ≡ proof.now.gamma) }
    {
        let places = Vec::from_slice(self.alloc, proof.gamma.places())?;
        match Gamma::of(self.theory, places) {
            Some(gamma) => Ok(gamma),
            None => unreachable!(),
        }
    }

    // The theory and the table get numbers.
    fn enter_proof(&mut self, proof: &Proof) -> Result<(), AllocError>
        ensures grows { Grows self.old.nodes self.new.nodes }
        ensures knows { OnOk result (KnowsTheory self.old.theory.now self.new.nodes
            self.new.equations.items self.new.derivatives.items) }
        ensures lines { OnOk result (AreLinesAt self.new.nodes self.new.lines) }
        ensures stay { OnOk result (LinesStay self.new.nodes self.new.lines) }
        ensures table { OnOk result (lines_at self.new.nodes self.new.lines
            ≡ proof.now.table.items) }
        ensures others { self.new ≡ record self.old {
          nodes = self.new.nodes;
          equations = self.new.equations;
          derivatives = self.new.derivatives;
          lines = self.new.lines;
        } }
    {
        self.equations = equations(self.alloc, self.theory, &mut self.nodes)?;
        self.derivatives = derivatives(self.alloc, self.theory, &mut self.nodes)?;
        let numbers = enter_terms(self.alloc, &mut self.nodes, proof.table.as_slice())?;
        self.lines = NamedLines::of_numbers(self.alloc, numbers);
        Ok(())
    }

    // The certificates and the blocks.
    fn take_behind_head(&mut self, proof: &Proof) -> Result<(), AllocError>
        requires { (th : PlainTheory) × HasLeft th (plain_proof proof.now)
            (certificate_parts (plain_certificates proof.now.certificates.items)
            ++ block_parts (map plain_block proof.now.blocks.items)) self.old }
        ensures { OnOk result ((th : PlainTheory) → HasLeft th (plain_proof proof.now)
            (certificate_parts (plain_certificates proof.now.certificates.items)
            ++ block_parts (map plain_block proof.now.blocks.items)) self.old
            → Stands th (parts_of (plain_proof proof.now)) self.new) }
    {
        self.take_certificates(proof)?;
        self.take_blocks(proof)?;
        Ok(())
    }

    fn take_certificates(&mut self, proof: &Proof) -> Result<(), AllocError>
        requires { (th : PlainTheory) × HasLeft th (plain_proof proof.now)
            (certificate_parts (plain_certificates proof.now.certificates.items)
            ++ block_parts (map plain_block proof.now.blocks.items)) self.old }
        ensures { OnOk result ((th : PlainTheory) → HasLeft th (plain_proof proof.now)
            (certificate_parts (plain_certificates proof.now.certificates.items)
            ++ block_parts (map plain_block proof.now.blocks.items)) self.old
            → HasLeft th (plain_proof proof.now)
            (block_parts (map plain_block proof.now.blocks.items)) self.new) }
    {
        for links in &proof.certificates {
            self.certify(links.as_slice())?;
        }
        Ok(())
    }

    fn take_blocks(&mut self, proof: &Proof) -> Result<(), AllocError>
        requires { (th : PlainTheory) × HasLeft th (plain_proof proof.now)
            (block_parts (map plain_block proof.now.blocks.items)) self.old }
        ensures { OnOk result ((th : PlainTheory) → HasLeft th (plain_proof proof.now)
            (block_parts (map plain_block proof.now.blocks.items)) self.old
            → HasLeft th (plain_proof proof.now) [] self.new) }
    {
        for block in &proof.blocks {
            self.begin_block(block.names.as_slice())?;
            self.take_steps(block.steps.as_slice())?;
        }
        Ok(())
    }

    fn take_steps(&mut self, steps: &[Step]) -> Result<(), AllocError>
        requires { (th : PlainTheory) × (p : PlainProof) × (ys : List Part) × HasLeft th p
            (step_parts (plain_steps steps.now) ++ ys) self.old }
        ensures { OnOk result ((th : PlainTheory) (p : PlainProof) (ys : List Part)
            → HasLeft th p (step_parts (plain_steps steps.now) ++ ys) self.old
            → HasLeft th p ys self.new) }
    {
        for step in steps {
            self.take_step(step)?;
        }
        Ok(())
    }
}
