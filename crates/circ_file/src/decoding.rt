//! Proofs from bytes.
ghost use Rattle.std.specs.Prelude.{◌≡◌, [], map, IfOk};
ghost use Rattle.circ_proof.specs.Plain.{plain_links};
ghost use Rattle.circ_proof.specs.PlainProof.{plain_proof, plain_names, plain_step};
ghost use Rattle.circ_proof.specs.Proof.{Proof as PlainProof};
ghost use Rattle.circ_proof_text.specs.Parts.{nothing_gathered, gathered};
ghost use Rattle.circ_proof_text.specs.Parts.{gather, gather_all, end_block};
ghost use Rattle.circ_proof_text.specs.Parts.{Head, Certificate, Goals, Step as StepPart};
ghost use Rattle.circ_file.specs.View.{plain_part, queue_of};
ghost use Rattle.circ_file.specs.Feeding.{IsSound, Stands};
ghost use Rattle.circ_file.specs.Decoding.{gathered_of, Decodes, DecodesWithTable};

use crate::fault::FileFault;
use crate::reader::FileReader;
use circ_proof::{Block, GoalNames, Link, Proof, Step};
use circ_special::Gamma;
use circ_table::{Part, Table};
use circ_theory::{Goal, Theory};
use std::alloc::{AllocError, Global};
use std::mem;

/// The proof that the bytes are the text of, or the first line at fault.
pub fn decode(alloc: Global, theory: &Theory, bytes: &[u8]) -> Result<Proof, FileFault>
    ensures { Decodes theory.now bytes.now result }
{
    match decode_with_table(alloc, theory, bytes) {
        Ok((proof, _)) => Ok(proof),
        Err(fault) => Err(fault),
    }
}

/// The same with the proof's table by number, for what goes over its lines and not over its terms.
pub fn decode_with_table(
    alloc: Global,
    theory: &Theory,
    bytes: &[u8],
) -> Result<(Proof, Table), FileFault>
    ensures { DecodesWithTable theory.now bytes.now result }
{
    let mut reader = FileReader::new(alloc, theory);
    let decoded = decode_by(alloc, theory, &mut reader, bytes);
    drop(reader);
    decoded
}

// The proof that is read by a reader that was fed nothing.
fn decode_by(
    alloc: Global,
    theory: &Theory,
    reader: &mut FileReader,
    bytes: &[u8],
) -> Result<(Proof, Table), FileFault>
    requires sound { IsSound reader.old }
    requires lines { reader.old.lines ≡ 0 }
    requires stands { Stands theory.now [] [] reader.old }
    ensures { DecodesWithTable theory.now bytes.now result }
{
    if let Err(fault) = reader.feed(bytes) {
        return Err(fault);
    }
    if let Err(fault) = reader.end() {
        return Err(fault);
    }
    let version = reader.version();
    match gather(alloc, version, reader) {
        Ok(whole) => Ok(whole),
        Err(_) => Err(FileFault::Memory),
    }
}

// The proof of the version whose parts wait. The terms of its table are built last.
fn gather(alloc: Global, version: u8, reader: &mut FileReader) -> Result<(Proof, Table), AllocError>
    requires sound { IsSound reader.old }
    requires fault { reader.old.fault ≡ None }
    ensures proof { IfOk result (λ r. (q : PlainProof) →
        gather_all nothing_gathered (queue_of reader.old.reader.machine) ≡ gathered q →
        q.version ≡ version → plain_proof r.0 ≡ q) }
    ensures table { IfOk result (λ r. r.1 ≡ r.0.table.items) }
{
    let mut gathering = Gathering::new(alloc, version);
    while let Some(part) = reader.next() {
        gathering.take(part)?;
    }
    let terms = gathering.table.terms(alloc)?;
    gathering.proof.table = terms;
    Ok((gathering.proof, gathering.table))
}

// A proof so far, whose terms are not built yet, and its block that is not ended.
#[derive(Drop)]
struct Gathering {
    alloc: Global,
    table: Table,
    proof: Proof,
    goals: Vec<Goal>,
    names: Vec<GoalNames>,
    steps: Vec<Step>,
}

impl Gathering {
    fn new(alloc: Global, version: u8) -> Gathering
        ensures gathered { gathered_of result ≡ nothing_gathered }
        ensures version { result.proof.version ≡ version }
    {
        Gathering {
            alloc,
            table: Table::empty(alloc),
            proof: Proof {
                version,
                table: Vec::new(alloc),
                gamma: Gamma::empty(alloc),
                certificates: Vec::new(alloc),
                blocks: Vec::new(alloc),
            },
            goals: Vec::new(alloc),
            names: Vec::new(alloc),
            steps: Vec::new(alloc),
        }
    }

    // Takes the next part.
    fn take(&mut self, part: Part) -> Result<(), AllocError>
        ensures version { self.new.proof.version ≡ self.old.proof.version }
        ensures gathered { IfOk result (λ _. gathered_of self.new ≡
            gather (gathered_of self.old) (plain_part part)) }
    {
        match part {
            Part::Head { table, gamma } => {
                self.take_head(table, gamma);
                Ok(())
            }
            Part::Certificate { links } => self.take_certificate(links),
            Part::Goals { goals, names } => {
                self.take_goals(goals, names);
                Ok(())
            }
            Part::Step { step } => self.take_step(step),
        }
    }

    fn take_head(&mut self, table: Table, gamma: Gamma)
        ensures version { self.new.proof.version ≡ self.old.proof.version }
        ensures gathered { gathered_of self.new ≡ gather (gathered_of self.old) (Head table gamma) }
    {
        self.table = table;
        self.proof.gamma = gamma;
    }

    fn take_certificate(&mut self, links: Vec<Link>) -> Result<(), AllocError>
        ensures version { self.new.proof.version ≡ self.old.proof.version }
        ensures gathered { IfOk result (λ _. gathered_of self.new ≡
            gather (gathered_of self.old) (Certificate (plain_links links.items))) }
    {
        self.proof.certificates.push(links)?;
        Ok(())
    }

    // A block begins.
    fn take_goals(&mut self, goals: Vec<Goal>, names: Vec<GoalNames>)
        ensures version { self.new.proof.version ≡ self.old.proof.version }
        ensures gathered { gathered_of self.new ≡
            gather (gathered_of self.old) (Goals goals.items (map plain_names names.items)) }
    {
        self.goals = goals;
        self.names = names;
        self.steps = Vec::new(self.alloc);
    }

    fn take_step(&mut self, step: Step) -> Result<(), AllocError>
        ensures version { self.new.proof.version ≡ self.old.proof.version }
        ensures gathered { IfOk result (λ _. gathered_of self.new ≡
            gather (gathered_of self.old) (StepPart (plain_step step))) }
    {
        match step {
            Step::Done => self.end_block(),
            step => {
                self.steps.push(step)?;
                Ok(())
            }
        }
    }

    // The block is whole by its last step.
    fn end_block(&mut self) -> Result<(), AllocError>
        ensures version { self.new.proof.version ≡ self.old.proof.version }
        ensures gathered { IfOk result (λ _. gathered_of self.new ≡ end_block (gathered_of self.old)) }
    {
        self.steps.push(Step::Done)?;
        let goals = mem::replace(&mut self.goals, Vec::new(self.alloc));
        let names = mem::replace(&mut self.names, Vec::new(self.alloc));
        let steps = mem::replace(&mut self.steps, Vec::new(self.alloc));
        self.proof.blocks.push(Block {
            goals,
            names,
            steps,
        })?;
        Ok(())
    }
}
