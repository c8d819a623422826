//! A proof that is read and checked as its text comes.
ghost use Rattle.std.specs.Prelude.{◌≡◌, ◌++◌, ◌∷◌, [], ℕ, List, IfOk, OnOk, map};
ghost use Rattle.circ_theory.specs.Theory.{Theory as PlainTheory};
ghost use Rattle.circ_proof.specs.Parts.{Part as PlainPart};
ghost use Rattle.circ_table.specs.Part.{plain_part};
ghost use Rattle.circ_proof.specs.Proof.{Proof};
ghost use Rattle.circ_check.specs.Deciding.{plain_list};
ghost use Rattle.circ_check.specs.Watching as checker;
ghost use Rattle.circ_file.specs.Feeding as reader;
ghost use Rattle.circ_reports.specs.Check.{report_text};
ghost use Rattle.circ_show.specs.GoalsText.{all_goal_lines};
ghost use Rattle.circ_reports.specs.Incoming.{goals_among, HasRead, HasTaken, Judges};
ghost use Rattle.circ_reports.specs.Incoming.{RefusesBytes, AreAtFault};

use crate::report::Report;
use circ_check::Checker;
use circ_file::{FileFault, FileReader};
use circ_files::Intake;
use circ_read::Cause;
use circ_show::{goals_text, relation_text};
use circ_status::{CHECKED_FILE, Status};
use circ_table::Part;
use circ_theory::{Goal, Theory};
use std::alloc::{AllocError, Global};

/// A proof that is read and checked as its text comes. Of a part that was checked only the goals
/// are kept.
#[derive(Drop)]
pub(crate) struct Incoming<'a> {
    alloc: Global,
    theory: &'a Theory,
    reader: FileReader<'a>,
    checker: Checker<'a>,
    // The goals of each block.
    goals: Vec<Vec<Goal>>,
}

impl<'a> Incoming<'a> {
    /// Nothing came.
    pub(crate) fn new(alloc: Global, theory: &'a Theory) -> Incoming<'a>
        ensures { HasTaken theory.now [] result }
    {
        Incoming {
            alloc,
            theory,
            reader: FileReader::new(alloc, theory),
            checker: Checker::new(alloc, theory),
            goals: Vec::new(alloc),
        }
    }

    /// The report of the proof that came, or why there is none: the text is at fault, or else a
    /// certificate or a step is no instance of its rule.
    pub(crate) fn judge(&self, report: Report) -> Result<Vec<u8>, Status>
        requires { reader.IsSound self.now.reader }
        ensures { (th : PlainTheory) (bytes : List ℕ) → HasTaken th bytes self.now →
            Judges report th bytes result }
    {
        if let Err(fault) = self.reader.end() {
            return Err(refusal(fault));
        }
        if let Some(step) = self.checker.failed() {
            return Err(Status::Refused { step });
        }
        let goals = self.goals.as_slice();
        match reported(
            self.alloc,
            report,
            self.theory,
            goals,
            self.checker.derived(),
        ) {
            Ok(text) => Ok(text),
            Err(_) => Err(Status::Memory),
        }
    }

    // Takes the parts that the reader has made.
    fn take_waiting(&mut self) -> Result<(), AllocError>
        requires sound { reader.IsSound self.old.reader }
        requires read { (th : PlainTheory) × (bytes : List ℕ) × (parts : List PlainPart) ×
            HasRead th bytes parts self.old }
        ensures sound { reader.IsSound self.new.reader }
        ensures lines { reader.whole_lines_in self.new.reader ≡
            reader.whole_lines_in self.old.reader }
        ensures theory { self.new.theory.now ≡ self.old.theory.now }
        ensures read { OnOk result ((th : PlainTheory) (bytes : List ℕ) (parts : List PlainPart) →
            HasRead th bytes parts self.old →
            (all : List PlainPart) × HasRead th bytes all self.new) }
        ensures none { OnOk result (reader.waiting_in self.new.reader ≡ []) }
    {
        while let Some(part) = self.reader.next() {
            self.take(part)?;
        }
        Ok(())
    }

    // Checks the next part, and keeps its goals.
    fn take(&mut self, part: Part) -> Result<(), AllocError>
        requires { checker.FitsNext (plain_part part) self.old.checker }
        ensures taken { OnOk result ((th : PlainTheory) (parts : List PlainPart) →
            checker.Stands th parts self.old.checker →
            checker.Stands th (parts ++ plain_part part ∷ []) self.new.checker) }
        ensures goals { OnOk result (map plain_list self.new.goals.items ≡
            map plain_list self.old.goals.items ++ goals_among (plain_part part ∷ [])) }
        ensures reader { self.new.reader ≡ self.old.reader }
        ensures theory { self.new.theory.now ≡ self.old.theory.now }
    {
        keep_goals(self.alloc, &mut self.goals, &part)?;
        self.checker.take(part)?;
        Ok(())
    }
}

impl<'a> Intake for Incoming<'a> {
    ghost use Rattle.circ_reports.specs.Incoming.{HasTaken};

    ghost takes = { λ old bytes new. HasTaken old.theory.now bytes new };

    // A text at fault is taken to its end, since what the file is at fault for comes first.
    fn give(&mut self, piece: &[u8]) -> Result<(), AllocError> {
        match self.reader.feed(piece) {
            Ok(()) => {
                self.take_waiting()?;
                Ok(())
            }
            Err(FileFault::Line { .. }) => Ok(()),
            Err(FileFault::Limit { .. }) => Ok(()),
            Err(FileFault::Memory) => Err(AllocError),
        }
    }
}

// The goals of a part that begins a block go last.
fn keep_goals(alloc: Global, lists: &mut Vec<Vec<Goal>>, part: &Part) -> Result<(), AllocError>
    ensures { OnOk result (map plain_list lists.new.items ≡
        map plain_list lists.old.items ++ goals_among (plain_part part.now ∷ [])) }
{
    match part {
        Part::Goals { goals, .. } => {
            let list = shared(alloc, goals.as_slice())?;
            lists.push(list)?;
            Ok(())
        }
        _ => Ok(()),
    }
}

// The goals once more. Their terms are shared.
fn shared(alloc: Global, goals: &[Goal]) -> Result<Vec<Goal>, AllocError>
    ensures { IfOk result (λ v. v.items ≡ goals.now) }
{
    let mut list = Vec::new(alloc);
    for goal in goals {
        list.push(goal.share(alloc)?)?;
    }
    Ok(list)
}

/// The answer to a text at fault.
pub(crate) fn refusal(fault: FileFault) -> Status
    ensures refuses { (th : PlainTheory) (bytes : List ℕ) → reader.FaultIs th bytes fault →
        RefusesBytes th bytes result }
    ensures fault { (th : PlainTheory) (bytes : List ℕ) → reader.FaultIs th bytes fault →
        AreAtFault th bytes result }
{
    match fault {
        FileFault::Line { number } => Status::Unreadable {
            file: CHECKED_FILE,
            place: number,
            cause: Cause::Line,
        },
        FileFault::Limit { number } => Status::Unreadable {
            file: CHECKED_FILE,
            place: number,
            cause: Cause::LineLimit,
        },
        FileFault::Memory => Status::Memory,
    }
}

// The report of an accepted proof, by its goals and by what its blocks derived.
fn reported(
    alloc: Global,
    report: Report,
    theory: &Theory,
    goals: &[Vec<Goal>],
    derived: &[Vec<Goal>],
) -> Result<Vec<u8>, AllocError>
    ensures { IfOk result (λ v. (p : Proof) →
        map (λ b. b.goals) p.blocks ≡ map plain_list goals.now →
        v.items ≡ report_text report theory.now.signature p (map plain_list derived.now)) }
{
    let mut out = Vec::from_slice(alloc, b"accepted\n")?;
    put_goals(alloc, theory, goals, &mut out)?;
    match report {
        Report::Goals => Ok(out),
        Report::Relation => {
            relation_text(alloc, theory, derived, &mut out)?;
            Ok(out)
        }
    }
}

// Appends the lines of the blocks' goals.
fn put_goals(
    alloc: Global,
    theory: &Theory,
    goals: &[Vec<Goal>],
    out: &mut Vec<u8>,
) -> Result<(), AllocError>
    ensures { OnOk result (out.new.items ≡ out.old.items ++ all_goal_lines theory.now.signature
        (map plain_list goals.now)) }
{
    for list in goals {
        goals_text(alloc, theory, list.as_slice(), out)?;
    }
    Ok(())
}
