//! Whole lines, read one after the other.
ghost use Rattle.std.specs.Prelude.{◌≡◌, ◌==◌, ◌&&◌, List, ℕ, true, length, IfOk, [], codes};
ghost use Rattle.std.specs.Prelude.{Some, None};
ghost use Rattle.circ_line.specs.Front.{rest_after};
ghost use Rattle.circ_line.specs.Line.{table_line, Application_line, goal_line, given_line};
ghost use Rattle.circ_line.specs.Line.{certificate_line, block_line, left_line, right_line};
ghost use Rattle.circ_line.specs.Text.{IsInRange};
ghost use Rattle.circ_line.specs.Plain.{plain_line, plain_table_line};
ghost use Rattle.circ_grammar.specs.Now.{Begin};
ghost use Rattle.circ_grammar.specs.Grammar.{is_bare};
ghost use Rattle.circ_proof.specs.Plain.{plain_link};
ghost use Rattle.circ_special.specs.Special.{place};
ghost use Rattle.circ_proof_text.specs.Checks.{nothing, passes_at, limit_at, is_next};
ghost use Rattle.circ_proof_text.specs.Checks.{is_place};
ghost use Rattle.circ_file.specs.View.{now_of, queue_of, splits_in, IsUsable};
ghost use Rattle.circ_file.specs.Lines.{IsReader, IsOther, seen_of, Advances, Handles};
ghost use Rattle.circ_file.specs.Lines.{ReadsNext, taken_where};

use crate::checks::{is_in_table, is_long, is_next, is_place};
use crate::counts::Counts;
use crate::machine::Machine;
use crate::table::ReadTable;
use crate::taken::Taken;
use crate::{MOST_CONDITIONS, MOST_PROOF_STEPS, MOST_SPLITS};
use circ_line::{
    Line, TableLine, after_application, after_left, after_right, read_application, read_line,
    read_link,
};
use circ_proof::Link;
use circ_theory::Theory;
use std::alloc::{AllocError, Global};

/// What the whole lines so far have given.
#[derive(Drop)]
pub(crate) struct LineReader<'a> {
    alloc: Global,
    pub(crate) theory: &'a Theory,
    pub(crate) machine: Machine,
    table: ReadTable,
    pub(crate) counts: Counts,
    // The arguments of the last application. Those of the next one take their place, so that no
    // list is made for a line of the table.
    args: Vec<u32>,
}

impl<'a> LineReader<'a> {
    /// No line was read.
    pub(crate) fn new(alloc: Global, theory: &'a Theory) -> LineReader<'a>
        ensures theory { result.theory.now ≡ theory.now }
        ensures reader { IsReader result }
        ensures begin { now_of result.machine ≡ Begin }
        ensures seen { seen_of [] result ≡ nothing }
        ensures queue { queue_of result.machine ≡ [] }
    {
        LineReader {
            alloc,
            theory,
            machine: Machine::new(alloc),
            table: ReadTable::new(alloc),
            counts: Counts::new(),
            args: Vec::new(alloc),
        }
    }

    /// Takes the line that the bytes are the text of. The splits that are open want so many
    /// reasons.
    pub(crate) fn read(&mut self, bytes: &[u8]) -> Result<Taken, AllocError>
        requires { IsReader self.old }
        ensures theory { self.new.theory.now ≡ self.old.theory.now }
        ensures read { IfOk result (λ taken. (wanted : List ℕ) →
            length wanted ≡ splits_in (now_of self.old.machine) →
            ReadsNext taken wanted self.old bytes.now self.new) }
    {
        if let Some(rest) = after_left(bytes) {
            return self.read_left(rest);
        }
        if let Some(rest) = after_right(bytes) {
            return self.read_right(rest);
        }
        if let Some(rest) = after_application(bytes) {
            return self.read_application(rest);
        }
        self.read_other(bytes)
    }

    // A line of which these are the bytes after the left side.
    fn read_left(&mut self, rest: &[u8]) -> Result<Taken, AllocError>
        requires { IsReader self.old }
        ensures theory { self.new.theory.now ≡ self.old.theory.now }
        ensures read { IfOk result (λ taken. (bytes wanted : List ℕ) →
            Some rest.now ≡ rest_after (codes "left ") bytes →
            ReadsNext taken wanted self.old bytes self.new) }
    {
        let read = read_link(self.alloc, rest)?;
        match read {
            Some(link) => self.take_left(link),
            None => Ok(Taken::Line),
        }
    }

    // The same of the right side.
    fn read_right(&mut self, rest: &[u8]) -> Result<Taken, AllocError>
        requires { IsReader self.old }
        ensures theory { self.new.theory.now ≡ self.old.theory.now }
        ensures read { IfOk result (λ taken. (bytes wanted : List ℕ) →
            None ≡ rest_after (codes "left ") bytes →
            Some rest.now ≡ rest_after (codes "right ") bytes →
            ReadsNext taken wanted self.old bytes self.new) }
    {
        let read = read_link(self.alloc, rest)?;
        match read {
            Some(link) => self.take_right(link),
            None => Ok(Taken::Line),
        }
    }

    // A line of which these are the bytes after an application's letter.
    fn read_application(&mut self, rest: &[u8]) -> Result<Taken, AllocError>
        requires { IsReader self.old }
        ensures theory { self.new.theory.now ≡ self.old.theory.now }
        ensures read { IfOk result (λ taken. (bytes wanted : List ℕ) →
            None ≡ rest_after (codes "left ") bytes →
            None ≡ rest_after (codes "right ") bytes →
            Some rest.now ≡ rest_after (codes "a") bytes →
            ReadsNext taken wanted self.old bytes self.new) }
    {
        let read = read_application(&mut self.args, rest)?;
        match read {
            Some(op) => self.take_application(op),
            None => Ok(Taken::Line),
        }
    }

    // The line of which these are the bytes. It stands apart, so that links pay nothing for what it
    // owns.
    #[inline(never)]
    fn read_other(&mut self, bytes: &[u8]) -> Result<Taken, AllocError>
        requires { IsReader self.old }
        ensures theory { self.new.theory.now ≡ self.old.theory.now }
        ensures read { IfOk result (λ taken. (wanted : List ℕ) →
            length wanted ≡ splits_in (now_of self.old.machine) →
            ReadsNext taken wanted self.old bytes.now self.new) }
    {
        match read_line(self.alloc, bytes)? {
            Some(line) => self.take(line),
            None => Ok(Taken::Line),
        }
    }

    fn take(&mut self, line: Line) -> Result<Taken, AllocError>
        requires reader { IsReader self.old }
        requires in_range { IsInRange (plain_line line) }
        ensures theory { self.new.theory.now ≡ self.old.theory.now }
        ensures taken { IfOk result (λ taken. (wanted : List ℕ) →
            length wanted ≡ splits_in (now_of self.old.machine) →
            Handles taken wanted self.old (plain_line line) self.new) }
    {
        match line {
            Line::Left { link } => self.take_left(link),
            Line::Right { link } => self.take_right(link),
            line => self.take_unlinked(line),
        }
    }

    // A line that is no link.
    fn take_unlinked(&mut self, line: Line) -> Result<Taken, AllocError>
        requires reader { IsReader self.old }
        requires in_range { IsInRange (plain_line line) }
        ensures theory { self.new.theory.now ≡ self.old.theory.now }
        ensures taken { IfOk result (λ taken. (wanted : List ℕ) →
            length wanted ≡ splits_in (now_of self.old.machine) →
            Handles taken wanted self.old (plain_line line) self.new) }
    {
        match line {
            Line::Table { line } => self.take_table(&line),
            Line::Goal { left, right } => self.take_goal(left, right),
            Line::Given { left, right } => self.take_given(left, right),
            line => self.take_other(line),
        }
    }

    // A link of the left side. The counts stay as they are.
    fn take_left(&mut self, link: Link) -> Result<Taken, AllocError>
        requires reader { IsReader self.old }
        requires bare { is_bare (plain_link link) ≡ true }
        ensures theory { self.new.theory.now ≡ self.old.theory.now }
        ensures taken { IfOk result (λ taken. (wanted : List ℕ) →
            Handles taken wanted self.old (left_line (plain_link link)) self.new) }
    {
        if !is_in_table(self.table.len(), &link) {
            drop(link);
            return Ok(Taken::Line);
        }
        let is_over = is_long(&link);
        let is_next = self.machine.on_left(link)?;
        Ok(taken_where(is_next, is_over))
    }

    // A link of the right side, likewise.
    fn take_right(&mut self, link: Link) -> Result<Taken, AllocError>
        requires reader { IsReader self.old }
        requires bare { is_bare (plain_link link) ≡ true }
        ensures theory { self.new.theory.now ≡ self.old.theory.now }
        ensures taken { IfOk result (λ taken. (wanted : List ℕ) →
            Handles taken wanted self.old (right_line (plain_link link)) self.new) }
    {
        if !is_in_table(self.table.len(), &link) {
            drop(link);
            return Ok(Taken::Line);
        }
        let is_over = is_long(&link);
        let is_next = self.machine.on_right(link)?;
        Ok(taken_where(is_next, is_over))
    }

    fn take_table(&mut self, line: &TableLine) -> Result<Taken, AllocError>
        requires reader { IsReader self.old }
        ensures theory { self.new.theory.now ≡ self.old.theory.now }
        ensures taken { IfOk result (λ taken. (wanted : List ℕ) →
            Handles taken wanted self.old (table_line (plain_table_line line.now)) self.new) }
    {
        if !self.machine.on_table() {
            return Ok(Taken::Line);
        }
        let taken = self.table.add(self.theory, line)?;
        Ok(taken)
    }

    // An operator at the last arguments that were read.
    fn take_application(&mut self, op: u32) -> Result<Taken, AllocError>
        requires { IsReader self.old }
        ensures theory { self.new.theory.now ≡ self.old.theory.now }
        ensures taken { IfOk result (λ taken. (wanted : List ℕ) → Handles taken wanted self.old
            (table_line (Application_line op self.old.args.items)) self.new) }
    {
        if !self.machine.on_table() {
            return Ok(Taken::Line);
        }
        let args = self.args.as_slice();
        let taken = self.table.add_application(self.theory, op, args)?;
        Ok(taken)
    }

    // The goal of two terms of the table.
    fn take_goal(&mut self, left: u32, right: u32) -> Result<Taken, AllocError>
        requires reader { IsReader self.old }
        ensures theory { self.new.theory.now ≡ self.old.theory.now }
        ensures taken { IfOk result (λ taken. (wanted : List ℕ) →
            Handles taken wanted self.old (goal_line left right) self.new) }
    {
        if !self.machine.is_opened() {
            return Ok(Taken::Line);
        }
        let Some(goal) = self.table.goal(self.alloc, left, right)? else {
            return Ok(Taken::Line);
        };
        self.machine.put_goal(goal, left, right)?;
        self.counts.givens = 0;
        Ok(Taken::Yes)
    }

    // The condition of the last goal, of two terms of the table.
    fn take_given(&mut self, left: u32, right: u32) -> Result<Taken, AllocError>
        requires reader { IsReader self.old }
        ensures theory { self.new.theory.now ≡ self.old.theory.now }
        ensures taken { IfOk result (λ taken. (wanted : List ℕ) →
            Handles taken wanted self.old (given_line left right) self.new) }
    {
        if !self.is_second() {
            return Ok(Taken::Line);
        }
        if !self.machine.is_opened() {
            return Ok(Taken::Line);
        }
        let Some(pair) = self.table.condition(self.theory, left, right)? else {
            return Ok(Taken::Line);
        };
        if !self.machine.put_given(pair, left, right)? {
            return Ok(Taken::Line);
        }
        Ok(self.counts.count_given())
    }

    // A line that is not of the table, and no goal and no condition of one.
    fn take_other(&mut self, line: Line) -> Result<Taken, AllocError>
        requires reader { IsReader self.old }
        requires other { IsOther (plain_line line) }
        requires in_range { IsInRange (plain_line line) }
        ensures theory { self.new.theory.now ≡ self.old.theory.now }
        ensures taken { IfOk result (λ taken. (wanted : List ℕ) →
            length wanted ≡ splits_in (now_of self.old.machine) →
            Handles taken wanted self.old (plain_line line) self.new) }
    {
        if !self.passes(&line) {
            drop(line);
            return Ok(Taken::Line);
        }
        self.take_passed(line)
    }

    // One of these that passes the checks.
    fn take_passed(&mut self, line: Line) -> Result<Taken, AllocError>
        requires reader { IsReader self.old }
        requires other { IsOther (plain_line line) }
        requires in_range { IsInRange (plain_line line) }
        requires passes { (wanted : List ℕ) →
            passes_at self.old.theory.now (seen_of wanted self.old) (plain_line line) ≡ true }
        ensures theory { self.new.theory.now ≡ self.old.theory.now }
        ensures taken { IfOk result (λ taken. (wanted : List ℕ) →
            length wanted ≡ splits_in (now_of self.old.machine) →
            Handles taken wanted self.old (plain_line line) self.new) }
    {
        self.theory.known();
        let is_over = self.passes_limit(&line);
        let counts = self.counts.with(self.theory, &line);
        if !self.advance(line)? {
            return Ok(Taken::Line);
        }
        if is_over {
            return Ok(Taken::Limit);
        }
        self.counts = counts;
        Ok(Taken::Yes)
    }

    // The machine goes on by the line, where it may come next.
    fn advance(&mut self, line: Line) -> Result<bool, AllocError>
        requires reader { IsReader self.old }
        requires other { IsOther (plain_line line) }
        requires ready { IsUsable (plain_line line) }
        ensures theory { self.new.theory.now ≡ self.old.theory.now }
        ensures counts { self.new.counts ≡ self.old.counts }
        ensures taken { IfOk result (λ taken. Advances taken self.old (plain_line line) self.new) }
    {
        match line {
            Line::Certificate => self.begin_certificate(),
            Line::Block => self.begin_block(),
            line => {
                let taken = self.machine.take(line)?;
                Ok(taken)
            }
        }
    }

    // A certificate begins, and the table takes no more lines.
    fn begin_certificate(&mut self) -> Result<bool, AllocError>
        requires reader { IsReader self.old }
        ensures theory { self.new.theory.now ≡ self.old.theory.now }
        ensures counts { self.new.counts ≡ self.old.counts }
        ensures taken { IfOk result (λ taken. Advances taken self.old certificate_line self.new) }
    {
        if !self.machine.is_front() {
            return Ok(false);
        }
        let table = self.table.close(self.alloc)?;
        self.machine.begin_certificate(self.theory, table)?;
        Ok(true)
    }

    // A block begins, and the table takes no more lines.
    fn begin_block(&mut self) -> Result<bool, AllocError>
        requires reader { IsReader self.old }
        ensures theory { self.new.theory.now ≡ self.old.theory.now }
        ensures counts { self.new.counts ≡ self.old.counts }
        ensures taken { IfOk result (λ taken. Advances taken self.old block_line self.new) }
    {
        if !self.machine.is_block() {
            return Ok(false);
        }
        let table = self.table.close(self.alloc)?;
        self.machine.begin_block(self.theory, table)?;
        Ok(true)
    }

    // Whether the line passes the checks.
    fn passes(&self, line: &Line) -> bool
        requires reader { IsReader self.now }
        requires other { IsOther (plain_line line.now) }
        ensures { (wanted : List ℕ) → result ≡
            passes_at self.now.theory.now (seen_of wanted self.now) (plain_line line.now) }
    {
        match line {
            Line::Place { op, arg } => self.is_next_place(*op, *arg),
            Line::Certificate => self.counts.certificates < self.counts.due,
            Line::Block => self.counts.certificates == self.counts.due,
            Line::Cases { term } => self.is_second() && (*term as usize) < self.table.len(),
            Line::If => self.is_second(),
            Line::Split { term, .. } => (*term as usize) < self.table.len(),
            Line::Left { link } => is_in_table(self.table.len(), link),
            Line::Right { link } => is_in_table(self.table.len(), link),
            _ => true,
        }
    }

    // Whether the lines may stand that version 1 leaves out.
    fn is_second(&self) -> bool
        ensures { result ≡ (self.now.counts.version == 2) }
    {
        self.counts.version == 2
    }

    fn is_next_place(&self, op: u32, arg: u32) -> bool
        ensures { result ≡ (is_next self.now.machine.places.items (place op arg) &&
            is_place self.now.theory.now (place op arg)) }
    {
        if !is_next(self.machine.places.as_slice(), op, arg) {
            return false;
        }
        is_place(self.theory, op, arg)
    }

    // Whether the line passes a limit.
    fn passes_limit(&self, line: &Line) -> bool
        requires { IsOther (plain_line line.now) }
        ensures { (wanted : List ℕ) → length wanted ≡ splits_in (now_of self.now.machine) →
            result ≡ limit_at self.now.theory.now (seen_of wanted self.now) (plain_line line.now) }
    {
        match line {
            Line::Simplify | Line::Reduce | Line::Derive | Line::Cases { .. } | Line::Done => {
                self.counts.steps >= MOST_PROOF_STEPS
            }
            Line::If => self.counts.ifs >= MOST_CONDITIONS,
            Line::Split { .. } => self.machine.open_splits() >= MOST_SPLITS,
            Line::Left { link } => is_long(link),
            Line::Right { link } => is_long(link),
            _ => false,
        }
    }
}

// What becomes of a line that passes the checks, by whether it may come next, and passes a limit.
fn taken_where(is_next: bool, is_over: bool) -> Taken
    ensures { result ≡ taken_where is_next is_over }
{
    if !is_next {
        return Taken::Line;
    }
    if is_over { Taken::Limit } else { Taken::Yes }
}
