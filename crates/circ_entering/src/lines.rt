//! The lines of a table get numbers when they are named.
ghost use Rattle.std.specs.Prelude.{◌≡◌, ◌<◌, ◌++◌, ◌∷◌, [], true, false, List, Some};
ghost use Rattle.std.specs.Prelude.{length, map, slice_set, IfOk, OnOk};
ghost use Rattle.std.specs.List.{AllByRecursion};
ghost use Rattle.circ_term.specs.Growing.{Grows};
ghost use Rattle.circ_term.specs.Tree.{Tree, trees_of};
ghost use Rattle.circ_theory.specs.Rewriting.{named};
ghost use Rattle.circ_proof.specs.Link.{AllOfLinks, resolved_links};
ghost use Rattle.circ_proof.specs.Plain.{plain_links};
ghost use Rattle.circ_proof.specs.PlainProof.{plain_names, plain_step};
ghost use Rattle.circ_proof.specs.Proof.{goal_at as named_goal};
ghost use Rattle.circ_proof.specs.Rules.{AllOfStep, map_step};
ghost use Rattle.circ_nodes.specs.Named.{IsNamed, AreNamed, tree_at};
ghost use Rattle.circ_table.specs.Line.{IsLine, numbers_in};
ghost use Rattle.circ_entering.specs.Naming.{names_terms};
ghost use Rattle.circ_entering.specs.Lines.{HasOwnNumber, HaveNumbers, EntersMore};
ghost use Rattle.circ_entering.specs.Lines.{line_numbers, numbered_at, lines_at};
ghost use Rattle.circ_entering.specs.Lines.{AreLinesAt, LinesStay, EntersLines, IsNamedRightly};

use crate::naming::{add_links, add_names, add_step};
use circ_nodes::{Nodes, Numbers};
use circ_proof::{GoalNames, Link, Step};
use circ_table::{Line, Table};
use circ_term::MOST_ARGS;
use std::alloc::{AllocError, Global};
use std::mem;

/// The numbers of a table's lines. A line is entered when it is named, behind the lines that it
/// names itself. So a line that is never named costs four bytes and no look-up, and of the others
/// each costs two look-ups at most, for itself and for each of its arguments. A line that repeats
/// the first costs them whenever it is named.
#[derive(Drop)]
pub struct NamedLines {
    alloc: Global,
    // None where each line was given a number.
    table: Option<Table>,
    lines: LineNumbers,
    // The lines that are to be entered.
    asked: Vec<u32>,
}

// The lines that were entered.
#[derive(Drop)]
struct LineNumbers {
    // The number of each. A line that was not entered has the number of the first.
    numbers: Vec<u32>,
    // Those that were entered after the goals of the block under way.
    late: Vec<u32>,
}

impl NamedLines {
    /// No lines.
    pub fn empty(alloc: Global) -> NamedLines
        ensures lines { (nodes : List Tree) → AreLinesAt nodes result }
        ensures stay { (nodes : List Tree) → LinesStay nodes result }
        ensures terms { (nodes : List Tree) → lines_at nodes result ≡ [] }
    {
        NamedLines::of_numbers(alloc, Vec::new(alloc))
    }

    /// The lines that have these numbers, of terms that are entered.
    pub fn of_numbers(alloc: Global, numbers: Vec<u32>) -> NamedLines
        ensures lines { (nodes : List Tree) → AllByRecursion (λ n. n < length nodes) numbers.items
            → AreLinesAt nodes result }
        ensures stay { (nodes : List Tree) → AllByRecursion (λ n. n < length nodes) numbers.items
            → LinesStay nodes result }
        ensures terms { (nodes : List Tree)
            → lines_at nodes result ≡ map (tree_at nodes) numbers.items }
    {
        NamedLines {
            alloc,
            table: None,
            lines: LineNumbers {
                numbers,
                late: Vec::new(alloc),
            },
            asked: Vec::new(alloc),
        }
    }

    /// The lines of a table. Only the first is entered.
    pub fn of_table(
        alloc: Global,
        nodes: &mut Nodes,
        table: Table,
    ) -> Result<NamedLines, AllocError>
        ensures grows { Grows nodes.old nodes.new }
        ensures lines { IfOk result (AreLinesAt nodes.new) }
        ensures stay { IfOk result (LinesStay nodes.new) }
        ensures terms { IfOk result (λ l. lines_at nodes.new l ≡ table) }
    {
        let numbers = first_numbers(alloc, nodes, &table)?;
        Ok(NamedLines {
            alloc,
            table: Some(table),
            lines: LineNumbers {
                numbers,
                late: Vec::new(alloc),
            },
            asked: Vec::new(alloc),
        })
    }

    /// The number of each line. It is that of the line's term where the line was entered.
    pub fn numbers(&self) -> &[u32]
        ensures { result.now ≡ line_numbers self.now }
    {
        self.lines.numbers.as_slice()
    }

    /// Enters the lines that links name.
    pub fn enter_links(&mut self, nodes: &mut Nodes, links: &[Link]) -> Result<(), AllocError>
        requires lines { AreLinesAt nodes.old self.old }
        requires in_table { AllOfLinks (λ n. n < length (line_numbers self.old))
            (plain_links links.now) }
        ensures grows { Grows nodes.old nodes.new }
        ensures entered { OnOk result (EntersLines nodes.old nodes.new self.old self.new) }
        ensures named { OnOk result
            (resolved_links (numbered_at nodes.new self.new) (plain_links links.now)
            ≡ resolved_links (lines_at nodes.new self.new) (plain_links links.now)) }
    {
        self.asked.clear();
        add_links(&mut self.asked, links)?;
        self.enter_asked(nodes)
    }

    /// Enters the lines that a step names.
    pub fn enter_step(&mut self, nodes: &mut Nodes, step: &Step) -> Result<(), AllocError>
        requires lines { AreLinesAt nodes.old self.old }
        requires in_table { AllOfStep (λ n. n < length (line_numbers self.old))
            (plain_step step.now) }
        ensures grows { Grows nodes.old nodes.new }
        ensures entered { OnOk result (EntersLines nodes.old nodes.new self.old self.new) }
        ensures named { OnOk result
            (map_step (named (numbered_at nodes.new self.new)) (plain_step step.now)
            ≡ map_step (named (lines_at nodes.new self.new)) (plain_step step.now)) }
    {
        self.asked.clear();
        add_step(&mut self.asked, step)?;
        self.enter_asked(nodes)
    }

    /// Begins a block where the terms were cut back to those that there were behind the goals of
    /// the block before it: enters the lines that were entered after them once more, and those that
    /// the goals of these names name. Until the next block begins they stay.
    pub fn begin_block(&mut self, nodes: &mut Nodes, names: &[GoalNames]) -> Result<(), AllocError>
        requires stay { LinesStay nodes.old self.old }
        requires in_table { AllByRecursion (λ n. n < length (line_numbers self.old))
            (names_terms (map plain_names names.now)) }
        ensures grows { Grows nodes.old nodes.new }
        ensures lines { OnOk result (AreLinesAt nodes.new self.new) }
        ensures stay { OnOk result (LinesStay nodes.new self.new) }
        ensures terms { OnOk result (lines_at nodes.new self.new ≡ lines_at nodes.old self.old) }
        ensures named { OnOk result
            (map (named_goal (numbered_at nodes.new self.new)) (map plain_names names.now)
            ≡ map (named_goal (lines_at nodes.new self.new)) (map plain_names names.now)) }
    {
        self.forget();
        add_names(&mut self.asked, names)?;
        self.enter_asked(nodes)?;
        self.lines.late.clear();
        Ok(())
    }

    // The lines that are late are to be entered again.
    fn forget(&mut self)
        requires { (nodes : List Tree) × LinesStay nodes self.old }
        ensures lines { (nodes : List Tree) → LinesStay nodes self.old → AreLinesAt nodes self.new }
        ensures late { self.new.lines.late.items ≡ [] }
        ensures asked { self.new.asked.items ≡ self.old.lines.late.items }
        ensures table { self.new.table ≡ self.old.table }
        ensures count { length (line_numbers self.new) ≡ length (line_numbers self.old) }
        ensures terms { (nodes : List Tree) → LinesStay nodes self.old
            → lines_at nodes self.new ≡ lines_at nodes self.old }
    {
        mem::swap(&mut self.asked, &mut self.lines.late);
        self.lines.late.clear();
        self.lines.forget(self.asked.as_slice());
    }

    // Enters the lines that are to be entered.
    fn enter_asked(&mut self, nodes: &mut Nodes) -> Result<(), AllocError>
        requires lines { AreLinesAt nodes.old self.old }
        requires in_table { AllByRecursion (λ n. n < length (line_numbers self.old))
            self.old.asked.items }
        ensures grows { Grows nodes.old nodes.new }
        ensures entered { OnOk result (EntersLines nodes.old nodes.new self.old self.new) }
        ensures named { OnOk result
            (AllByRecursion (IsNamedRightly nodes.new self.new) self.old.asked.items) }
    {
        let Some(table) = &self.table else {
            return Ok(());
        };
        self.lines
            .enter_all(self.alloc, nodes, table, self.asked.as_slice())
    }
}

impl LineNumbers {
    // These lines have the number of the first again.
    fn forget(&mut self, lines: &[u32])
        requires { AllByRecursion (λ n. n < length self.old.numbers.items) lines.now }
        ensures numbers { (nodes table : List Tree)
            → HaveNumbers nodes table self.old.numbers.items lines.now
            → HaveNumbers nodes table self.new.numbers.items [] }
        ensures none { lines.now ≡ [] → self.new.numbers.items ≡ self.old.numbers.items }
        ensures count { length self.new.numbers.items ≡ length self.old.numbers.items }
        ensures late { self.new.late ≡ self.old.late }
    {
        for line in lines {
            self.numbers[*line as usize] = self.numbers[0];
        }
    }

    // Enters these lines.
    fn enter_all(
        &mut self,
        alloc: Global,
        nodes: &mut Nodes,
        table: &Table,
        lines: &[u32],
    ) -> Result<(), AllocError>
        requires numbers { HaveNumbers nodes.old table.now self.old.numbers.items [] }
        requires in_table { AllByRecursion (λ n. n < length table.now) lines.now }
        ensures grows { Grows nodes.old nodes.new }
        ensures entered { OnOk result
            (EntersMore table.now nodes.old nodes.new self.old self.new) }
        ensures own { OnOk result (AllByRecursion
            (HasOwnNumber nodes.new table.now self.new.numbers.items) lines.now) }
    {
        for line in lines {
            self.enter(alloc, nodes, table, *line)?;
        }
        Ok(())
    }

    // Enters a line behind the lines that it names. It calls itself as deep as its term is.
    fn enter(
        &mut self,
        alloc: Global,
        nodes: &mut Nodes,
        table: &Table,
        line: u32,
    ) -> Result<(), AllocError>
        requires numbers { HaveNumbers nodes.old table.now self.old.numbers.items [] }
        requires in_table { line < length table.now }
        ensures grows { Grows nodes.old nodes.new }
        ensures entered { OnOk result
            (EntersMore table.now nodes.old nodes.new self.old self.new) }
        ensures own { OnOk result
            (HasOwnNumber nodes.new table.now self.new.numbers.items line) }
    {
        if self.is_entered(line) {
            return Ok(());
        }
        let root = table.line(line);
        let below = lines_below(root);
        let mut args = Numbers::new(alloc);
        for arg in below {
            self.enter(alloc, nodes, table, *arg)?;
            args.push(self.numbers[*arg as usize])?;
        }
        let number = enter_line(nodes, root, args)?;
        self.put(line, number)
    }

    // Whether the line has its own number. A line that has that of the first may have it too.
    fn is_entered(&self, line: u32) -> bool
        requires { line < length self.now.numbers.items }
        ensures own { (nodes table : List Tree) → HaveNumbers nodes table self.now.numbers.items []
            → result ≡ true → HasOwnNumber nodes table self.now.numbers.items line }
        ensures other { result ≡ false → line ≡ 0 → ⊥ }
    {
        if line == 0 {
            return true;
        }
        self.numbers[line as usize] != self.numbers[0]
    }

    // The line has this number from now on.
    fn put(&mut self, line: u32, number: u32) -> Result<(), AllocError>
        requires { line < length self.old.numbers.items }
        ensures numbers { OnOk result
            (self.new.numbers.items ≡ slice_set self.old.numbers.items line number) }
        ensures late { OnOk result (self.new.late.items ≡ self.old.late.items ++ line ∷ []) }
    {
        self.late.push(line)?;
        self.numbers[line as usize] = number;
        Ok(())
    }
}

// The numbers of lines of which only the first is entered.
fn first_numbers(alloc: Global, nodes: &mut Nodes, table: &Table) -> Result<Vec<u32>, AllocError>
    ensures grows { Grows nodes.old nodes.new }
    ensures numbers { IfOk result (λ v. HaveNumbers nodes.new table.now v.items []) }
{
    let count = table.len();
    if count == 0 {
        return Ok(Vec::new(alloc));
    }
    let first = enter_line(nodes, table.line(0), Numbers::new(alloc))?;
    let numbers = vec![in alloc; first; count]?;
    Ok(numbers)
}

// The lines that a line names.
fn lines_below(line: Line<'_>) -> &[u32]
    ensures { result.now ≡ numbers_in line.entry }
{
    match line {
        Line::Variable { .. } => &[],
        Line::Application { args, .. } => args,
    }
}

// The number of a line's term, from those of the lines that it names.
fn enter_line(nodes: &mut Nodes, line: Line<'_>, args: Numbers) -> Result<u32, AllocError>
    requires { AllByRecursion (λ n. n < length nodes.old) args.items }
    ensures grows { Grows nodes.old nodes.new }
    ensures named { (table : List Tree) (t : Tree) → IsLine table line.entry t
        → AreNamed nodes.old args.items (trees_of (map (named table) (numbers_in line.entry)))
        → IfOk result (λ n. IsNamed nodes.new n t) }
{
    match line {
        Line::Variable { number, sort } => nodes.variable(number, sort),
        Line::Application { op, sort, .. } => {
            // A term has no more arguments, and is within the limits.
            if args.len() > MOST_ARGS {
                return Err(AllocError);
            }
            match nodes.app(op, sort, args) {
                Ok(number) => Ok(number),
                Err(_) => Err(AllocError),
            }
        }
    }
}
