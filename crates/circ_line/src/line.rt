//! The kinds of lines.
use circ_proof::Link;

/// A line of the table. It stands for a term, and terms go by the numbers of their lines.
#[derive(Drop)]
pub enum TableLine {
    /// A variable of a sort.
    Variable { number: u32, sort: u32 },
    /// An operator at terms.
    Application { op: u32, args: Vec<u32> },
}

/// One line of a proof file.
#[derive(Drop)]
pub enum Line {
    /// The first line, which names the format and its version.
    Head { version: u8 },
    Table { line: TableLine },
    /// A place of the special set: an argument of an operator.
    Place { op: u32, arg: u32 },
    /// A certificate begins: the links of its one chain follow.
    Certificate,
    /// A block begins: its goals follow, then its steps.
    Block,
    Goal { left: u32, right: u32 },
    /// A condition of the goal before it.
    Given { left: u32, right: u32 },
    /// A step that rewrites a goal: its links follow.
    Simplify,
    /// A step that ends a goal: the reason why it holds follows.
    Reduce,
    /// A step that makes a goal a hypothesis, with its derivatives behind the other goals.
    Derive,
    /// A step that replaces a goal by one for each case of a term.
    Cases { term: u32 },
    /// A block ends.
    Done,
    /// A reason or the chain of a condition ends: its two sides have to be one term.
    Same,
    /// A reason goes on by the cases of a term: `count` reasons follow.
    Split { term: u32, count: u32 },
    /// The chain of a condition of the link before it begins: its links follow.
    If,
    /// A link on the left side. The chains of its conditions are in the lines after it.
    Left { link: Link },
    /// A link on the right side, likewise.
    Right { link: Link },
    /// The last line.
    End,
}
