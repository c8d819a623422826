//! A line, whatever its kind, and the part under way.
ghost use Rattle.std.specs.Prelude.{◌≡◌, List, IfOk};
ghost use Rattle.circ_term.specs.Tree.{Tree};
ghost use Rattle.circ_line.specs.Plain.{plain_line};
ghost use Rattle.circ_file.specs.View.{now_of, IsMachineOf, Moves, IsUsable, IsFree, IsInside};
ghost use Rattle.circ_file.specs.View.{now_outside, splits_in};

use crate::machine::{Machine, Mode};
use circ_line::Line;
use circ_special::Place;
use std::alloc::AllocError;

impl Machine {
    /// Takes the line, where it may come next. It asks nothing of the table.
    pub(crate) fn take(&mut self, line: Line) -> Result<bool, AllocError>
        requires ready { IsUsable (plain_line line) }
        requires free { IsFree (plain_line line) }
        ensures { IfOk result (λ taken. (ts : List Tree) → IsMachineOf ts self.old →
            Moves taken ts self.old (plain_line line) self.new) }
    {
        match line {
            Line::Head { .. } => Ok(self.on_head()),
            Line::Place { op, arg } => self.on_place(Place {
                op,
                arg: arg as u16,
            }),
            Line::End => Ok(self.on_end()),
            line => self.take_inside(line),
        }
    }

    // A line of a step or of a certificate.
    fn take_inside(&mut self, line: Line) -> Result<bool, AllocError>
        requires inside { IsInside (plain_line line) }
        requires ready { IsUsable (plain_line line) }
        ensures { IfOk result (λ taken. (ts : List Tree) → IsMachineOf ts self.old →
            Moves taken ts self.old (plain_line line) self.new) }
    {
        match line {
            Line::Left { link } => self.on_left(link),
            Line::Right { link } => self.on_right(link),
            Line::Same => self.on_same(),
            Line::Split { term, count } => self.on_split(term, count),
            Line::If => self.on_if(),
            Line::Simplify => self.on_simplify(),
            Line::Reduce => self.on_reduce(),
            Line::Derive => self.on_derive(),
            Line::Cases { term } => self.on_cases(term),
            Line::Done => self.on_done(),
            _ => Ok(false),
        }
    }

    /// How many splits wait for reasons.
    pub(crate) fn open_splits(&self) -> usize
        ensures { result ≡ splits_in (now_of self.now) }
    {
        match self.mode {
            Mode::Reducing => self.splits.len(),
            Mode::Joining => self.splits_outside(),
            _ => 0,
        }
    }

    // The same around the conditions that are open.
    fn splits_outside(&self) -> usize
        ensures { result ≡ splits_in (now_outside self.now.base self.now) }
    {
        match self.base {
            Mode::Reducing => self.splits.len(),
            _ => 0,
        }
    }
}
