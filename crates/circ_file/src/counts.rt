//! How many certificates and steps there are.
ghost use Rattle.std.specs.Prelude.{◌≡◌, ℕ, ◌≤◌, ◌<◌, ◌^◌, length, List};
ghost use Rattle.circ_line.specs.Plain.{plain_line};
ghost use Rattle.circ_special.specs.declared.place.Place.{Place};
ghost use Rattle.circ_special.specs.Special.{place};
ghost use Rattle.circ_proof.specs.Certified.{derivatives_at, due};
ghost use Rattle.circ_theory.specs.Fresh.{derivatives_of};
ghost use Rattle.circ_file.specs.View.{places_with};
ghost use Rattle.circ_file.specs.Counting.{certificates_with, steps_with, version_with};
ghost use Rattle.circ_file.specs.Counting.{givens_with, ifs_with, CountsGiven};
ghost use Rattle.circ_file.specs.Lines.{IsOther};

use crate::MOST_CONDITIONS;
use crate::taken::Taken;
use circ_line::Line;
use circ_theory::Theory;

/// What the lines so far have begun, and what their places ask for.
#[derive(Clone, Copy)]
pub(crate) struct Counts {
    /// How many certificates are due for the places.
    pub(crate) due: u64,
    /// The version that the first line names, 0 before it.
    pub(crate) version: u8,
    pub(crate) certificates: u64,
    pub(crate) steps: u64,
    /// How many conditions the last goal has.
    pub(crate) givens: u64,
    /// How many conditions of links are open.
    pub(crate) ifs: u64,
}

impl Counts {
    pub(crate) fn new() -> Counts
        ensures due { result.due ≡ 0 }
        ensures certificates { result.certificates ≡ 0 }
        ensures steps { result.steps ≡ 0 }
        ensures version { result.version ≡ 0 }
        ensures givens { result.givens ≡ 0 }
        ensures ifs { result.ifs ≡ 0 }
    {
        Counts {
            due: 0,
            version: 0,
            certificates: 0,
            steps: 0,
            givens: 0,
            ifs: 0,
        }
    }

    /// The counts with a line more.
    pub(crate) fn with(self, theory: &Theory, line: &Line) -> Counts
        requires certificates { self.certificates < 2 ^ 63 }
        requires steps { self.steps < 2 ^ 63 }
        requires due { self.due < 2 ^ 63 }
        requires ifs { self.ifs < 2 ^ 63 }
        requires other { IsOther (plain_line line.now) }
        ensures due { (gs : List Place) → self.due ≡ length (due theory.now gs) →
            result.due ≡ length (due theory.now (places_with gs (plain_line line.now))) }
        ensures certificates { result.certificates ≡
            certificates_with self.certificates (plain_line line.now) }
        ensures steps { result.steps ≡ steps_with self.steps (plain_line line.now) }
        ensures version { result.version ≡ version_with self.version (plain_line line.now) }
        ensures givens { result.givens ≡ givens_with self.givens (plain_line line.now) }
        ensures ifs { result.ifs ≡ ifs_with self.ifs (plain_line line.now) }
    {
        let mut counts = self;
        match line {
            Line::Place { op, .. } => counts.due += derivative_count_at(theory, *op),
            Line::Head { version } => counts.version = *version,
            Line::Certificate => counts.certificates += 1,
            Line::Simplify | Line::Reduce | Line::Derive | Line::Cases { .. } | Line::Done => {
                counts.steps += 1;
                counts.givens = 0;
            }
            Line::If => counts.ifs += 1,
            Line::Same => counts.ifs = counts.ifs.saturating_sub(1),
            _ => {}
        }
        counts
    }

    /// One condition of the last goal more, unless it passes the limit.
    pub(crate) fn count_given(&mut self) -> Taken
        ensures { CountsGiven result self.old self.new }
    {
        if self.givens >= MOST_CONDITIONS {
            return Taken::Limit;
        }
        self.givens += 1;
        Taken::Yes
    }
}

// How many derivatives the result sort of an operator has.
fn derivative_count_at(theory: &Theory, op: u32) -> u64
    ensures exact { (arg : ℕ) → result ≡ length (derivatives_at theory.now (place op arg)) }
    ensures few { result ≤ 256 }
{
    match theory.op(op) {
        Some(decl) => derivative_count(theory, decl.result),
        None => 0,
    }
}

fn derivative_count(theory: &Theory, sort: u32) -> u64
    ensures exact { result ≡ length (derivatives_of theory.now sort) }
    ensures few { result ≤ 256 }
{
    let mut count: u64 = 0;
    for number in 0..theory.derivative_count() {
        if theory.takes(number, sort) {
            count += 1;
        }
    }
    count
}
