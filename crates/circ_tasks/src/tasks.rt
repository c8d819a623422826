//! What is left to do, and what is written so far.
ghost use Rattle.std.specs.Prelude.{◌≡◌, ◌+◌, IfOk};
ghost use Rattle.circ_term.specs.Tree.{Tree};
ghost use Rattle.circ_tasks.specs.Tasks.{changes_job};
ghost use Rattle.circ_tasks.specs.declared.calls.Frame.{Frame as TheFrame};

use crate::calls::{Basis, Call};
use circ_proof::{Link, Why};
use circ_term::{Term, TermFault};
use circ_theory::Way;
use circ_uses::{By, Front, Layer};
use circ_written::Values;
use std::alloc::{AllocError, AllocFailed};
use std::rc::Rc;

/// Why the work ends before its end: no unit is left, a term is past a limit or memory ran out, or
/// nothing fits.
#[derive(Drop)]
pub enum Halt {
    Long,
    Past(TermFault),
    Stopped,
}

impl From<AllocError> for Halt {
    ghost use Rattle.std.specs.Prelude.{◌≡◌};
    ghost use Rattle.circ_term.specs.declared.fault.TermFault.TheVariants.{Memory};
    ghost use Rattle.circ_tasks.specs.declared.tasks.Halt.TheVariants.{Past};

    ghost from_gives = { λ _ e. e ≡ Past Memory };

    fn from(_: AllocError) -> Halt {
        Halt::Past(TermFault::Memory)
    }
}

impl<T: Drop> From<AllocFailed<T>> for Halt {
    ghost use Rattle.std.specs.Prelude.{◌≡◌};
    ghost use Rattle.circ_term.specs.declared.fault.TermFault.TheVariants.{Memory};
    ghost use Rattle.circ_tasks.specs.declared.tasks.Halt.TheVariants.{Past};

    ghost from_gives = { λ _ e. e ≡ Past Memory };

    fn from(_: AllocFailed<T>) -> Halt {
        Halt::Past(TermFault::Memory)
    }
}

/// The links of a side from some link on, and the term from which they lead.
#[derive(Drop)]
pub struct Links<'a> {
    pub call: Rc<Call>,
    pub basis: Rc<Basis>,
    pub links: &'a [Link],
    pub term: Term,
}

/// Why two terms are the same.
#[derive(Drop)]
pub struct Reason<'a> {
    pub call: Rc<Call>,
    pub basis: Rc<Basis>,
    pub why: &'a Why,
    pub left: Term,
    pub right: Term,
}

/// Why two terms are the same in the cases of a term from some case on, with all constants of its
/// sort's case list and those that are left.
#[derive(Drop)]
pub struct Reasons<'a> {
    pub call: Rc<Call>,
    pub basis: Rc<Basis>,
    pub whys: &'a [Why],
    pub term: Term,
    pub all: &'a [u32],
    pub constants: &'a [u32],
    pub left: Term,
    pub right: Term,
}

/// The use of the goal to which another is simplified, whose left side is this one.
#[derive(Drop)]
pub struct Simpler {
    pub call: Rc<Call>,
    pub left: Term,
    pub next: Option<u32>,
}

/// The occurrences in the last term of a certificate from some one on, with the layers below the
/// place and the term to which each is changed.
#[derive(Drop)]
pub struct Changes {
    pub call: Rc<Call>,
    pub layers: Front<Layer>,
    pub new: Term,
    pub last: Term,
    pub paths: Rc<Vec<Vec<u16>>>,
    pub done: usize,
}

impl Changes {
    /// Those after the next one. No memory holds so many that their number does not fit.
    pub fn after(&self) -> Result<Changes, AllocError>
        ensures { IfOk result (λ x. (fr : TheFrame) (here : Tree) → changes_job fr x here ≡
            changes_job fr (record self.now { done = self.now.done + 1 }) here) }
    {
        let Some(done) = self.done.checked_add(1) else {
            return Err(AllocError);
        };
        Ok(Changes {
            call: self.call.clone()?,
            layers: self.layers.share()?,
            new: self.new.share()?,
            last: self.last.share()?,
            paths: self.paths.clone()?,
            done,
        })
    }
}

/// The tasks of specs/Machine.antt. Where a term may be past a limit that is not tested yet, what it
/// is made of is kept in its place.
#[derive(Drop)]
pub enum Task<'a> {
    Links(Links<'a>),
    GiveReason(Reason<'a>),
    GiveReasons(Reasons<'a>),
    BeginUse(Rc<Call>),
    EnterUse(Rc<Call>),
    BeginSimpler(Simpler),
    EnterSimpler(Simpler),
    // The occurrences, in the instance of the last term.
    FirstChange { changes: Changes, by: Rc<By> },
    // The occurrences, in this term.
    NextChange { changes: Changes, here: Term },
    EmptyRow,
    PutBehind(Way),
    PutBetween,
    AddPart,
    // A split is begun, its reasons are given, and it is ended.
    Split(Reasons<'a>),
    EndSplit(Term),
}

/// The tasks that are left, the next one last, the values, and the units that are left.
#[derive(Drop)]
pub struct Work<'a> {
    pub tasks: Vec<Task<'a>>,
    pub values: Values,
    pub left: u32,
}
