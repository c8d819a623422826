//! By which case an occurrence in the last term of a certificate is guarded.
ghost use Rattle.std.specs.Prelude.{◌≡◌, ◌≤◌, ◌++◌, nat_eq, IfOk, if◌then◌else◌, None, take};
ghost use Rattle.std.specs.Prelude.{length};
ghost use Rattle.std.specs.Cmp.Lexicographic.{pointwise};
ghost use Rattle.std.specs.List.{slice_get};
ghost use Rattle.std.specs.Option.{IfSome, option_map};
ghost use Rattle.circ_term.specs.Tree.{sort_of};
ghost use Rattle.circ_theory.specs.Observing.{is_hidden, derivative_with};
ghost use Rattle.circ_expansion.specs.Expand.{above_hole, visible_case, hidden_case, guard_case};
ghost use Rattle.circ_expansion.specs.Expand.{is_special_path};
ghost use Rattle.circ_uses.specs.Guards.{plain_guard, is_as, visible_above, hidden_above};

use crate::fitting::hole_path;
use circ_special::{Gamma, fits};
use circ_term::Term;
use circ_theory::Theory;
use std::alloc::{AllocError, Global};

/// The first case by which an occurrence is guarded: with the first derivative by which it holds,
/// and the number of steps to its instance.
#[derive(Clone, Copy)]
pub enum Guard {
    Visible { number: u32, above: usize },
    Place,
    Hidden { number: u32, above: usize },
    Nothing,
}

/// An occurrence at a path in a term.
#[derive(Clone, Copy)]
pub struct Occurrence<'a> {
    pub alloc: Global,
    pub theory: &'a Theory,
    pub gamma: &'a Gamma,
    pub term: &'a Term,
    pub path: &'a [u16],
}

impl Occurrence<'_> {
    pub fn guard(&self) -> Result<Guard, AllocError>
        ensures { IfOk result (λ g. plain_guard self.now.path.now g ≡ guard_case
            self.now.theory.now self.now.gamma.now self.now.term.now self.now.path.now) }
    {
        if let Some(guard) = self.visible()? {
            return Ok(guard);
        }
        if self.is_special(self.path) {
            return Ok(Guard::Place);
        }
        match self.hidden()? {
            Some(guard) => Ok(guard),
            None => Ok(Guard::Nothing),
        }
    }

    // The first visible derivative of an instance of which it is the hole.
    fn visible(&self) -> Result<Option<Guard>, AllocError>
        ensures { IfOk result (λ o. option_map (plain_guard self.now.path.now) o ≡ visible_case
            self.now.theory.now 0 self.now.theory.now.derivatives self.now.term.now
            self.now.path.now) }
    {
        for number in 0..self.theory.derivative_count() {
            if let Some(above) = self.visible_below(number)? {
                return Ok(Some(Guard::Visible { number, above }));
            }
        }
        Ok(None)
    }

    // The first hidden derivative of an instance at a special path of which it is the hole.
    fn hidden(&self) -> Result<Option<Guard>, AllocError>
        ensures { IfOk result (λ o. option_map (plain_guard self.now.path.now) o ≡ hidden_case
            self.now.theory.now self.now.gamma.now 0 self.now.theory.now.derivatives
            self.now.term.now self.now.path.now) }
    {
        for number in 0..self.theory.derivative_count() {
            if let Some(above) = self.hidden_below(number)? {
                return Ok(Some(Guard::Hidden { number, above }));
            }
        }
        Ok(None)
    }

    // How many steps it is to an instance of the derivative, which is visible, whose hole it is.
    fn visible_below(&self, number: u32) -> Result<Option<usize>, AllocError>
        ensures { IfSome (slice_get self.now.theory.now.derivatives number) (λ d. IfOk result (λ o.
            option_map (λ n. take n self.now.path.now) o ≡ visible_above self.now.theory.now d
            self.now.term.now self.now.path.now)) }
    {
        self.below(number, false)
    }

    // How many steps it is along a special path to an instance of the derivative, which is hidden,
    // whose hole it is.
    fn hidden_below(&self, number: u32) -> Result<Option<usize>, AllocError>
        ensures { IfSome (slice_get self.now.theory.now.derivatives number) (λ d. IfOk result (λ o.
            option_map (λ n. take n self.now.path.now) o ≡ hidden_above self.now.theory.now
            self.now.gamma.now d self.now.term.now self.now.path.now)) }
    {
        match self.below(number, true)? {
            Some(above) => {
                if self.is_special(&self.path[..above]) {
                    return Ok(Some(above));
                }
                Ok(None)
            }
            None => Ok(None),
        }
    }

    // How many steps it is to an instance of the derivative whose hole it is, where that is hidden
    // or visible as asked.
    fn below(&self, number: u32, hidden: bool) -> Result<Option<usize>, AllocError>
        ensures within { IfOk result (λ o. IfSome o (λ n. n ≤ length self.now.path.now)) }
        ensures exact { IfSome (slice_get self.now.theory.now.derivatives number) (λ d.
            IfOk result (λ o. option_map (λ n. take n self.now.path.now) o ≡
            (if is_as hidden (is_hidden self.now.theory.now (sort_of d.body))
            then above_hole d self.now.term.now self.now.path.now else None))) }
    {
        let Some(body) = self.theory.derivative(number) else {
            return Ok(None);
        };
        let Some(hole) = self.theory.hole_sort(number) else {
            return Ok(None);
        };
        if self.theory.is_hidden(body.sort()) != hidden {
            return Ok(None);
        }
        self.above_hole(body, hole)
    }

    // How many steps it is to an instance of the derivative whose hole it is.
    fn above_hole(&self, body: &Term, hole: u32) -> Result<Option<usize>, AllocError>
        ensures within { IfOk result (λ o. IfSome o (λ n. n ≤ length self.now.path.now)) }
        ensures exact { IfOk result (λ o. option_map (λ n. take n self.now.path.now) o ≡
            above_hole (derivative_with hole body.now) self.now.term.now self.now.path.now) }
    {
        let end = hole_path(self.alloc, body)?;
        let above = self.path.len().saturating_sub(end.len());
        if !ends_with(self.alloc, self.path, above, end.as_slice())? {
            return Ok(None);
        }
        match self.term.at(&self.path[..above]) {
            Some(subterm) => {
                if fits(body, subterm, 0, hole) {
                    return Ok(Some(above));
                }
                Ok(None)
            }
            None => Ok(None),
        }
    }

    fn is_special(&self, path: &[u16]) -> bool
        ensures { result ≡ is_special_path self.now.gamma.now self.now.term.now path.now }
    {
        self.gamma.on_path(self.term, path)
    }
}

// Whether the path is its first steps and then these.
fn ends_with(alloc: Global, path: &[u16], front: usize, end: &[u16]) -> Result<bool, AllocError>
    requires { front ≤ length path.now }
    ensures { IfOk result (λ b. b ≡ pointwise nat_eq (take front path.now ++ end.now) path.now) }
{
    let mut whole = Vec::with_capacity(alloc, path.len())?;
    whole.extend_from_slice(&path[..front])?;
    whole.extend_from_slice(end)?;
    Ok(whole.as_slice() == path)
}
