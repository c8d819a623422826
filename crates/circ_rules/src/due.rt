//! Which certificate is due, one after the other.
ghost use Rattle.std.specs.Prelude.{◌≡◌, ◌<◌, ◌-◌, ◌^◌, List, [], MatchOption};
ghost use Rattle.std.specs.List.{AllByRecursion};
ghost use Rattle.std.specs.Option.{IfSome};
ghost use Rattle.circ_theory.specs.Theory.{Theory};
ghost use Rattle.circ_special.specs.declared.place.Place.{Place};
ghost use Rattle.circ_special.specs.Special.{IsPlace};
ghost use Rattle.circ_proof.specs.Certified.{due};
ghost use Rattle.circ_rules.specs.Due.{derivatives_from, due_after, IsFirst, NoneAt, IsFirstAt};
ghost use Rattle.circ_rules.specs.Due.{IsNextSlot};

use circ_special::{Gamma, Place};
use circ_theory::Theory;

/// How far the certificates of a special set have come.
#[derive(Clone, Copy)]
pub struct Due {
    /// The number of the place that the next one is for, or of one before it.
    pub place: usize,
    /// The number of the next derivative of that place, or one below it.
    pub derivative: u32,
}

impl Due {
    /// All are due.
    pub fn all() -> Due
        ensures { (th : Theory) (G : List Place) → due_after th G result ≡ due th G }
    {
        Due {
            place: 0,
            derivative: 0,
        }
    }
}

/// What a certificate is due for.
#[derive(Clone, Copy)]
pub struct Slot {
    /// The place.
    pub place: Place,
    /// The number of a derivative of the place's result sort.
    pub derivative: u32,
}

/// What the next certificate is due for; `due` goes on to what comes behind it. If none is due,
/// `due` is as before.
pub fn next_slot(theory: &Theory, gamma: &Gamma, due: &mut Due) -> Option<Slot>
    requires { AllByRecursion (IsPlace theory.now) gamma.now }
    ensures { MatchOption result ((due_after theory.now gamma.now due.old ≡ []) × (due.new ≡ due.old))
        (λ s. IsNextSlot theory.now gamma.now due.old s due.new) }
{
    let places = gamma.places();
    let mut from = due.derivative;
    for number in due.place..places.len() {
        let place = places[number];
        if let Some(derivative) = next_at(theory, place, from) {
            *due = Due {
                place: number,
                derivative: derivative + 1,
            };
            return Some(Slot { place, derivative });
        }
        from = 0;
    }
    None
}

// The first derivative of the place's result sort, from this number on.
fn next_at(theory: &Theory, place: Place, from: u32) -> Option<u32>
    ensures first { MatchOption result (NoneAt theory.now place from)
        (IsFirstAt theory.now place from) }
    ensures small { IfSome result (λ n. n < 2 ^ 32 - 1) }
{
    match theory.op(place.op) {
        Some(decl) => next_derivative(theory, decl.result, from),
        None => None,
    }
}

// The first derivative with a hole of the sort, from this number on.
fn next_derivative(theory: &Theory, sort: u32, from: u32) -> Option<u32>
    ensures first { MatchOption result (derivatives_from theory.now sort from ≡ [])
        (IsFirst theory.now sort from) }
    ensures small { IfSome result (λ n. n < 2 ^ 32 - 1) }
{
    for derivative in from..theory.derivative_count() {
        if theory.takes(derivative, sort) {
            return Some(derivative);
        }
    }
    None
}
