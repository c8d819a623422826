//! Places of operators, and special sets.
ghost use Rattle.std.specs.Prelude.{◌≡◌, ◌↔◌, [], IsTrue};
ghost use Rattle.std.specs.Option.{option_copied};
ghost use Rattle.std.specs.List.{Contains, AllByRecursion};
ghost use Rattle.circ_special.specs.Special.{IsPlace, IsIncreasing, IsSpecial, place};
ghost use Rattle.circ_special.specs.Places.{GivesSet, GoesBelow, comes_before_first};

use circ_term::{Kind, Term};
use circ_theory::Theory;
use std::alloc::Global;
use std::marker::Model;

/// An argument of an operator.
#[derive(Clone, Copy, PartialEq, Eq)]
pub struct Place {
    /// The operator's number.
    pub op: u32,
    /// The argument's number, from 0.
    pub arg: u16,
}

/// A special set: places that increase by operator, then argument. The type keeps their order, and
/// not that they are places of the theory that the set was made for.
#[derive(Drop)]
pub struct Gamma {
    places: Vec<Place>,
}

impl Model for Gamma {
    ghost use Rattle.std.specs.Prelude.{List};
    ghost use Rattle.std.specs.Coded.{coded_list};
    ghost use Rattle.circ_special.specs.declared.place.Place.{Place as ThePlace};
    ghost use Rattle.circ_special.specs.Places.{place_code};

    ghost Value = { List ThePlace };

    ghost coded = { coded_list place_code };

    ghost use Rattle.circ_special.specs.Special.{IsIncreasing};

    ghost view = { λ a. a.places.items };

    ghost invariant = { λ a. IsIncreasing a.places.items };
}

impl Gamma {
    /// The set of these places. None where they do not increase, or where one of them is not an
    /// argument of hidden sort of an operator of hidden sort.
    pub fn of(theory: &Theory, places: Vec<Place>) -> Option<Gamma>
        ensures { GivesSet theory.now places.items result }
    {
        if !are_increasing(places.as_slice()) {
            return None;
        }
        if !are_places(theory, places.as_slice()) {
            return None;
        }
        Some(Gamma { places })
    }

    /// The set without places.
    pub fn empty(alloc: Global) -> Gamma
        ensures { result ≡ [] }
    {
        Gamma {
            places: Vec::new(alloc),
        }
    }

    /// The places of the set, in increasing order.
    pub fn places(&self) -> &[Place]
        ensures value { result.now ≡ self.now }
        ensures increasing { IsIncreasing self.now }
    {
        self.places.as_slice()
    }

    /// Whether an argument of an operator belongs to the set. The set is searched by halves.
    pub fn has(&self, op: u32, arg: u16) -> bool
        ensures { IsTrue result ↔ Contains self.now (place op arg) }
    {
        let found = self
            .places
            .as_slice()
            .binary_search_by(|place| place.op.cmp(&op).then(place.arg.cmp(&arg)));
        found.is_ok()
    }

    /// Whether a path is special: it is in the term, and each operator and place on it belongs to
    /// the set.
    pub fn on_path(&self, term: &Term, path: &[u16]) -> bool
        ensures { IsTrue result ↔ IsSpecial self.now term.now path.now }
    {
        let mut here = term;
        for place in path {
            match self.below(here, *place) {
                Some(arg) => here = arg,
                None => return false,
            }
        }
        true
    }

    // The argument of the term at a place of the set.
    fn below<'a>(&self, term: &'a Term, place: u16) -> Option<&'a Term>
        ensures { GoesBelow self.now term.now place (option_copied result) }
    {
        match term.kind() {
            Kind::Variable { .. } => None,
            Kind::Application { op, .. } => {
                if !self.has(op, place) {
                    return None;
                }
                term.arg(place as usize)
            }
        }
    }
}

fn are_increasing(places: &[Place]) -> bool
    ensures { IsTrue result ↔ IsIncreasing places.now }
{
    let mut rest = places;
    while let Some((first, after)) = rest.split_first() {
        if !comes_before_first(*first, after) {
            return false;
        }
        rest = after;
    }
    true
}

// Whether the place comes before the first of the others, if there are others.
fn comes_before_first(place: Place, others: &[Place]) -> bool
    ensures { result ≡ comes_before_first place others.now }
{
    match others.first() {
        Some(next) => place.op < next.op || (place.op == next.op && place.arg < next.arg),
        None => true,
    }
}

fn are_places(theory: &Theory, places: &[Place]) -> bool
    ensures { IsTrue result ↔ AllByRecursion (IsPlace theory.now) places.now }
{
    for place in places {
        if !is_place(theory, *place) {
            return false;
        }
    }
    true
}

/// Whether the place is an argument of hidden sort of an operator of hidden sort.
pub fn is_place(theory: &Theory, place: Place) -> bool
    ensures { IsTrue result ↔ IsPlace theory.now place }
{
    let Some(decl) = theory.op(place.op) else {
        return false;
    };
    if !theory.is_hidden(decl.result) {
        return false;
    }
    match decl.args.get(place.arg as usize) {
        Some(sort) => theory.is_hidden(*sort),
        None => false,
    }
}
