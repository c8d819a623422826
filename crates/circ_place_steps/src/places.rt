//! The certificate of a place, and the two sides of a goal at a place.
use circ_proof::Link;
use circ_tasks::Basis;
use circ_term::Term;
use circ_uses::By;
use std::rc::Rc;

/// The certificate of a place for an entry: its links, from its start term to its last one.
#[derive(Drop)]
pub struct Certificate<'a> {
    pub start: Term,
    pub links: &'a [Link],
    pub last: Term,
    pub basis: Rc<Basis>,
}

/// The two sides of a goal at a place, each as the substitution of the certificate, and what stands
/// at the place with the right one in it.
#[derive(Drop)]
pub struct Ends {
    pub left: Rc<By>,
    pub right: Rc<By>,
    pub new: Term,
}
