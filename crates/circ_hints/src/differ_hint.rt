//! The hint for a `differ` that finds no difference.
use crate::texts::{text_of, written};
use circ_read::read_theory;
use circ_theory::Theory;
use std::alloc::{AllocError, Global};
use std::fmt::Write;

/// What keeps `differ` from telling goals of a theory apart: the first sort that a derivative shows
/// and of which the theory has no cases. Empty if there is none, or the theory is not read.
pub fn no_difference(alloc: Global, theory: &[u8]) -> Result<String, AllocError> {
    match read_theory(alloc, theory) {
        Ok(theory) => without_cases(alloc, &theory),
        Err(_fault) => Ok(String::new(alloc)),
    }
}

fn without_cases(alloc: Global, theory: &Theory) -> Result<String, AllocError> {
    let mut out = String::new(alloc);
    let done = match sort_without_cases(theory) {
        Some(sort) => push_sort(&mut out, text_of(theory.sort_name(sort).unwrap_or(b""))),
        None => Ok(()),
    };
    written(out, done)
}

/// Appends what is said of a sort without cases.
fn push_sort(out: &mut String, name: &str) -> Result<(), AllocError> {
    writeln!(
        out,
        "circ: the theory has no `cases {name} by .. .`, so that no two constants of `{name}` differ"
    )
}

/// The first visible sort of a derivative that has no cases.
fn sort_without_cases(theory: &Theory) -> Option<u32> {
    for number in 0..theory.derivative_count() {
        if let Some(derivative) = theory.derivative(number) {
            let sort = derivative.sort();
            if !theory.is_hidden(sort) && theory.cases(sort).is_none() {
                return Some(sort);
            }
        }
    }
    None
}
