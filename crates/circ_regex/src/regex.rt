//! Regular expressions.

/// A regular expression over the letters a and b.
#[derive(Drop)]
pub enum Regex {
    /// `0`: matches no word.
    Empty,
    /// `1`: matches the empty word.
    Eps,
    /// `a`: matches the letter a.
    A,
    /// `b`: matches the letter b.
    B,
    /// Matches what either part matches.
    Sum(Box<Regex>, Box<Regex>),
    /// Matches what the first part matches, and then what the second does.
    Product(Box<Regex>, Box<Regex>),
    /// Matches what its part matches, any number of times.
    Star(Box<Regex>),
}
