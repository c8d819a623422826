//! Mixfix terms read from tokens.
//!
//! An operator of a theory is spelled by its form, a variable by its name. What a list of tokens
//! spells is defined in `specs`, as a relation between lists and terms with named variables, which
//! knows no table and no places. A reading is such a term with its variables numbered by first
//! occurrence.
#![tactic(auto)]

mod candidates;
mod choices;
mod few;
mod grammars;
mod least;
mod numbered;
mod numbering;
mod parse;
pub mod print_laws;
mod printing;
mod reach;
mod rules;
mod spelling;
mod tokens;
mod variable_names;
mod variables;
mod words;

pub use circ_chart::{EVERY, MOST_TOKENS};
pub use few::Reading;
pub use parse::{
    ParseFault, parse_list, parse_list_declared, parse_one, parse_one_declared, parse_pair,
    parse_pair_declared,
};
pub use printing::{print, print_derivative, print_goal, print_pair};

// The number of the hole's name, which is the empty text, among the texts of tokens.
const HOLE: u32 = 2;
