//! The variables that ranges of tokens are.
ghost use Rattle.std.specs.Prelude.{◌<◌};
ghost use Rattle.circ_chart.specs.Few.{Or};
ghost use Rattle.circ_chart.specs.Members.{In, IsApart, KeepsTerms};
ghost use Rattle.circ_chart.specs.Ways.{VariableHit, AnyVariable};

use crate::few::{Few, add};
use circ_spelling::Variable;
use circ_term::Term;

// The terms with the variable, if the range is its token.
fn with_variable(
    out: Few,
    tokens: &[u32],
    variable: &Variable,
    sort: u32,
    below: u8,
    from: usize,
    to: usize,
) -> Few
    requires { IsApart out }
    ensures { KeepsTerms result (Or (In out) (VariableHit tokens.now below sort from to
        variable.now)) }
{
    if below == 0 || from >= tokens.len() {
        return out;
    }
    if to != from + 1 || variable.sort != sort {
        return out;
    }
    if tokens[from] != variable.word {
        return out;
    }
    add(out, Term::var(variable.number, variable.sort))
}

// The terms of all variables that the token is.
fn any_variable(
    tokens: &[u32],
    variables: &[Variable],
    sort: u32,
    below: u8,
    from: usize,
    to: usize,
) -> Few
    ensures { KeepsTerms result (AnyVariable tokens.now below sort from to variables.now) }
{
    let mut out = Few::Empty;
    for variable in variables {
        out = with_variable(out, tokens, variable, sort, below, from, to);
    }
    out
}

/// The variables of a sort that the tokens from `from` up to `to` are. A range of more than one
/// token is none.
pub fn variables_over(
    tokens: &[u32],
    all: &[Variable],
    sort: u32,
    below: u8,
    from: usize,
    to: usize,
) -> Few
    requires { from < to }
    ensures { KeepsTerms result (AnyVariable tokens.now below sort from to all.now) }
{
    if to - from > 1 {
        return Few::Empty;
    }
    any_variable(tokens, all, sort, below, from, to)
}
