//! `sort` and `sorts`.
ghost use Rattle.std.specs.Prelude.{◌≡◌};
ghost use Rattle.circ_lexer.specs.TokenList.{tokens_in, IsWithin};
ghost use Rattle.circ_read.specs.Outcomes.{sort_added, all_added};
ghost use Rattle.circ_read.specs.Steps.{StepAnswers};

use crate::cause::{Fault, done};
use crate::names::word;
use circ_lexer::{Span, Tokens};
use circ_theory::Theory;

pub(crate) fn add_sorts(theory: &mut Theory, tokens: &Tokens<'_>, names: Span) -> Result<(), Fault>
    requires { IsWithin tokens.now names }
    ensures { StepAnswers result theory.new (λ r. r ≡
        all_added sort_added theory.old (tokens_in tokens.now names)) }
{
    for n in names.from..names.to {
        match add_sort(theory, word(tokens, n)) {
            Ok(()) => {}
            Err(fault) => return Err(fault),
        }
    }
    Ok(())
}

fn add_sort(theory: &mut Theory, name: &[u8]) -> Result<(), Fault>
    ensures { StepAnswers result theory.new (λ r. r ≡ sort_added theory.old name.now) }
{
    done(theory.add_sort(name))
}
