//! What ranges of tokens spell, asked only of the ranges that a longer reading would use.
ghost use Rattle.std.specs.Prelude.{◌≡◌, ◌≤◌, ◌<◌, ◌+◌, ◌∷◌, ◌↔◌, length};
ghost use Rattle.std.specs.Prelude.{IfOk, OnOk, IsTrue};
ghost use Rattle.circ_term.specs.Tree.{Tree, Trees};
ghost use Rattle.circ_spelling.specs.declared.grammar.Symbol.TheVariants.{Word};
ghost use Rattle.circ_chart.specs.Few.{Enough, Or};
ghost use Rattle.circ_chart.specs.Members.{In, IsApart, KeepsTerms};
ghost use Rattle.circ_chart.specs.Places.{HaveTables};
ghost use Rattle.circ_spelling.specs.Words.{words, HaveWords};
ghost use Rattle.circ_spelling.specs.Limits.{most_tokens};
ghost use Rattle.circ_spelling.specs.Steps.{AreWords};
ghost use Rattle.circ_chart.specs.Reader.{IsReady, IsPart, IsHole, symbols_of, behind};
ghost use Rattle.circ_chart.specs.Reader.{TermsOver, ParenthesesOver, RulesOver};
ghost use Rattle.circ_chart.specs.Reader.{RowsOver, RestOver, LastOver, SplitOver, ArgumentsOver};

use crate::asked::{Gap, Part};
use crate::few::{Few, both, is_full};
use crate::levels::{Levels, is_above};
use crate::memo::{Memo, Question, kept, known_none, recalled};
use crate::places::{Tables, can_span, next_at, table_at};
use crate::rows::{last_rows, no_symbols, products};
use crate::variables::variables_over;
use crate::{CLOSING, EVERY, OPENING};
use circ_spelling::{Grammar, Rule, Starts, Step, Wanted, are_words, may_spell, step_at};
use std::alloc::{AllocError, Global};

/// What is read: tokens, by a grammar, with the tables of its rules.
#[derive(Clone, Copy)]
pub struct Reader<'a> {
    /// Where memory comes from.
    pub alloc: Global,
    /// The grammar.
    pub grammar: &'a Grammar,
    /// The tokens.
    pub tokens: &'a [u32],
    /// Where the words behind holes stand next.
    pub tables: &'a [Tables],
    /// Where terms may end.
    pub starts: &'a [Starts],
    /// How loosely the tokens bind.
    pub levels: &'a Levels,
}

// Whether the rule has terms of the sort and of a precedence below the bound.
fn fits(rule: &Rule, wanted: Wanted) -> bool
    ensures { IsTrue result ↔ (rule.now.sort ≡ wanted.sort) × (rule.now.prec < wanted.below) }
{
    if rule.sort != wanted.sort {
        return false;
    }
    rule.prec < wanted.below
}

impl Reader<'_> {
    /// The wanted terms that the tokens from `from` up to `to` spell.
    #[cycle(read)]
    pub fn terms(
        &self,
        memo: &mut Memo,
        wanted: Wanted,
        from: usize,
        to: usize,
    ) -> Result<Few, AllocError>
        requires ready { IsReady self.now memo.now }
        requires few { length self.now.tokens.now ≤ most_tokens }
        requires inside { to ≤ length self.now.tokens.now }
        requires before { from < to }
        ensures terms { IfOk result (λ v. KeepsTerms v (TermsOver self.now wanted from to)) }
        ensures ready { OnOk result (IsReady self.now memo.new) }
    {
        if !may_spell(self.starts, wanted.sort as usize, from, to) {
            return Ok(Few::Empty);
        }
        let question = Question::OfTerm {
            sort: wanted.sort,
            below: wanted.below,
        };
        let known = recalled(memo, question, from, to)?;
        if let Some(few) = known {
            return Ok(few);
        }
        let few = self.new_terms(memo, wanted, from, to)?;
        Ok(kept(self.alloc, memo, question, from, to, few)?)
    }

    // Whether no rule for these terms can span the range.
    fn spans_none(&self, wanted: Wanted, from: usize, to: usize) -> bool
        requires words { HaveWords self.now.grammar.now }
        requires tables { HaveTables self.now.tokens.now self.now.grammar.now.rules.items
            self.now.tables.now }
        requires before { from < to }
        requires inside { to ≤ length self.now.tokens.now }
        ensures { IsTrue result → (t : Tree) → RulesOver self.now wanted from to t → ⊥ }
    {
        for (number, rule) in self.grammar.rules.iter().enumerate() {
            if !fits(rule, wanted) {
                continue;
            }
            if can_span(self.tokens, self.tables, rule, number, from, to) {
                return false;
            }
        }
        true
    }

    // Whether a glance tells that the range has no such terms: it has two tokens or more, it does
    // not begin with a parenthesis, and no rule can span it.
    fn is_out(&self, wanted: Wanted, from: usize, to: usize) -> bool
        requires words { HaveWords self.now.grammar.now }
        requires tables { HaveTables self.now.tokens.now self.now.grammar.now.rules.items
            self.now.tables.now }
        requires inside { to ≤ length self.now.tokens.now }
        ensures { IsTrue result → (t : Tree) → TermsOver self.now wanted from to t → ⊥ }
    {
        if to <= from || to - from < 2 {
            return false;
        }
        if self.tokens[from] == OPENING {
            return false;
        }
        self.spans_none(wanted, from, to)
    }

    // Whether it is known that the range has no such terms.
    fn is_known_none(&self, memo: &Memo, wanted: Wanted, from: usize, to: usize) -> bool
        requires ready { IsReady self.now memo.now }
        requires inside { to ≤ length self.now.tokens.now }
        ensures { IsTrue result → (t : Tree) → TermsOver self.now wanted from to t → ⊥ }
    {
        if !may_spell(self.starts, wanted.sort as usize, from, to) {
            return true;
        }
        if is_above(self.levels, wanted.below, from, to) {
            return true;
        }
        match known_none(memo, wanted, from, to) {
            Some(is_none) => is_none,
            None => self.is_out(wanted, from, to),
        }
    }

    // Whether it is known that the symbols of a rule from a place on have no arguments: they are
    // one last hole, for which the range has no term.
    fn is_last_known_none(&self, memo: &Memo, part: Part<'_>, from: usize, to: usize) -> bool
        requires ready { IsReady self.now memo.now }
        requires inside { to ≤ length self.now.tokens.now }
        ensures { IsTrue result → (args : Trees) → ArgumentsOver self.now part.entry from to args
            → ⊥ }
    {
        match step_at(&part.rule.symbols, part.place) {
            Step::AtLast(wanted) => self.is_known_none(memo, wanted, from, to),
            _ => false,
        }
    }

    // The same, where a word may stand before the last hole.
    fn is_rest_known_none(&self, memo: &Memo, part: Part<'_>, from: usize, to: usize) -> bool
        requires ready { IsReady self.now memo.now }
        requires before { from < to }
        requires inside { to ≤ length self.now.tokens.now }
        requires place { part.place < length part.rule.now.symbols.items }
        ensures { IsTrue result → (args : Trees) → ArgumentsOver self.now part.entry from to args
            → ⊥ }
    {
        match step_at(&part.rule.symbols, part.place) {
            Step::AtWord(_) => {
                let next = Part {
                    place: part.place + 1,
                    ..part
                };
                self.is_last_known_none(memo, next, from + 1, to)
            }
            _ => self.is_last_known_none(memo, part, from, to),
        }
    }

    #[cycle(read)]
    fn new_terms(
        &self,
        memo: &mut Memo,
        wanted: Wanted,
        from: usize,
        to: usize,
    ) -> Result<Few, AllocError>
        requires ready { IsReady self.now memo.now }
        requires few { length self.now.tokens.now ≤ most_tokens }
        requires inside { to ≤ length self.now.tokens.now }
        requires before { from < to }
        ensures terms { IfOk result (λ v. KeepsTerms v (TermsOver self.now wanted from to)) }
        ensures ready { OnOk result (IsReady self.now memo.new) }
    {
        let all = &self.grammar.variables;
        let out = variables_over(self.tokens, all, wanted.sort, wanted.below, from, to);
        let out = self.in_parentheses(memo, out, wanted, from, to)?;
        Ok(self.by_rules(memo, out, wanted, from, to)?)
    }

    // The terms with those inside the parentheses of the range, if it has them.
    #[cycle(read)]
    fn in_parentheses(
        &self,
        memo: &mut Memo,
        out: Few,
        wanted: Wanted,
        from: usize,
        to: usize,
    ) -> Result<Few, AllocError>
        requires ready { IsReady self.now memo.now }
        requires few { length self.now.tokens.now ≤ most_tokens }
        requires inside { to ≤ length self.now.tokens.now }
        requires before { from < to }
        requires apart { IsApart out }
        ensures terms { IfOk result (λ v. KeepsTerms v (Or (In out)
            (ParenthesesOver self.now wanted from to))) }
        ensures ready { OnOk result (IsReady self.now memo.new) }
    {
        if wanted.below == 0 {
            return Ok(out);
        }
        if to - from < 3 {
            return Ok(out);
        }
        if self.tokens[from] != OPENING {
            return Ok(out);
        }
        if self.tokens[to - 1] != CLOSING {
            return Ok(out);
        }
        let any = Wanted {
            sort: wanted.sort,
            below: EVERY,
        };
        let inner = self.terms(memo, any, from + 1, to - 1)?;
        Ok(both(out, inner))
    }

    // The terms with those that the rules spell.
    #[cycle(read)]
    fn by_rules(
        &self,
        memo: &mut Memo,
        out: Few,
        wanted: Wanted,
        from: usize,
        to: usize,
    ) -> Result<Few, AllocError>
        requires ready { IsReady self.now memo.now }
        requires few { length self.now.tokens.now ≤ most_tokens }
        requires inside { to ≤ length self.now.tokens.now }
        requires before { from < to }
        requires apart { IsApart out }
        ensures terms { IfOk result (λ v. KeepsTerms v (Or (In out)
            (RulesOver self.now wanted from to))) }
        ensures ready { OnOk result (IsReady self.now memo.new) }
    {
        let mut all = out;
        let rules = self.grammar.rules.as_slice();
        for (number, rule) in rules.iter().enumerate() {
            if !fits(rule, wanted) {
                continue;
            }
            if !can_span(self.tokens, self.tables, rule, number, from, to) {
                continue;
            }
            let part = Part {
                rule,
                number,
                place: 0,
            };
            let rows = self.row(memo, part, from, to, to - from)?;
            all = both(all, rows);
            if is_full(&all) {
                return Ok(all);
            }
        }
        Ok(all)
    }

    // The rows of the symbols of a rule from a place on. A term that is asked for has fewer tokens
    // than `within`.
    #[cycle(read)]
    fn row(
        &self,
        memo: &mut Memo,
        part: Part<'_>,
        from: usize,
        to: usize,
        within: usize,
    ) -> Result<Few, AllocError>
        requires ready { IsReady self.now memo.now }
        requires few { length self.now.tokens.now ≤ most_tokens }
        requires inside { to ≤ length self.now.tokens.now }
        requires ahead { from ≤ to }
        requires rule { IsPart self.now part }
        requires room { to < from + within + words (symbols_of part) }
        requires within { to ≤ from + within }
        ensures rows { IfOk result (λ v. KeepsTerms v (RowsOver self.now part.entry from to)) }
        ensures ready { OnOk result (IsReady self.now memo.new) }
    {
        match step_at(&part.rule.symbols, part.place) {
            Step::AtEnd => Ok(no_symbols(self.alloc, part.rule, from, to)?),
            Step::AtWord(word) => Ok(self.after_word(memo, part, word, from, to, within)?),
            Step::AtLast(wanted) => Ok(self.last_hole(memo, part.rule, wanted, from, to, within)?),
            Step::AtHole(wanted) => {
                let gap = Gap { part, wanted };
                Ok(self.splits(memo, gap, from, to, within)?)
            }
        }
    }

    // The rows that begin with a word: those behind it, if it stands there.
    #[cycle(read)]
    fn after_word(
        &self,
        memo: &mut Memo,
        part: Part<'_>,
        word: u32,
        from: usize,
        to: usize,
        within: usize,
    ) -> Result<Few, AllocError>
        requires ready { IsReady self.now memo.now }
        requires few { length self.now.tokens.now ≤ most_tokens }
        requires inside { to ≤ length self.now.tokens.now }
        requires ahead { from ≤ to }
        requires rule { IsPart self.now part }
        requires word { symbols_of part ≡ Word word ∷ behind part }
        requires room { to < from + within + words (behind part) + 1 }
        requires within { to ≤ from + within }
        ensures rows { IfOk result (λ v. KeepsTerms v (RowsOver self.now part.entry from to)) }
        ensures ready { OnOk result (IsReady self.now memo.new) }
    {
        if from >= to {
            return Ok(Few::Empty);
        }
        if self.tokens[from] != word {
            return Ok(Few::Empty);
        }
        let next = Part {
            place: part.place + 1,
            ..part
        };
        Ok(self.row(memo, next, from + 1, to, within)?)
    }

    // The rows of a last hole, which takes the whole range.
    #[cycle(read)]
    fn last_hole(
        &self,
        memo: &mut Memo,
        rule: &Rule,
        wanted: Wanted,
        from: usize,
        to: usize,
        within: usize,
    ) -> Result<Few, AllocError>
        requires ready { IsReady self.now memo.now }
        requires few { length self.now.tokens.now ≤ most_tokens }
        requires inside { to ≤ length self.now.tokens.now }
        requires ahead { from ≤ to }
        requires room { to < from + within }
        ensures rows { IfOk result (λ v. KeepsTerms v (LastOver self.now rule.now wanted from to)) }
        ensures ready { OnOk result (IsReady self.now memo.new) }
    {
        if from == to {
            return Ok(Few::Empty);
        }
        let found = self.terms(memo, wanted, from, to)?;
        Ok(last_rows(self.alloc, rule, &found, to)?)
    }

    // The rows of symbols that begin with a hole and go on. From the first place of a rule they are
    // asked for once, with the term, and so they are not kept.
    #[cycle(read)]
    fn splits(
        &self,
        memo: &mut Memo,
        gap: Gap<'_>,
        from: usize,
        to: usize,
        within: usize,
    ) -> Result<Few, AllocError>
        requires ready { IsReady self.now memo.now }
        requires few { length self.now.tokens.now ≤ most_tokens }
        requires inside { to ≤ length self.now.tokens.now }
        requires ahead { from ≤ to }
        requires rule { IsPart self.now gap.part }
        requires hole { IsHole gap }
        requires place { gap.part.place + 1 < length gap.part.rule.now.symbols.items }
        requires room { to < from + within + words (behind gap.part) }
        requires within { to ≤ from + within }
        ensures rows { IfOk result (λ v. KeepsTerms v (RowsOver self.now gap.entry.part from to)) }
        ensures ready { OnOk result (IsReady self.now memo.new) }
    {
        let rest = &gap.part.rule.symbols[gap.part.place + 1..];
        if are_words(rest) {
            return Ok(self.before_words(memo, gap, rest.len(), from, to, within)?);
        }
        if gap.part.place == 0 {
            return Ok(self.new_splits(memo, gap, from, to, within)?);
        }
        Ok(self.kept_splits(memo, gap, from, to, within)?)
    }

    #[cycle(read)]
    fn kept_splits(
        &self,
        memo: &mut Memo,
        gap: Gap<'_>,
        from: usize,
        to: usize,
        within: usize,
    ) -> Result<Few, AllocError>
        requires ready { IsReady self.now memo.now }
        requires few { length self.now.tokens.now ≤ most_tokens }
        requires inside { to ≤ length self.now.tokens.now }
        requires ahead { from ≤ to }
        requires rule { IsPart self.now gap.part }
        requires hole { IsHole gap }
        requires place { gap.part.place + 1 < length gap.part.rule.now.symbols.items }
        requires room { to < from + within + words (behind gap.part) }
        requires within { to ≤ from + within }
        ensures rows { IfOk result (λ v. KeepsTerms v (RowsOver self.now gap.entry.part from to)) }
        ensures ready { OnOk result (IsReady self.now memo.new) }
    {
        let question = Question::OfRow {
            number: gap.part.number,
            place: gap.part.place,
        };
        let known = recalled(memo, question, from, to)?;
        if let Some(few) = known {
            return Ok(few);
        }
        let few = self.new_splits(memo, gap, from, to, within)?;
        Ok(kept(self.alloc, memo, question, from, to, few)?)
    }

    // So many words are behind the hole, which ends where they begin.
    #[cycle(read)]
    fn before_words(
        &self,
        memo: &mut Memo,
        gap: Gap<'_>,
        count: usize,
        from: usize,
        to: usize,
        within: usize,
    ) -> Result<Few, AllocError>
        requires ready { IsReady self.now memo.now }
        requires few { length self.now.tokens.now ≤ most_tokens }
        requires inside { to ≤ length self.now.tokens.now }
        requires ahead { from ≤ to }
        requires rule { IsPart self.now gap.part }
        requires hole { IsHole gap }
        requires place { gap.part.place + 1 < length gap.part.rule.now.symbols.items }
        requires room { to < from + within + words (behind gap.part) }
        requires within { to ≤ from + within }
        requires words { AreWords (behind gap.part) }
        requires count { count ≡ length (behind gap.part) }
        ensures rows { IfOk result (λ v. KeepsTerms v (RowsOver self.now gap.entry.part from to)) }
        ensures ready { OnOk result (IsReady self.now memo.new) }
    {
        if to - from <= count {
            return Ok(Few::Empty);
        }
        Ok(self.split(memo, gap, from, to - count, to, within)?)
    }

    // The hole ends at each place where the symbols behind it can begin.
    #[cycle(read)]
    fn new_splits(
        &self,
        memo: &mut Memo,
        gap: Gap<'_>,
        from: usize,
        to: usize,
        within: usize,
    ) -> Result<Few, AllocError>
        requires ready { IsReady self.now memo.now }
        requires few { length self.now.tokens.now ≤ most_tokens }
        requires inside { to ≤ length self.now.tokens.now }
        requires ahead { from ≤ to }
        requires rule { IsPart self.now gap.part }
        requires hole { IsHole gap }
        requires place { gap.part.place + 1 < length gap.part.rule.now.symbols.items }
        requires room { to < from + within + words (behind gap.part) }
        requires within { to ≤ from + within }
        ensures rows { IfOk result (λ v. KeepsTerms v (RowsOver self.now gap.entry.part from to)) }
        ensures ready { OnOk result (IsReady self.now memo.new) }
    {
        let table = table_at(self.tables, gap.part.number, gap.part.place);
        let mut out = Few::Empty;
        let mut middle = next_at(table, from + 1);
        while middle < to {
            let found = self.split(memo, gap, from, middle, to, within)?;
            out = both(out, found);
            if is_full(&out) {
                return Ok(out);
            }
            middle = next_at(table, middle + 1);
        }
        Ok(out)
    }

    // The rows whose first hole ends at `middle`. It is looked up first whether what is behind the
    // hole is known to be nothing, or its term. The symbols behind it are asked for before it.
    #[cycle(read)]
    fn split(
        &self,
        memo: &mut Memo,
        gap: Gap<'_>,
        from: usize,
        middle: usize,
        to: usize,
        within: usize,
    ) -> Result<Few, AllocError>
        requires ready { IsReady self.now memo.now }
        requires few { length self.now.tokens.now ≤ most_tokens }
        requires inside { to ≤ length self.now.tokens.now }
        requires low { from < middle }
        requires high { middle < to }
        requires rule { IsPart self.now gap.part }
        requires place { gap.part.place + 1 < length gap.part.rule.now.symbols.items }
        requires room { to < from + within + words (behind gap.part) }
        requires within { to ≤ from + within }
        ensures rows { IfOk result (λ v. KeepsTerms v
            (SplitOver self.now gap.entry from middle to)) }
        ensures ready { OnOk result (IsReady self.now memo.new) }
    {
        let next = Part {
            place: gap.part.place + 1,
            ..gap.part
        };
        if self.is_rest_known_none(memo, next, middle, to) {
            return Ok(Few::Empty);
        }
        if self.is_known_none(memo, gap.wanted, from, middle) {
            return Ok(Few::Empty);
        }
        let rest = self.row(memo, next, middle, to, within)?;
        Ok(self.before_rest(memo, gap, &rest, from, middle, to)?)
    }

    // The same, where these are the rows of the symbols behind the hole.
    #[cycle(read)]
    fn before_rest(
        &self,
        memo: &mut Memo,
        gap: Gap<'_>,
        rest: &Few,
        from: usize,
        middle: usize,
        to: usize,
    ) -> Result<Few, AllocError>
        requires ready { IsReady self.now memo.now }
        requires few { length self.now.tokens.now ≤ most_tokens }
        requires inside { to ≤ length self.now.tokens.now }
        requires low { from < middle }
        requires high { middle < to }
        requires rest { Enough (In rest.now) (RestOver self.now gap.part middle to) }
        ensures rows { IfOk result (λ v. KeepsTerms v
            (SplitOver self.now gap.entry from middle to)) }
        ensures ready { OnOk result (IsReady self.now memo.new) }
    {
        if let Few::Empty = rest {
            return Ok(Few::Empty);
        }
        let found = self.terms(memo, gap.wanted, from, middle)?;
        let rule = gap.part.rule;
        Ok(products(self.alloc, Few::Empty, rule.op, rule.sort, &found, rest)?)
    }
}
