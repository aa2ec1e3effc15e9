// Records as callers give them, and what each shows by itself.
ghost use Rattle.std.specs.Prelude.{◌≡◌, ◌+◌, not, ◌&&◌, length, nat_lt};
ghost use Rattle.problem.specs.Views.{axiom_in};
ghost use Rattle.problem.specs.Faults.{short};
ghost use Rattle.problem.specs.Given.{given_axiom, given_rule, given_goal};

use crate::lists::{all_facts, is_fact, is_short};

#[derive(Clone, Copy, Debug)]
pub struct GivenAxiom<'a> {
    pub premises: &'a [u16],
    pub conclusion: u16,
}

impl GivenAxiom<'_> {
    // Whether each number is a fact.
    pub(crate) fn is_in(self, facts: u16) -> bool
        ensures { result ≡ axiom_in facts (given_axiom self.entry) }
    {
        all_facts(self.premises, facts) && is_fact(self.conclusion, facts)
    }

    // Whether it has premises, and not too many.
    pub(crate) fn is_fitting(self) -> bool
        ensures { result ≡ (nat_lt 0 (length self.entry.premises.now) && short self.entry.premises.now) }
    {
        !self.premises.is_empty() && is_short(self.premises)
    }
}

#[derive(Clone, Copy, Debug)]
pub struct GivenRule<'a> {
    pub needed: &'a [u16],
    pub forbidden: &'a [u16],
    pub left: &'a [u16],
}

#[derive(Clone, Copy, Debug)]
pub struct GivenGoal<'a> {
    pub wanted: &'a [u16],
    pub unwanted: &'a [u16],
}

impl GivenGoal<'_> {
    pub(crate) fn is_empty(self) -> bool
        ensures { result ≡ not (nat_lt 0 (length self.entry.wanted.now + length self.entry.unwanted.now)) }
    {
        self.wanted.is_empty() && self.unwanted.is_empty()
    }
}
