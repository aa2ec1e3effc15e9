// The three drafts, as what reading needs of each.
ghost use Rattle.std.specs.Prelude.{◌≡◌, ℕ, List, None, Option};
ghost use Rattle.refusals.specs.declared.refusal.Refusal.{Refusal};
ghost use Rattle.runs.specs.Problems as runs;
ghost use Rattle.problem.specs.Tables.{axioms_drafted, rules_drafted, goals_drafted};
ghost use Rattle.file_format.specs.Fields.{axiom_in_value, rule_in_value, goal_in_value};
ghost use Rattle.file_format.specs.Reading.{take_value};
ghost use Rattle.problem_file.specs.declared.field.Tag.{Tag};
ghost use Rattle.problem_file.specs.Says.{tag_number};
ghost use Rattle.problem_file.specs.Next.{axiom_due, rule_due, goal_due};
ghost use Rattle.problem_file.specs.Records.{Reads, Drafts, HoldsAxiom, HoldsRule, HoldsGoal};

use crate::field::Tag;
use crate::labels::is_label;
use crate::records::{AxiomLists, GoalLists, LabelledRule, axiom_lists, goal_lists, rule_lists};
use problem::drafts::{AxiomDraft, GoalDraft, RuleDraft};
use refusals::refusal::Refusal;
use std::alloc::Global;

// A draft, and the tag of the fields that add to it. It is no part of `Drafting`: a constant there gets no proof where
// the record has the lifetime.
pub trait Tagged: Drop {
    const TAG: Tag;

    ghost TAG: { Tag };

    // What the draft has so far.
    ghost drafted: { Self → runs.Problem };
}

// A draft that is given records of one kind, each read from the value of a field.
pub trait Drafting<'a>: Tagged {
    type Record: Drop;

    // The value holds the record.
    ghost holds: { List ℕ → Self.Record → Type 0 };

    // Why a value is refused by itself and by the table's room.
    ghost due: { runs.Problem → List ℕ → Option Refusal };

    // The record in a value, judged by itself and by the table's room.
    fn read(&self, heap: Global, value: &'a [u8]) -> Result<Self::Record, Refusal>
        ensures { Reads (due (Self.drafted self.now) value.now) (take_value (tag_number Self.TAG) (Self.drafted self.now) value.now) (holds value.now) result };

    // A record that was read, taken into the table, or refused by what holds between the facts.
    fn take(&mut self, heap: Global, given: &Self::Record) -> Result<(), Refusal>
        ensures { (v : List ℕ) → holds v given.now → due (Self.drafted self.old) v ≡ None → Drafts (take_value (tag_number Self.TAG) (Self.drafted self.old) v) (Self.drafted self.old) result (Self.drafted self.new) };
}

impl Tagged for AxiomDraft {
    const TAG: Tag = Tag::Axiom;

    ghost use Rattle.problem_file.specs.declared.field.Tag.TheVariants.{Axiom};

    ghost TAG = { Axiom };

    ghost drafted = { axioms_drafted };
}

impl<'a> Drafting<'a> for AxiomDraft {
    type Record = AxiomLists;

    ghost holds = { HoldsAxiom };

    ghost due = { λ p v. axiom_due p (axiom_in_value v) };

    fn read(&self, heap: Global, value: &'a [u8]) -> Result<AxiomLists, Refusal> {
        let lists = axiom_lists(heap, value)?;
        self.judge_axiom(lists.lent())?;
        Ok(lists)
    }

    fn take(&mut self, heap: Global, given: &AxiomLists) -> Result<(), Refusal> {
        self.axiom(heap, given.lent())
    }
}

impl Tagged for RuleDraft {
    const TAG: Tag = Tag::Rule;

    ghost use Rattle.problem_file.specs.declared.field.Tag.TheVariants.{Rule};

    ghost TAG = { Rule };

    ghost drafted = { rules_drafted };
}

impl<'a> Drafting<'a> for RuleDraft {
    type Record = LabelledRule<'a>;

    ghost holds = { HoldsRule };

    ghost due = { λ p v. rule_due p (rule_in_value v) };

    fn read(&self, heap: Global, value: &'a [u8]) -> Result<LabelledRule<'a>, Refusal> {
        let labelled = rule_lists(heap, value)?;
        self.judge_rule(labelled.rule.lent())?;
        if !is_label(labelled.label) {
            return Err(Refusal::BadLabel);
        }
        Ok(labelled)
    }

    fn take(&mut self, heap: Global, given: &LabelledRule<'a>) -> Result<(), Refusal> {
        self.rule(heap, given.rule.lent())
    }
}

impl Tagged for GoalDraft {
    const TAG: Tag = Tag::Goal;

    ghost use Rattle.problem_file.specs.declared.field.Tag.TheVariants.{Goal};

    ghost TAG = { Goal };

    ghost drafted = { goals_drafted };
}

impl<'a> Drafting<'a> for GoalDraft {
    type Record = GoalLists;

    ghost holds = { HoldsGoal };

    ghost due = { λ p v. goal_due p (goal_in_value v) };

    fn read(&self, heap: Global, value: &'a [u8]) -> Result<GoalLists, Refusal> {
        let lists = goal_lists(heap, value)?;
        self.judge_goal(lists.lent())?;
        Ok(lists)
    }

    fn take(&mut self, heap: Global, given: &GoalLists) -> Result<(), Refusal> {
        self.goal(heap, given.lent())
    }
}
