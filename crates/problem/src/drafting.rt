// What drafts take and refuse.
ghost use Rattle.std.specs.Prelude.{◌≡◌, ◌+◌, ◌<◌, true, ◌&&◌, [], length, None, MatchResult};
ghost use Rattle.std.specs.Option.{unwrap_or};
ghost use Rattle.std.specs.Result.{result_err};
ghost use Rattle.refusals.specs.declared.refusal.Refusal.TheVariants.{OutOfMemory, Missing};
ghost use Rattle.problem.specs.Lists.{rises};
ghost use Rattle.problem.specs.Views.{rule_view, goal_view};
ghost use Rattle.problem.specs.Given.{given_axiom, given_rule, given_goal};
ghost use Rattle.problem.specs.Faults.{short, start_fault, axiom_shape, axiom_fault, rule_shape, rule_fault, goal_shape, goal_fault, Says};
ghost use Rattle.problem.specs.Tables.{axioms_drafted, rules_drafted, goals_drafted, view, with_axiom, with_rule, with_goal};

use crate::drafts::{AxiomDraft, GoalDraft, Problem, RuleDraft, Unfinished};
use crate::given::{GivenAxiom, GivenGoal, GivenRule};
use crate::judging::{judge_lists, judge_shape, judge_start};
use crate::lists::{all_below, in_order};
use crate::parts::{Axiom, FactList, Goal, Rule};
use refusals::limits::{MOST_AXIOMS, MOST_GOALS, MOST_RULES};
use refusals::refusal::Refusal;
use std::alloc::Global;

// Copies are made by functions of their own: TryFrom is passed no memory, and can presuppose nothing.
impl FactList {
    fn copied(heap: Global, list: &[u16]) -> Result<FactList, Refusal>
        requires { rises 0 list.now ≡ true }
        ensures { MatchResult result (λ l. l.items.items ≡ list.now) (λ e. e ≡ OutOfMemory) }
    {
        let items = Vec::from_slice(heap, list)?;
        Ok(FactList { items })
    }
}

impl Rule {
    fn copied(heap: Global, given: GivenRule<'_>) -> Result<Rule, Refusal>
        requires rising { (rises 0 given.needed.now && (rises 0 given.forbidden.now && rises 0 given.left.now)) ≡ true }
        requires few { (short given.needed.now && (short given.forbidden.now && short given.left.now)) ≡ true }
        ensures { MatchResult result (λ x. rule_view x ≡ given_rule given.entry) (λ e. e ≡ OutOfMemory) }
    {
        let needed = FactList::copied(heap, given.needed)?;
        let forbidden = FactList::copied(heap, given.forbidden)?;
        let left = FactList::copied(heap, given.left)?;
        Ok(Rule {
            needed,
            forbidden,
            left,
        })
    }
}

impl Goal {
    fn copied(heap: Global, given: GivenGoal<'_>) -> Result<Goal, Refusal>
        requires rising { (rises 0 given.wanted.now && rises 0 given.unwanted.now) ≡ true }
        requires few { (short given.wanted.now && short given.unwanted.now) ≡ true }
        requires some { 0 < length given.wanted.now + length given.unwanted.now }
        ensures { MatchResult result (λ x. goal_view x ≡ given_goal given.entry) (λ e. e ≡ OutOfMemory) }
    {
        let wanted = FactList::copied(heap, given.wanted)?;
        let unwanted = FactList::copied(heap, given.unwanted)?;
        Ok(Goal { wanted, unwanted })
    }
}

impl AxiomDraft {
    // Facts are 1 to `facts`; `start` has those of state 0 before the axioms.
    pub fn open(heap: Global, facts: u16, start: &[u16]) -> Result<AxiomDraft, Refusal>
        ensures { MatchResult result (λ d. (start_fault facts start.now ≡ None) × (axioms_drafted d ≡ record { facts = facts; start = start.now; axioms = []; rules = []; goals = [] })) (λ e. e ≡ unwrap_or (start_fault facts start.now) OutOfMemory) }
    {
        judge_start(facts, start)?;
        let start = FactList::copied(heap, start)?;
        Ok(AxiomDraft {
            facts,
            start,
            axioms: Vec::new(heap),
        })
    }

    // What is wrong with an axiom by itself and by the table's room, in the order of the numbers.
    pub fn judge_axiom(&self, given: GivenAxiom<'_>) -> Result<(), Refusal>
        ensures { result_err result ≡ axiom_shape (axioms_drafted self.now) (given_axiom given.entry) }
    {
        judge_shape(
            given.is_in(self.facts),
            in_order(given.premises),
            given.is_fitting(),
            self.axioms.len() < MOST_AXIOMS,
        )
    }

    // One axiom more.
    pub fn axiom(&mut self, heap: Global, given: GivenAxiom<'_>) -> Result<(), Refusal>
        ensures { Says (axiom_fault (axioms_drafted self.old) (given_axiom given.entry)) (with_axiom (axioms_drafted self.old) (given_axiom given.entry)) (axioms_drafted self.old) (axioms_drafted self.new) result }
    {
        self.judge_axiom(given)?;
        if !all_below(given.premises, given.conclusion) {
            return Err(Refusal::LowConclusion);
        }
        let premises = FactList::copied(heap, given.premises)?;
        self.axioms.push(Axiom {
            premises,
            conclusion: given.conclusion,
        })?;
        Ok(())
    }

    // The axioms are complete.
    pub fn rules(self, heap: Global) -> RuleDraft
        ensures { rules_drafted result ≡ axioms_drafted self }
    {
        RuleDraft {
            ground: self,
            rules: Vec::new(heap),
        }
    }
}

impl RuleDraft {
    // What is wrong with a rule by itself and by the table's room, in the order of the numbers.
    pub fn judge_rule(&self, given: GivenRule<'_>) -> Result<(), Refusal>
        ensures { result_err result ≡ rule_shape (rules_drafted self.now) (given_rule given.entry) }
    {
        judge_lists(
            &[given.needed, given.forbidden, given.left],
            self.ground.facts,
            self.rules.len() < MOST_RULES,
        )
    }

    // One rule more.
    pub fn rule(&mut self, heap: Global, given: GivenRule<'_>) -> Result<(), Refusal>
        ensures { Says (rule_fault (rules_drafted self.old) (given_rule given.entry)) (with_rule (rules_drafted self.old) (given_rule given.entry)) (rules_drafted self.old) (rules_drafted self.new) result }
    {
        self.judge_rule(given)?;
        if given.takes_from_any(&self.ground.axioms) {
            return Err(Refusal::RemovesAxiomFact);
        }
        if given.bars_any(&self.ground.axioms) {
            return Err(Refusal::ForbidsConclusion);
        }
        self.rules.push(Rule::copied(heap, given)?)?;
        Ok(())
    }

    // The rules are complete.
    pub fn goals(self, heap: Global) -> GoalDraft
        ensures { goals_drafted result ≡ rules_drafted self }
    {
        GoalDraft {
            ground: self,
            goals: Vec::new(heap),
        }
    }
}

impl GoalDraft {
    // What is wrong with a goal by itself and by the table's room, in the order of the numbers.
    pub fn judge_goal(&self, given: GivenGoal<'_>) -> Result<(), Refusal>
        ensures { result_err result ≡ goal_shape (goals_drafted self.now) (given_goal given.entry) }
    {
        judge_lists(
            &[given.wanted, given.unwanted],
            self.ground.ground.facts,
            self.goals.len() < MOST_GOALS,
        )
    }

    // One goal more.
    pub fn goal(&mut self, heap: Global, given: GivenGoal<'_>) -> Result<(), Refusal>
        ensures { Says (goal_fault (goals_drafted self.old) (given_goal given.entry)) (with_goal (goals_drafted self.old) (given_goal given.entry)) (goals_drafted self.old) (goals_drafted self.new) result }
    {
        self.judge_goal(given)?;
        if given.is_empty() {
            return Err(Refusal::EmptyGoal);
        }
        self.goals.push(Goal::copied(heap, given)?)?;
        Ok(())
    }

    // The goals are complete; without one the draft is handed back.
    pub fn finish(self) -> Result<Problem, Unfinished>
        ensures { MatchResult result (λ p. view p ≡ goals_drafted self) (λ e. (e.draft ≡ self) × (e.refusal ≡ Missing) × ((goals_drafted self).goals ≡ [])) }
    {
        if self.goals.is_empty() {
            return Err(Unfinished {
                draft: self,
                refusal: Refusal::Missing,
            });
        }
        Ok(Problem { tables: self })
    }
}
