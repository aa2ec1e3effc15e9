// Records as plain lists, read from the values of fields.
ghost use Rattle.std.specs.Prelude.{◌≡◌, MatchResult};
ghost use Rattle.file_format.specs.Fields.{counted, axiom_in_value, rule_in_value, goal_in_value};
ghost use Rattle.problem.specs.Given.{given_axiom, given_rule, given_goal};
ghost use Rattle.problem_file.specs.Lists.{axiom_listed, rule_listed, labelled, goal_listed, Parts, ListsSay};
ghost use Rattle.refusals.specs.declared.refusal.Refusal.TheVariants.{OutOfMemory};

use problem::given::{GivenAxiom, GivenGoal, GivenRule};
use refusals::refusal::Refusal;
use std::alloc::Global;

// A record beside the byte at which its field began.
#[derive(Drop)]
pub struct Placed<R> {
    pub record: R,
    pub at: usize,
}

// Owned, as the lists of a GivenAxiom are lent: two types, as String and &str, since a parameter for the list would stand
// in every clause. So are the two below.
#[derive(Drop)]
pub struct AxiomLists {
    pub premises: Vec<u16>,
    pub conclusion: u16,
}

impl AxiomLists {
    pub(crate) fn lent(&self) -> GivenAxiom<'_>
        ensures { given_axiom result ≡ axiom_listed self.now }
    {
        GivenAxiom {
            premises: &self.premises,
            conclusion: self.conclusion,
        }
    }
}

#[derive(Drop)]
pub struct RuleLists {
    pub needed: Vec<u16>,
    pub forbidden: Vec<u16>,
    pub left: Vec<u16>,
}

impl RuleLists {
    pub(crate) fn lent(&self) -> GivenRule<'_>
        ensures { given_rule result ≡ rule_listed self.now }
    {
        GivenRule {
            needed: &self.needed,
            forbidden: &self.forbidden,
            left: &self.left,
        }
    }
}

// A rule with its label, which is handed on as the part of the file that it is.
#[derive(Drop)]
pub struct LabelledRule<'a> {
    pub rule: RuleLists,
    pub label: &'a [u8],
}

#[derive(Drop)]
pub struct GoalLists {
    pub wanted: Vec<u16>,
    pub unwanted: Vec<u16>,
}

impl GoalLists {
    pub(crate) fn lent(&self) -> GivenGoal<'_>
        ensures { given_goal result ≡ goal_listed self.now }
    {
        GivenGoal {
            wanted: &self.wanted,
            unwanted: &self.unwanted,
        }
    }
}

// A count, so many bytes, and what follows them.
fn counted(bytes: &[u8]) -> Option<(&[u8], &[u8])>
    ensures { Parts (counted bytes.now) result }
{
    let (count, rest) = bytes.split_first()?;
    rest.split_at_checked(usize::from(*count))
}

// The facts that bytes name.
pub(crate) fn facts(heap: Global, bytes: &[u8]) -> Result<Vec<u16>, Refusal>
    ensures { MatchResult result (λ v. v.items ≡ bytes.now) (λ e. e ≡ OutOfMemory) }
{
    Ok(bytes.iter().map(|b| u16::from(*b)).collect(heap)?)
}

pub(crate) fn axiom_lists(heap: Global, value: &[u8]) -> Result<AxiomLists, Refusal>
    ensures { ListsSay axiom_listed (axiom_in_value value.now) result }
{
    let (premises, rest) = counted(value).ok_or(Refusal::WrongLength)?;
    let [conclusion] = rest else {
        return Err(Refusal::WrongLength);
    };
    Ok(AxiomLists {
        premises: facts(heap, premises)?,
        conclusion: u16::from(*conclusion),
    })
}

pub(crate) fn rule_lists(heap: Global, value: &[u8]) -> Result<LabelledRule<'_>, Refusal>
    ensures { ListsSay labelled (rule_in_value value.now) result }
{
    let (needed, rest) = counted(value).ok_or(Refusal::WrongLength)?;
    let (forbidden, rest) = counted(rest).ok_or(Refusal::WrongLength)?;
    let (left, label) = counted(rest).ok_or(Refusal::WrongLength)?;
    let rule = RuleLists {
        needed: facts(heap, needed)?,
        forbidden: facts(heap, forbidden)?,
        left: facts(heap, left)?,
    };
    Ok(LabelledRule { rule, label })
}

pub(crate) fn goal_lists(heap: Global, value: &[u8]) -> Result<GoalLists, Refusal>
    ensures { ListsSay goal_listed (goal_in_value value.now) result }
{
    let (wanted, rest) = counted(value).ok_or(Refusal::WrongLength)?;
    let (unwanted, rest) = counted(rest).ok_or(Refusal::WrongLength)?;
    if !rest.is_empty() {
        return Err(Refusal::WrongLength);
    }
    Ok(GoalLists {
        wanted: facts(heap, wanted)?,
        unwanted: facts(heap, unwanted)?,
    })
}
