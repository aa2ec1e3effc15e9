// Literals, and clauses of them.
ghost use Rattle.std.specs.Prelude.{◌≡◌, ◌+◌, ◌<◌, ◌≤◌, true, false, [], ◌∷◌, ◌++◌, length, take};
ghost use Rattle.refusals.specs.Limits.{most_variables, longest_clause};
ghost use Rattle.holder.specs.Clauses.{literal_fine, all_fine};
ghost use Rattle.laying.specs.Lines.{signed};
ghost use Rattle.laying.specs.Written.{lits, value};

use crate::line::{Line, Literal, Literals};
use refusals::limits::{LONGEST_CLAUSE, MOST_VARIABLES};
use std::alloc::AllocError;

impl Literal {
    // A variable past the largest counts as the largest, and 0 as 1.
    pub fn new(positive: bool, variable: u32) -> Literal
        ensures { 0 < variable → variable ≤ most_variables → value result ≡ signed positive variable }
    {
        Literal {
            positive,
            variable: variable.min(MOST_VARIABLES).max(1),
        }
    }
}

// As clauses have it: the variable, or less than 0 if it is false.
impl From<Literal> for i32 {
    ghost from_gives = { λ l n. (n ≡ value l) × (literal_fine n ≡ true) };

    fn from(l: Literal) -> i32 {
        let variable = l.variable as i32;
        if l.positive { variable } else { -variable }
    }
}

impl Literals {
    // That variables are true. A name for each sign, as `is_some` and `is_none` are two.
    pub fn holding(past: u32) -> Literals
        ensures { (result.positive ≡ true) × (result.past ≡ past) }
    {
        Literals {
            positive: true,
            past,
        }
    }

    // That they are false.
    pub fn lacking(past: u32) -> Literals
        ensures { (result.positive ≡ false) × (result.past ≡ past) }
    {
        Literals {
            positive: false,
            past,
        }
    }

    // The one of the variable of this number.
    pub fn of(self, number: u32) -> Literal
        ensures { 0 < number → self.past + number ≤ most_variables → value result ≡ signed self.positive (self.past + number) }
    {
        Literal::new(self.positive, self.past.saturating_add(number))
    }
}

// By hand, so that a clone is promised to have the same literals.
impl Clone for Line {
    ghost is_clone = { λ l m. lits m ≡ lits l };

    ghost is_infallible = { λ _. Unit {0} };

    fn clone(&self) -> Result<Line, AllocError> {
        Ok(*self)
    }
}

impl Line {
    pub fn new() -> Line
        ensures { lits result ≡ [] }
    {
        Line {
            places: [0; LONGEST_CLAUSE],
            used: 0,
        }
    }

    // One literal more, while there is room.
    pub fn push(&mut self, l: Literal)
        ensures { lits self.new ≡ take longest_clause (lits self.old ++ value l ∷ []) }
    {
        if self.used < LONGEST_CLAUSE {
            self.places[self.used] = i32::from(l);
            self.used += 1;
        }
    }

    pub(crate) fn as_slice(&self) -> &[i32]
        ensures value { result.now ≡ lits self.now }
        ensures few { length result.now ≤ longest_clause }
        ensures fine { all_fine result.now ≡ true }
    {
        &self.places[..self.used]
    }
}
