// What makes a clause one that can be taken.
ghost use Rattle.std.specs.Prelude.{◌≡◌};
ghost use Rattle.holder.specs.Clauses.{literal_fine, proper};
ghost use Rattle.holder.specs.Widest as wide;

use refusals::limits::{LONGEST_CLAUSE, MOST_VARIABLES};

// The variable of a literal.
pub fn variable(lit: i32) -> usize
    ensures { result ≡ wide.variable lit }
{
    lit.unsigned_abs() as usize
}

fn fine(l: i32) -> bool
    ensures { result ≡ literal_fine l }
{
    (1..=MOST_VARIABLES).contains(&l.unsigned_abs())
}

// Whether a clause can be taken: by its length, and by the variable of each literal.
pub(crate) fn is_proper(clause: &[i32]) -> bool
    ensures { result ≡ proper clause.now }
{
    (1..=LONGEST_CLAUSE).contains(&clause.len()) && clause.iter().all(|l| fine(*l))
}
