// The clause store: literals one after another, and where each clause ends, in memory that is reserved when it is made, so that taking a clause cannot fail for want of it.
ghost use Rattle.std.specs.Prelude.{◌≡◌, ◌≤◌, true, length, vec_len, vec_capacity};
ghost use Rattle.refusals.specs.Limits.{most_held};
ghost use Rattle.holder.specs.Clauses.{all_fine};
ghost use Rattle.clause_store.specs.Flat.{ordered};

use holder::size::Size;

#[derive(Drop)]
pub struct Store {
    pub(crate) literals: Vec<i32>,
    pub(crate) ends: Vec<usize>,
    pub(crate) most: Size,
    ghost capped: { most.literals ≤ most_held },
    ghost clause_room: { most.clauses ≤ vec_capacity ends },
    ghost literal_room: { most.literals ≤ vec_capacity literals },
    ghost few_clauses: { vec_len ends ≤ most.clauses },
    ghost few_literals: { vec_len literals ≤ most.literals },
    ghost in_order: { ordered 0 ends.items (length literals.items) ≡ true },
    ghost fine: { all_fine literals.items ≡ true },
}
