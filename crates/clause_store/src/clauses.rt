// The clauses of a store, one after another.
ghost use Rattle.std.specs.Prelude.{◌≡◌, true, List, ℤ, length};
ghost use Rattle.std.specs.Iterator.{YieldsFirstRef, item_count};
ghost use Rattle.clause_store.specs.Flat.{cut_up, ordered};

use std::marker::Model;

// Contracts see the list of the clauses that are left.
#[derive(Drop)]
pub struct Clauses<'a> {
    pub(crate) start: usize,
    pub(crate) ends: &'a [usize],
    pub(crate) literals: &'a [i32],
}

impl<'a> Model for Clauses<'a> {
    ghost Value = { List (List ℤ) };

    ghost view = { λ c. cut_up c.start c.ends.now c.literals.now };

    ghost invariant = { λ c. ordered c.start c.ends.now (length c.literals.now) ≡ true };
}

impl<'a> Iterator for Clauses<'a> {
    type Item = &'a [i32];

    ghost next_gives = { YieldsFirstRef (λ left. left) };

    ghost remaining = { item_count (λ left. left) };

    #[tactic(auto, using(crate::specs::Sizes::ordered_below), unfolding(crate::specs::Flat::cut_up, crate::specs::Flat::ordered))]
    fn next(&mut self) -> Option<&'a [i32]> {
        let (end, later) = self.ends.split_first()?;
        let clause = &self.literals[self.start..*end];
        self.start = *end;
        self.ends = later;
        Some(clause)
    }
}
