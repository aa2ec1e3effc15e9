// The calls of the clause store.
ghost use Rattle.std.specs.Prelude.{◌≡◌, ◌<◌, ◌≤◌, ◌^◌, min, [], length, IfOk, slice_index_or};
ghost use Rattle.std.proofs.Common.{arith};
ghost use Rattle.refusals.specs.Limits.{most_held};
ghost use Rattle.holder.specs.Clauses as clauses;
ghost use Rattle.holder.specs.Widest as wide;
ghost use Rattle.clause_store.specs.Made.{stood_of, no_rest};
ghost use Rattle.clause_store.specs.Flat.{end_of};
ghost use Rattle.clause_store.specs.Sizes.{length-cut_up, size-cut_up};

use crate::clauses::Clauses;
use crate::flat;
use crate::store::Store;
use holder::held::Holder;
use holder::size::Size;
use refusals::limits::MOST_HELD;
use refusals::refusal::Refusal;
use std::alloc::{AllocError, Global};

impl Store {
    // Holds nothing; a cap over the largest counts as that.
    #[tactic(auto, unfolding(crate::specs::Flat::ordered, crate::specs::Flat::cut_up))]
    pub fn new(heap: Global, clauses: usize, literals: usize) -> Result<Store, AllocError>
        ensures { IfOk result (λ s. stood_of s ≡ record { held = []; limits = record { clauses = min clauses most_held; literals = min literals most_held }; rest = no_rest }) }
    {
        let most = Size {
            clauses: clauses.min(MOST_HELD),
            literals: literals.min(MOST_HELD),
        };
        let ends = Vec::with_capacity(heap, most.clauses)?;
        let kept = Vec::with_capacity(heap, most.literals)?;
        Ok(Store {
            literals: kept,
            ends,
            most,
        })
    }

    // How many clauses are held.
    #[tactic(auto, using(crate::proofs::Cuts::sizes))]
    pub fn count(&self) -> usize
        ensures { result ≡ length (stood_of self.now).held }
    {
        self.ends.len()
    }

    // How many literals are held in all.
    #[tactic(auto, using(crate::proofs::Cuts::sizes))]
    pub fn size(&self) -> usize
        ensures value { result ≡ clauses.size (stood_of self.now).held }
        ensures few { result ≤ most_held }
    {
        self.literals.len()
    }

    // Where the first n clauses end.
    #[tactic(auto, using(crate::proofs::Cuts::ends))]
    fn end_of(&self, n: usize) -> usize
        requires { n ≤ length self.now.ends.items }
        ensures { result ≡ end_of 0 n self.now.ends.items }
    {
        if n == 0 { 0 } else { self.ends[n - 1] }
    }

    // Clause i, from 0; empty beyond the list.
    #[tactic(auto, using(crate::proofs::Cuts::places))]
    pub fn clause(&self, i: usize) -> &[i32]
        ensures { result.now ≡ slice_index_or (stood_of self.now).held i [] }
    {
        let Some(end) = self.ends.get(i) else {
            return &[];
        };
        &self.literals[self.end_of(i)..*end]
    }

    // The clauses in order; they can be counted in a usize.
    #[tactic(auto, using(crate::proofs::Cuts::sizes))]
    pub fn clauses(&self) -> Clauses<'_>
        ensures value { result ≡ (stood_of self.now).held }
        ensures few { length result < 2 ^ 64 }
    {
        Clauses {
            start: 0,
            ends: &self.ends,
            literals: &self.literals,
        }
    }

    // The largest variable held; 0 if no clause is.
    pub fn widest(&self) -> usize
        ensures { result ≡ wide.widest (stood_of self.now).held }
    {
        let variables = self.literals.iter().map(|l| flat::variable(*l));
        variables.max().unwrap_or(0)
    }
}

impl Holder for Store {
    ghost stood = { stood_of };

    ghost orderly = { λ _. Unit {0} };

    ghost within = { λ s _.
        let es = s.ends.items in
        let xs = s.literals.items in
        record {
          clauses = omega (arith, length-cut_up 0 es xs, s.few_clauses, s.ends.ok.0);
          literals = omega (arith, size-cut_up 0 es xs s.in_order, s.few_literals, s.literals.ok.0);
        } };

    fn caps(&self) -> Size {
        self.most
    }

    #[tactic(auto, using(crate::proofs::Cuts::sizes))]
    fn room(&self) -> Size {
        Size {
            clauses: self.most.clauses - self.ends.len(),
            literals: self.most.literals - self.literals.len(),
        }
    }

    #[tactic(auto, using(crate::proofs::Cuts::taking))]
    fn take(&mut self, clause: &[i32]) -> Result<(), Refusal> {
        if !flat::is_proper(clause) {
            return Err(Refusal::BadClause);
        }
        let size = Size {
            clauses: 1,
            literals: clause.len(),
        };
        if !size.fits(self.room()) {
            return Err(Refusal::NoRoom);
        }
        // Memory for it is reserved, so this does not fail.
        self.literals.extend_from_slice(clause)?;
        self.ends.push_reserved(self.literals.len());
        Ok(())
    }

    #[tactic(auto, using(crate::proofs::Cuts::cutting))]
    fn cut(&mut self, n: usize) -> Result<(), Refusal> {
        if n > self.ends.len() {
            return Err(Refusal::CutBeyond);
        }
        let end = self.end_of(n);
        self.ends.truncate(n);
        self.literals.truncate(end);
        Ok(())
    }

    fn literal(&self, i: usize, j: usize) -> Result<i32, Refusal> {
        let literal = self.clause(i).get(j).copied();
        literal.ok_or(Refusal::BeyondList)
    }
}
