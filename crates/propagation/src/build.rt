// Making the index of a store's clauses.
ghost use Rattle.std.specs.Prelude.{◌≡◌, ℕ, ◌+◌, ◌<◌, ◌≤◌, length, IfOk};
ghost use Rattle.refusals.specs.Limits.{most_variables, most_held};
ghost use Rattle.holder.specs.Clauses.{size};
ghost use Rattle.holder.specs.Widest as wide;
ghost use Rattle.clause_store.specs.Made.{stood_of};
ghost use Rattle.trials.specs.Exist.{Within, WithinClause};
ghost use Rattle.propagation.specs.Chains.{begins, begun, no_chains, added, added_clause, Indexes};
ghost use Rattle.propagation.specs.Made.{chains};

use crate::index::{Entry, Heads, Index};
use clause_store::flat::variable;
use clause_store::store::Store;
use forcing::moves::fill;
use refusals::limits::MOST_VARIABLES;
use std::alloc::{AllocError, Global};

impl Heads {
    // The chain of the literal begins at an entry; the answer is where it began before.
    fn begin(&mut self, lit: i32, entry: u32) -> Option<u32>
        ensures before { result ≡ begun self.old lit }
        ensures after { self.new ≡ begins self.old lit entry }
    {
        if lit >= 0 {
            self.positive.replace(entry)
        } else {
            self.negative.replace(entry)
        }
    }
}

impl Index {
    // Room for so many literals.
    pub fn new(heap: Global, literals: usize) -> Result<Index, AllocError>
        ensures { IfOk result (λ x. x.most ≡ literals) }
    {
        let heads = Vec::with_capacity(heap, MOST_VARIABLES as usize + 1)?;
        let entries = Vec::with_capacity(heap, literals)?;
        Ok(Index {
            heads,
            entries,
            most: literals,
        })
    }

    fn clear(&mut self, places: usize)
        requires { places ≤ most_variables + 1 }
        ensures value { chains self.new ≡ no_chains places }
        ensures most { self.new.most ≡ self.old.most }
    {
        let none = Heads {
            positive: None,
            negative: None,
        };
        self.entries.clear();
        fill(&mut self.heads, none, places);
    }

    // One entry more, at the front of its chain.
    fn add(&mut self, lit: i32, owner: usize)
        requires listed { wide.variable lit < length self.old.heads.items }
        requires room { length self.old.entries.items < self.old.most }
        requires few { length self.old.entries.items < most_held }
        ensures value { chains self.new ≡ added (chains self.old) lit owner }
        ensures most { self.new.most ≡ self.old.most }
    {
        let entry = self.entries.len() as u32;
        let next = self.heads[variable(lit)].begin(lit, entry);
        self.entries.push_reserved(Entry { owner, next });
    }

    fn add_clause(&mut self, clause: &[i32], i: usize)
        requires within { WithinClause (length self.old.heads.items) clause.now }
        requires room { length self.old.entries.items + length clause.now ≤ self.old.most }
        requires few { length self.old.entries.items + length clause.now ≤ most_held }
        ensures value { chains self.new ≡ added_clause (chains self.old) clause.now i }
        ensures most { self.new.most ≡ self.old.most }
    {
        for lit in clause {
            self.add(*lit, i);
        }
    }

    fn list_all(&mut self, store: &Store, n: usize)
        requires few { n ≤ most_variables }
        requires within { Within (n + 1) (stood_of store.now).held }
        requires room { size (stood_of store.now).held ≤ self.old.most }
        requires held { size (stood_of store.now).held ≤ most_held }
        ensures value { Indexes (stood_of store.now).held (n + 1) (chains self.new) }
        ensures most { self.new.most ≡ self.old.most }
    {
        self.clear(n + 1);
        for (i, clause) in store.clauses().enumerate() {
            self.add_clause(clause, i);
        }
    }

    // The index of all clauses, over the variables up to n, where there is room for it.
    pub fn build(&mut self, store: &Store, n: usize)
        ensures value { n ≤ most_variables → wide.widest (stood_of store.now).held ≤ n → size (stood_of store.now).held ≤ self.old.most → Indexes (stood_of store.now).held (n + 1) (chains self.new) }
        ensures most { self.new.most ≡ self.old.most }
    {
        if n <= MOST_VARIABLES as usize && store.widest() <= n && store.size() <= self.most {
            self.list_all(store, n);
        }
    }
}
