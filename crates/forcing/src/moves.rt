// Setting variables, and opening them again.
ghost use Rattle.std.specs.Prelude.{◌≡◌, ℕ, ◌+◌, ◌-◌, ◌<◌, ◌≤◌, min, List, [], ◌∷◌, ◌++◌, length, take, drop, set, replicate, IfOk, None, vec_capacity, slice_get, slice_index, slice_set};
ghost use Rattle.refusals.specs.Limits.{most_variables};
ghost use Rattle.forcing.specs.Boards as boards;
ghost use Rattle.forcing.specs.Boards.{assigned, trailed, unset, WasPut};

use crate::board::Board;
use refusals::limits::MOST_VARIABLES;
use std::alloc::{AllocError, Global};

// So many copies, as far as the reserved memory goes. The index of propagation is filled by it too.
pub fn fill<T: Copy>(list: &mut Vec<T>, item: T, count: usize)
    ensures items { list.new.items ≡ replicate (min count (vec_capacity list.old)) item }
    ensures capacity { vec_capacity list.new ≡ vec_capacity list.old }
{
    list.clear();
    for _ in 0..count.min(list.capacity()) {
        list.push_reserved(item);
    }
}

fn settable(values: &[Option<bool>], v: usize, value: Option<bool>) -> bool
    ensures { result ≡ boards.settable values.now v value }
{
    v < values.len() && values[v].is_none() && value.is_some()
}

impl Board {
    // Has no variable.
    pub fn new(heap: Global) -> Result<Board, AllocError>
        ensures { IfOk result (λ b. (assigned b ≡ []) × (trailed b ≡ [])) }
    {
        let places = MOST_VARIABLES as usize + 1;
        let values = Vec::with_capacity(heap, places)?;
        let trail = Vec::with_capacity(heap, places)?;
        Ok(Board { values, trail })
    }

    // All variables to n are open; there are none over the largest.
    pub fn clear(&mut self, n: usize)
        ensures values { assigned self.new ≡ replicate (min n most_variables + 1) None }
        ensures trail { trailed self.new ≡ [] }
    {
        self.trail.clear();
        fill(&mut self.values, None, n.min(MOST_VARIABLES as usize) + 1);
    }

    // How many variables are set.
    pub fn mark(&self) -> usize
        ensures { result ≡ length (trailed self.now) }
    {
        self.trail.len()
    }

    // The value of each variable, at its number.
    pub fn values(&self) -> &[Option<bool>]
        ensures { result.now ≡ assigned self.now }
    {
        self.values.as_slice()
    }

    // The variable that was set as number k, from 0, where there is one.
    pub fn nth_set(&self, k: usize) -> Option<usize>
        ensures { result ≡ slice_get (trailed self.now) k }
    {
        self.trail.get(k).copied()
    }

    // The same for those to whom no variable is 0, of which the board has no value.
    pub fn set_at(&self, k: usize) -> usize
        ensures { result ≡ slice_index (trailed self.now) k }
    {
        self.nth_set(k).unwrap_or(0)
    }

    // Sets an open variable; leaves one that is set, or that there is not.
    #[tactic(auto, using(crate::proofs::Puts::put_fewer))]
    pub fn put(&mut self, v: usize, value: Option<bool>)
        ensures { WasPut (assigned self.old) (trailed self.old) v value (assigned self.new) (trailed self.new) }
    {
        if settable(&self.values, v, value) {
            self.values[v] = value;
            self.trail.push_reserved(v);
        }
    }

    // Opens the variable that was set last.
    fn reopen(&mut self)
        requires { 0 < length (trailed self.old) }
        ensures values { assigned self.new ≡ slice_set (assigned self.old) (slice_index (trailed self.old) (length (trailed self.old) - 1)) None }
        ensures trail { trailed self.new ≡ take (length (trailed self.old) - 1) (trailed self.old) }
    {
        if let Some(v) = self.trail.pop() {
            if let Some(value) = self.values.get_mut(v) {
                *value = None;
            }
        }
    }

    // Opens the variables that were set since the mark.
    pub fn undo(&mut self, mark: usize)
        ensures values { assigned self.new ≡ unset (assigned self.old) (drop mark (trailed self.old)) }
        ensures trail { trailed self.new ≡ take mark (trailed self.old) }
    {
        while self.mark() > mark {
            self.reopen();
        }
    }
}
