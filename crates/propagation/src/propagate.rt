// Forcing that looks only at clauses with a literal that has become false.
ghost use Rattle.std.specs.Prelude.{◌≡◌};
ghost use Rattle.clause_store.specs.Made.{stood_of};
ghost use Rattle.forcing.specs.Boards.{assigned, trailed, ForcedTo};
ghost use Rattle.propagation.specs.Chains.{entry_of};
ghost use Rattle.propagation.specs.Made.{chains};
ghost use Rattle.propagation.specs.Waits as waiting;
ghost use Rattle.propagation.specs.Waits.{Ready};

use crate::index::{Entry, Index};
use clause_store::flat::variable;
use clause_store::store::Store;
use forcing::board::Board;
use forcing::judge::{Judgement, judge, sign, value_at};

impl Index {
    // Where the chain of the literal of v begins that is false where v has the value.
    fn against(&self, v: usize, value: Option<bool>) -> Option<u32>
        ensures { result ≡ waiting.against (chains self.now) v value }
    {
        let heads = self.heads.get(v)?;
        if value? {
            heads.negative
        } else {
            heads.positive
        }
    }

    // The entry at which a chain goes on.
    fn entry(&self, link: Option<u32>) -> Option<Entry>
        ensures { result ≡ entry_of (chains self.now) link }
    {
        self.entries.get(link? as usize).copied()
    }
}

// Forces to the end, or to a conflict: then it answers false. All but the clauses that wait for a variable set since `start` are to be calm.
pub fn propagate(board: &mut Board, store: &Store, index: &Index, start: usize) -> bool
    ensures { Ready (stood_of store.now).held (chains index.now) (assigned board.old) (trailed board.old) start → ForcedTo (stood_of store.now).held (assigned board.old) (trailed board.old) result (assigned board.new) (trailed board.new) }
{
    // By number, since the trail grows while the loop goes through it.
    let mut from = start;
    'queue: while let Some(v) = board.nth_set(from) {
        from += 1;
        let mut link = index.against(v, value_at(board.values(), v));
        'chain: while let Some(entry) = index.entry(link) {
            link = entry.next;
            // The same choice stands in `wake`: a function for it would answer whether to go on, for both to ask again.
            match judge(board.values(), store.clause(entry.owner)) {
                Judgement::Dead => return false,
                Judgement::Forces(lit) => board.put(variable(lit), sign(lit)),
                Judgement::Calm => {}
            }
        }
    }
    true
}
