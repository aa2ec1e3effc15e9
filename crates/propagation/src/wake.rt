// One look at every clause, after which only clauses wait that a literal made false.
ghost use Rattle.std.specs.Prelude.{length};
ghost use Rattle.clause_store.specs.Made.{stood_of};
ghost use Rattle.trials.specs.Exist.{Within};
ghost use Rattle.forcing.specs.Boards.{assigned, trailed};
ghost use Rattle.propagation.specs.Waits.{Woken};

use clause_store::flat::variable;
use clause_store::store::Store;
use forcing::board::Board;
use forcing::judge::{Judgement, judge, sign};

// Where the board has every variable of the clauses, it forces what it sees, and answers false at a conflict.
pub fn wake(board: &mut Board, store: &Store) -> bool
    ensures { Within (length (assigned board.old)) (stood_of store.now).held → Woken (stood_of store.now).held (assigned board.old) (trailed board.old) result (assigned board.new) (trailed board.new) }
{
    // The same choice stands in `propagate`: a function for it would answer whether to go on, for both to ask again.
    'clauses: for clause in store.clauses() {
        match judge(board.values(), clause) {
            Judgement::Dead => return false,
            Judgement::Forces(lit) => board.put(variable(lit), sign(lit)),
            Judgement::Calm => {}
        }
    }
    true
}
