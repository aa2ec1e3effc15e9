// The calls of a settler, and what they mean.
ghost use Rattle.std.specs.Prelude.{◌≡◌, ℕ, ◌≤◌, true, List, ℤ};
ghost use Rattle.settler.specs.Settling.{WasAllowed, WasSettled};

use crate::verdict::Verdict;
use holder::held::Holder;
use refusals::refusal::Refusal;

// Its allowance and its reach are the rest of what a holder stands for.
pub trait Settler: Holder {
    // Sets the allowance.
    fn allow(&mut self, n: u32) -> Result<(), Refusal>
        ensures { Self.Holder.orderly self.old → Self.Holder.orderly self.new × WasAllowed (Self.Holder.stood self.old) n result (Self.Holder.stood self.new) };

    // Whether the clauses have a model over the variables 1 to v; a model goes into the buffer.
    fn settle(&mut self, v: usize, buffer: &mut [u8]) -> Result<Verdict, Refusal>
        ensures { Self.Holder.orderly self.old → Self.Holder.orderly self.new × WasSettled (Self.Holder.stood self.old) v result buffer.old buffer.new (Self.Holder.stood self.new) };

    // What is reached is reached with a larger allowance.
    ghost grows: { (s : Self) (cs : List (List ℤ)) (v m n : ℕ) → m ≤ n → (Self.Holder.stood s).rest.reach cs v m ≡ true → (Self.Holder.stood s).rest.reach cs v n ≡ true };
}
