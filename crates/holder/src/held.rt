// The calls of a holder, and what they mean.
ghost use Rattle.std.specs.Prelude.{◌≡◌};
ghost use Rattle.holder.specs.Clauses.{Stood, Fits, room_of};
ghost use Rattle.holder.specs.Answers.{Took, WasCut, LiteralAt};

use crate::size::Size;
use refusals::refusal::Refusal;

pub trait Holder: Drop {
    // The clauses held, the caps, and a rest that take and cut leave.
    ghost stood: { Self → Stood };

    // In order: makings give it, calls keep it, promises presuppose it.
    ghost orderly: { Self → Type 0 };

    fn caps(&self) -> Size
        ensures { result ≡ (stood self.now).limits };

    // The caps less what is held.
    fn room(&self) -> Size
        ensures { orderly self.now → result ≡ room_of (stood self.now) };

    // One clause more, at the end.
    fn take(&mut self, clause: &[i32]) -> Result<(), Refusal>
        ensures { orderly self.old → orderly self.new × Took (stood self.old) clause.now result (stood self.new) };

    // Keeps the first n clauses.
    fn cut(&mut self, n: usize) -> Result<(), Refusal>
        ensures { orderly self.old → orderly self.new × WasCut (stood self.old) n result (stood self.new) };

    // Literal j of clause i, both from 0.
    fn literal(&self, i: usize, j: usize) -> Result<i32, Refusal>
        ensures { orderly self.now → LiteralAt (stood self.now).held i j result };

    ghost within: { (s : Self) → orderly s → Fits (stood s) };
}
