// What clauses can be laid in: a holder, or a meter that only counts them.
ghost use Rattle.std.specs.Prelude.{◌≡◌, true, List, [], ◌∷◌, ◌++◌, ℤ};
ghost use Rattle.holder.specs.Clauses.{proper};
ghost use Rattle.laying.specs.Laid.{Laid};
ghost use Rattle.laying.specs.Metered.{Metered};
ghost use Rattle.laying.specs.Grown.{laid_none, laid_then, metered_none, metered_then};

use crate::meter::Meter;
use holder::held::Holder;

pub trait Taker: Drop {
    // The first becomes the last when the clauses are laid, in their order.
    ghost grew: { Self → List (List ℤ) → Self → Type 0 };

    // One clause more, if it is one that can be taken.
    fn lay(&mut self, clause: &[i32])
        ensures { proper clause.now ≡ true → grew self.old (clause.now ∷ []) self.new };

    ghost none: { (s : Self) → grew s [] s };

    ghost more: { (s t u : Self) (a b : List (List ℤ)) → grew s a t → grew t b u → grew s (a ++ b) u };
}

impl<H: Holder> Taker for H {
    ghost grew = { λ s cs t. Laid (H.Holder.orderly s) (H.Holder.stood s) cs (H.Holder.orderly t) (H.Holder.stood t) };

    ghost none = { λ s. laid_none _ _ };

    ghost more = { λ s t u a b x y. laid_then a b x y };

    fn lay(&mut self, clause: &[i32]) {
        let _ = self.take(clause);
    }
}

impl Taker for Meter {
    ghost grew = { λ s cs t. Metered s cs t };

    ghost none = { metered_none };

    ghost more = { λ s t u a b x y. metered_then s t u a b x y };

    fn lay(&mut self, clause: &[i32]) {
        self.add(clause.len());
    }
}
