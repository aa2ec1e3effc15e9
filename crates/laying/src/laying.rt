// Clauses of one literal, of two, and of a line.
ghost use Rattle.std.specs.Prelude.{◌≡◌, ◌<◌, [], ◌∷◌, length};
ghost use Rattle.laying.specs.Written.{lits, value};

use crate::line::{Line, Literal};
use crate::taker::Taker;

// A line with a literal in it.
pub fn lay_line<H: Taker>(taker: &mut H, line: &Line)
    ensures { 0 < length (lits line.now) → H.grew taker.old (lits line.now ∷ []) taker.new }
{
    taker.lay(line.as_slice())
}

// One function for each number: for N literals the promise would hang on N, and the array on a closure with a clause of its own.
pub fn lay_one<H: Taker>(taker: &mut H, a: Literal)
    ensures { H.grew taker.old ((value a ∷ []) ∷ []) taker.new }
{
    taker.lay(&[i32::from(a)])
}

pub fn lay_pair<H: Taker>(taker: &mut H, a: Literal, b: Literal)
    ensures { H.grew taker.old ((value a ∷ value b ∷ []) ∷ []) taker.new }
{
    taker.lay(&[i32::from(a), i32::from(b)])
}
