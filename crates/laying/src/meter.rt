// Counts clauses and literals, up to one more than any cap.
ghost use Rattle.std.specs.Prelude.{◌≤◌};
ghost use Rattle.laying.specs.Tops.{top};

use holder::size::Size;

#[derive(Clone, Copy, Drop)]
pub struct Meter {
    pub(crate) size: Size,
    ghost few_clauses: { size.clauses ≤ top },
    ghost few_literals: { size.literals ≤ top },
}
