// A literal, the literals of one sign, and one clause as it is being written.
ghost use Rattle.std.specs.Prelude.{◌≡◌, ◌<◌, ◌≤◌, true, take};
ghost use Rattle.refusals.specs.Limits.{most_variables, longest_clause};
ghost use Rattle.holder.specs.Clauses.{all_fine};

use refusals::limits::LONGEST_CLAUSE;

// That a variable is true, or that it is false.
#[derive(Clone, Copy)]
pub struct Literal {
    pub(crate) positive: bool,
    pub(crate) variable: u32,
    ghost some: { 0 < variable },
    ghost few: { variable ≤ most_variables },
}

// The literals of one sign over the variables that begin past another.
#[derive(Clone, Copy)]
pub struct Literals {
    pub positive: bool,
    pub past: u32,
}

// The literals so far, in the first places. An ArrayVec would not be `Copy`, as a line is.
#[derive(Copy)]
pub struct Line {
    pub(crate) places: [i32; LONGEST_CLAUSE],
    pub(crate) used: usize,
    ghost room: { used ≤ longest_clause },
    ghost fine: { all_fine (take used places) ≡ true },
}
