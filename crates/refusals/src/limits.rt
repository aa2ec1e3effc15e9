// Every limit of the product, in one place; specs/Limits.antt has the same names for contracts.
ghost use Rattle.std.specs.Prelude.{◌≡◌};
ghost use Rattle.refusals.specs.Limits as limits;

// The largest number of facts of a problem.
pub const MOST_FACTS: u16 = 240;

pub const MOST_AXIOMS: usize = 96;

pub const MOST_RULES: usize = 96;

pub const MOST_GOALS: usize = 8;

// The most facts in one list of an axiom, a rule or a goal.
pub const LONGEST_LIST: usize = 8;

// The most bytes of a rule's label.
pub const LONGEST_LABEL: usize = 24;

// The largest depth.
pub const DEEPEST: u32 = 16;

// The largest variable: of the last goal of the largest problem at the largest depth.
pub const MOST_VARIABLES: u32 = 7_160;

// The most literals of one clause.
pub const LONGEST_CLAUSE: usize = 200;

// The largest cap of a holder, on clauses and on literals.
pub const MOST_HELD: usize = 4_000_000;

// The largest allowance of a settler.
pub const MOST_ALLOWED: u32 = 1_000_000;

// How many bytes of a file the programs read.
pub const MOST_FILE_BYTES: usize = 8_192;

// The caps and the allowance of the settlers that the programs use.
pub const PROGRAM_CLAUSES: usize = 4_000;

pub const PROGRAM_LITERALS: usize = 12_000;

pub const PROGRAM_ALLOWANCE: u32 = 10_000;

// The limits of a problem are those that contracts name.
pub fn problem_limits() -> (u16, usize, usize, usize, usize, usize)
    ensures { result ≡ (limits.most_facts, limits.most_axioms, limits.most_rules, limits.most_goals, limits.longest_list, limits.longest_label) }
{
    (
        MOST_FACTS,
        MOST_AXIOMS,
        MOST_RULES,
        MOST_GOALS,
        LONGEST_LIST,
        LONGEST_LABEL,
    )
}

// So are those of depths, variables, clauses and settlers.
pub fn clause_limits() -> (u32, u32, usize, usize, u32)
    ensures { result ≡ (limits.deepest, limits.most_variables, limits.longest_clause, limits.most_held, limits.most_allowed) }
{
    (
        DEEPEST,
        MOST_VARIABLES,
        LONGEST_CLAUSE,
        MOST_HELD,
        MOST_ALLOWED,
    )
}

// And those of the programs.
pub fn program_limits() -> (usize, usize, usize, u32)
    ensures { result ≡ (limits.most_file_bytes, limits.program_clauses, limits.program_literals, limits.program_allowance) }
{
    (
        MOST_FILE_BYTES,
        PROGRAM_CLAUSES,
        PROGRAM_LITERALS,
        PROGRAM_ALLOWANCE,
    )
}
