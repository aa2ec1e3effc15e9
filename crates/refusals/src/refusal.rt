// The refusals of both lists, each with its number: 1 to 19 come from the input, 20 to 26 from the state.
ghost use Rattle.std.specs.Prelude.{◌≡◌};
ghost use Rattle.refusals.specs.Numbers.{number_of};
ghost use Rattle.refusals.specs.declared.refusal.Refusal.TheVariants.{OutOfMemory};

use std::alloc::{AllocError, AllocFailed};

#[derive(Clone, Copy, Debug, PartialEq, Eq)]
pub enum Refusal {
    // A field is cut short.
    CutShort,
    // A tag is not 1 to 5, below the one before, a second 1 or 2, or before an owed 1 or 2.
    WrongTag,
    // A file or a draft ends without its facts, its start list or a goal.
    Missing,
    // A value is too short or too long for its counts.
    WrongLength,
    // A number of facts, or a fact, is out of range.
    OutOfRange,
    // A list is not strictly increasing.
    Unordered,
    // A list is too long, or an axiom has no premise.
    WrongCount,
    // A table is full.
    TableFull,
    // A conclusion is not above all its premises.
    LowConclusion,
    // A rule removes a fact of an axiom.
    RemovesAxiomFact,
    // A rule forbids a conclusion.
    ForbidsConclusion,
    // A goal has nothing in it.
    EmptyGoal,
    // A label is too long, or has a byte that is no visible ASCII character.
    BadLabel,
    // A buffer is shorter than what the call has to write.
    ShortBuffer,
    // A number asked for is beyond the list.
    BeyondList,
    // An allowance is lowered, or over its limit.
    BadAllowance,
    // A clause has a wrong length, a literal 0 or a variable over the limit.
    BadClause,
    // A cut is beyond the list.
    CutBeyond,
    // A number of variables is over the limit, or below a variable held.
    BadVariables,
    // The sheet is blank.
    SheetBlank,
    // The sheet has begun.
    SheetBegun,
    // Deepen when not clean.
    NotClean,
    // The depth is at its limit, or a given one is over it.
    TooDeep,
    // There is no room for the clause, or for all clauses of the new depth.
    NoRoom,
    // Read when not found.
    NotFound,
    // Settle when clean or found.
    AlreadySettled,
    // Memory is wanting. It has no number.
    OutOfMemory,
}

impl Refusal {
    // The number under which it is reported.
    pub fn number(self) -> Option<u8>
        ensures { result ≡ number_of self }
    {
        match self {
            Refusal::CutShort => Some(1),
            Refusal::WrongTag => Some(2),
            Refusal::Missing => Some(3),
            Refusal::WrongLength => Some(4),
            Refusal::OutOfRange => Some(5),
            Refusal::Unordered => Some(6),
            Refusal::WrongCount => Some(7),
            Refusal::TableFull => Some(8),
            Refusal::LowConclusion => Some(9),
            Refusal::RemovesAxiomFact => Some(10),
            Refusal::ForbidsConclusion => Some(11),
            Refusal::EmptyGoal => Some(12),
            Refusal::BadLabel => Some(13),
            Refusal::ShortBuffer => Some(14),
            Refusal::BeyondList => Some(15),
            Refusal::BadAllowance => Some(16),
            Refusal::BadClause => Some(17),
            Refusal::CutBeyond => Some(18),
            Refusal::BadVariables => Some(19),
            Refusal::SheetBlank => Some(20),
            Refusal::SheetBegun => Some(21),
            Refusal::NotClean => Some(22),
            Refusal::TooDeep => Some(23),
            Refusal::NoRoom => Some(24),
            Refusal::NotFound => Some(25),
            Refusal::AlreadySettled => Some(26),
            Refusal::OutOfMemory => None,
        }
    }
}

impl From<AllocError> for Refusal {
    ghost from_gives = { λ _ r. r ≡ OutOfMemory };

    fn from(_e: AllocError) -> Refusal {
        Refusal::OutOfMemory
    }
}

// What was not taken is let go.
impl<T: Drop> From<AllocFailed<T>> for Refusal {
    ghost from_gives = { λ _ r. r ≡ OutOfMemory };

    fn from(_e: AllocFailed<T>) -> Refusal {
        Refusal::OutOfMemory
    }
}
