// A fault type for each layer of reading, carried upward by `?`: refusal, layer and byte stay. Those of records and of problems
// have the same fields and are two types, since a call's type says how far up a fault has come.
ghost use Rattle.std.specs.Prelude.{◌≡◌};
ghost use Rattle.problem_file.specs.Layers.{of_field, of_record};

use refusals::refusal::Refusal;

// The layer that found a fault.
#[derive(Clone, Copy, Debug, PartialEq, Eq)]
pub enum Layer {
    Field,
    Record,
    Problem,
}

// Refusals 1 to 3, with the byte of the field's tag, or the file's length for 3.
#[derive(Clone, Copy, Debug, PartialEq, Eq)]
pub struct FieldFault {
    pub refusal: Refusal,
    pub at: usize,
}

// Refusals 4 to 8 and 13, and those of the fields.
#[derive(Clone, Copy, Debug, PartialEq, Eq)]
pub struct RecordFault {
    pub refusal: Refusal,
    pub layer: Layer,
    pub at: usize,
}

// Refusals 9 to 12, and those of the records.
#[derive(Clone, Copy, Debug, PartialEq, Eq)]
pub struct ProblemFault {
    pub refusal: Refusal,
    pub layer: Layer,
    pub at: usize,
}

impl From<FieldFault> for RecordFault {
    ghost from_gives = { λ e r. r ≡ of_field e };

    fn from(e: FieldFault) -> RecordFault {
        RecordFault {
            refusal: e.refusal,
            layer: Layer::Field,
            at: e.at,
        }
    }
}

impl From<RecordFault> for ProblemFault {
    ghost from_gives = { λ e r. r ≡ of_record e };

    fn from(e: RecordFault) -> ProblemFault {
        ProblemFault {
            refusal: e.refusal,
            layer: e.layer,
            at: e.at,
        }
    }
}

impl RecordFault {
    pub(crate) fn new(refusal: Refusal, at: usize) -> RecordFault
        ensures { (result.refusal ≡ refusal) × (result.layer ≡ Layer.Record) × (result.at ≡ at) }
    {
        RecordFault {
            refusal,
            layer: Layer::Record,
            at,
        }
    }
}

impl ProblemFault {
    pub(crate) fn new(refusal: Refusal, at: usize) -> ProblemFault
        ensures { (result.refusal ≡ refusal) × (result.layer ≡ Layer.Problem) × (result.at ≡ at) }
    {
        ProblemFault {
            refusal,
            layer: Layer::Problem,
            at,
        }
    }
}
