// A problem file.

// The bytes of a file, which are only read. Where a reader stands is a record of its own, so that a guard can put it back.
#[derive(Clone, Copy, Debug, PartialEq, Eq)]
pub struct ProblemFile<'a> {
    pub bytes: &'a [u8],
}
