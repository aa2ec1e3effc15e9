// What settle answers: three answers of one standing, each with a promise of its own.
#[derive(Clone, Copy, Debug, PartialEq)]
pub enum Verdict {
    // There is a model, and the buffer has one.
    Model,
    // There is no model.
    None,
    // The allowance did not suffice.
    Open,
}
