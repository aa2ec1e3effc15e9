// What an assignment makes of one clause.
ghost use Rattle.std.specs.Prelude.{◌≡◌, None, slice_index_or};
ghost use Rattle.trials.specs.Values as vals;
ghost use Rattle.forcing.specs.Judgements.{JudgedAs};

use clause_store::flat::variable;

#[derive(Clone, Copy, Debug, PartialEq)]
pub enum Judgement {
    // All its literals are false.
    Dead,
    // All are false but this one, which is open.
    Forces(i32),
    // Anything else.
    Calm,
}

// The value of its variable that makes a literal true, as a board takes values.
pub fn sign(lit: i32) -> Option<bool>
    ensures { result ≡ vals.sign lit }
{
    Some(lit >= 0)
}

// The value of a variable; past the last one listed, all are open.
pub fn value_at(values: &[Option<bool>], v: usize) -> Option<bool>
    ensures { result ≡ slice_index_or values.now v None }
{
    values.get(v).copied().flatten()
}

// The value of a literal.
pub fn value_of(values: &[Option<bool>], lit: i32) -> Option<bool>
    ensures { result ≡ vals.value values.now lit }
{
    value_at(values, variable(lit)).map(|value| value == (lit >= 0))
}

// Whether a literal is false: its variable has the value that it denies.
fn is_false(values: &[Option<bool>], lit: i32) -> bool
    ensures { result ≡ vals.is_false (vals.value values.now lit) }
{
    value_at(values, variable(lit)) == Some(lit < 0)
}

// Whether a clause is wholly false, or forces a literal.
pub fn judge(values: &[Option<bool>], clause: &[i32]) -> Judgement
    ensures { JudgedAs values.now clause.now result }
{
    let mut live = clause.iter().filter(|lit| !is_false(values, **lit));
    let Some(lit) = live.next() else {
        return Judgement::Dead;
    };
    if value_of(values, *lit).is_some() || live.next().is_some() {
        return Judgement::Calm;
    }
    Judgement::Forces(*lit)
}
