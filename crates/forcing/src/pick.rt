// The variable that is tried next, and the values as bytes.
ghost use Rattle.std.specs.Prelude.{◌≡◌, ℕ, ◌+◌, ◌<◌, ◌≤◌, length};
ghost use Rattle.forcing.specs.Boards.{assigned};
ghost use Rattle.forcing.specs.Shown.{Shown};
ghost use Rattle.forcing.specs.Picks.{Picked};

use crate::board::Board;
use crate::judge::value_at;

fn first_open(values: &[Option<bool>], from: usize, n: usize) -> Option<usize>
    ensures { Picked from n values.now result }
{
    // Not by `find` over `from..=n`: its tests of the range's end take as long again as the walk.
    for v in from..values.len() {
        if v > n {
            return None;
        }
        if values[v].is_none() {
            return Some(v);
        }
    }
    let past = from.max(values.len());
    if past <= n { Some(past) } else { None }
}

fn write_bytes(values: &[Option<bool>], n: usize, buffer: &mut [u8])
    ensures { Shown n values.now buffer.old buffer.new }
{
    // By number: over iter_mut and zip the proof did not close, since nothing is known there of what is written.
    let count = n.min(buffer.len());
    for k in 0..count {
        buffer[k] = u8::from(value_at(values, k + 1) == Some(true));
    }
}

impl Board {
    // The smallest open variable of from to n.
    pub fn pick(&self, from: usize, n: usize) -> Option<usize>
        ensures { Picked from n (assigned self.now) result }
    {
        first_open(&self.values, from, n)
    }

    // Writes the values of 1 to n, as far as the buffer goes: 1 for true, else 0.
    pub fn show(&self, n: usize, buffer: &mut [u8])
        ensures { Shown n (assigned self.now) buffer.old buffer.new }
    {
        write_bytes(&self.values, n, buffer)
    }
}
