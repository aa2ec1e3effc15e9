// What a meter does.
ghost use Rattle.std.specs.Prelude.{◌≡◌, ◌+◌, min};
ghost use Rattle.laying.specs.Tops.{top};

use crate::meter::Meter;
use holder::size::Size;
use refusals::limits::MOST_HELD;

const TOP: usize = MOST_HELD + 1;

// The sum, or one more than any cap if that is less.
fn add_up(a: usize, b: usize) -> usize
    ensures { result ≡ min (a + b) top }
{
    a.saturating_add(b).min(TOP)
}

impl Meter {
    // Has counted nothing.
    pub fn new() -> Meter
        ensures { (result.size.clauses ≡ 0) × (result.size.literals ≡ 0) }
    {
        Meter {
            size: Size {
                clauses: 0,
                literals: 0,
            },
        }
    }

    // One clause more.
    pub(crate) fn add(&mut self, literals: usize)
        ensures clauses { self.new.size.clauses ≡ min (self.old.size.clauses + 1) top }
        ensures literals { self.new.size.literals ≡ min (self.old.size.literals + literals) top }
    {
        self.size = Size {
            clauses: add_up(self.size.clauses, 1),
            literals: add_up(self.size.literals, literals),
        };
    }

    // What it has counted.
    pub fn size(self) -> Size
        ensures { result ≡ self.size }
    {
        self.size
    }
}
