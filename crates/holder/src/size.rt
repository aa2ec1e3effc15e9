// A number of clauses, and of literals in them all.
ghost use Rattle.std.specs.Prelude.{◌≡◌, ◌&&◌, nat_le};

#[derive(Clone, Copy, Debug, PartialEq, Eq)]
pub struct Size {
    pub clauses: usize,
    pub literals: usize,
}

impl Size {
    // Whether there are no more clauses and no more literals than these.
    pub fn fits(self, most: Size) -> bool
        ensures { result ≡ (nat_le self.clauses most.clauses && nat_le self.literals most.literals) }
    {
        self.clauses <= most.clauses && self.literals <= most.literals
    }
}
