// For each literal the clauses that it stands in: a chain of entries, the last one first.
ghost use Rattle.std.specs.Prelude.{◌<◌, ◌≤◌, length, vec_capacity};
ghost use Rattle.refusals.specs.Limits.{most_variables};
ghost use Rattle.propagation.specs.Chains.{Falling, Starting};

// The entries at which the chains of the literals v and -v begin. A link is a u32, since an index may have millions: an
// Option<usize> takes 16 bytes, and no store holds more literals than a u32 counts.
#[derive(Clone, Copy, Debug, PartialEq)]
pub(crate) struct Heads {
    pub(crate) positive: Option<u32>,
    pub(crate) negative: Option<u32>,
}

// A clause, and the entry at which its chain goes on.
#[derive(Clone, Copy, Debug, PartialEq)]
pub(crate) struct Entry {
    pub(crate) owner: usize,
    pub(crate) next: Option<u32>,
}

// An entry is named by its place, since the memory for all is reserved when the index is made.
#[derive(Drop)]
pub struct Index {
    // The beginnings at variable v stand at place v.
    pub(crate) heads: Vec<Heads>,
    pub(crate) entries: Vec<Entry>,
    pub(crate) most: usize,
    ghost heads_room: { most_variables < vec_capacity heads },
    ghost entries_room: { most ≤ vec_capacity entries },
    ghost falling: { Falling entries.items },
    ghost starts: { Starting heads.items (length entries.items) },
}
