// An assignment, and the variables that were set, in their order; memory for both is reserved when it is made.
ghost use Rattle.std.specs.Prelude.{◌≡◌, ◌+◌, ◌<◌, ◌≤◌, vec_len, vec_capacity};
ghost use Rattle.refusals.specs.Limits.{most_variables};
ghost use Rattle.trials.specs.Values.{opens};

// A variable is open while it has no value. Place 0 of the values is not used.
#[derive(Drop)]
pub struct Board {
    pub(crate) values: Vec<Option<bool>>,
    pub(crate) trail: Vec<usize>,
    ghost values_room: { most_variables < vec_capacity values },
    ghost trail_room: { most_variables < vec_capacity trail },
    ghost few: { vec_len trail + opens values.items ≤ most_variables + 1 },
}
