// What the contracts of the board come to.
ghost use Rattle.forcing.specs.Picks.{PicksFirst};
ghost use Rattle.forcing.specs.Shown.{ShownFills};

// With no variable open below where it begins, pick finds the variable that the search tries.
pub fn picks_are_first()
    ensures { PicksFirst }
{}

// An assignment that stands for a model is shown as one.
pub fn shown_models_fill()
    ensures { ShownFills }
{}
