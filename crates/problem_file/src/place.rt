// Where a reader stands in a file, and the guard that puts it back.
ghost use Rattle.std.specs.Prelude.{◌≡◌, Some, None};
ghost use Rattle.std.specs.Option.{unwrap_or};

// The byte at which the next field begins.
#[derive(Clone, Copy, Debug, PartialEq, Eq)]
pub struct Place {
    pub at: usize,
}

// Over a place, from a field's tag on: dropped, it puts the place back there, unless the field was accepted.
pub(crate) struct Guard<'a> {
    pub(crate) place: &'a mut Place,
    // Where to go back to; nothing once the field is accepted.
    pub(crate) back: Option<usize>,
}

impl<'a> Guard<'a> {
    pub(crate) fn over(place: &'a mut Place) -> Guard<'a>
        ensures same_place { result.place.ghost_name ≡ place.entry.ghost_name }
        ensures unmoved { result.place.now ≡ place.old }
        ensures back { result.back ≡ Some place.old.at }
    {
        let back = Some(place.at);
        Guard { place, back }
    }

    pub(crate) fn accept(&mut self)
        ensures same_place { self.new.place.ghost_name ≡ self.old.place.ghost_name }
        ensures unmoved { self.new.place.now ≡ self.old.place.now }
        ensures accepted { self.new.back ≡ None }
    {
        self.back = None;
    }
}

impl Drop for Guard<'_> {
    fn drop(self)
        ensures { self.exit.0.now.at ≡ unwrap_or self.entry.back self.entry.place.now.at }
    {
        if let Some(at) = self.back {
            self.place.at = at;
        }
        let Guard { place: _, back: _ } = self;
    }
}
