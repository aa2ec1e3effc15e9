// What a problem file says: the reading of any bytes, the bytes that lay out a problem, and that the two agree.
#![tactic(auto)]

ghost use Rattle.file_format.specs.Theorems.{Accepts};

// Reading accepts exactly the bytes that lay out a problem, and gives that problem.
pub fn reading_accepts()
    ensures { Accepts }
{}
