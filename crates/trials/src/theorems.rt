// The theorems that the search rests on.
ghost use Rattle.trials.specs.Forcing.{Confluent};
ghost use Rattle.trials.specs.Courses.{OneCourse, OneEnd};
ghost use Rattle.trials.specs.Trials.{AnyCourse, AnyEnd, RightOutcome};

// Forcing ends in the same assignment, or meets a conflict, whatever the order.
#[tactic(auto, using(crate::proofs::Confluence::confluent))]
pub fn forcing_is_confluent()
    ensures { Confluent }
{}

// All courses of a search find the same by the same number of trials.
pub fn courses_agree()
    ensures { OneCourse }
{}

// All courses of a search end in the same assignment.
#[tactic(auto, using(crate::proofs::Unique::one_end))]
pub fn ends_agree()
    ensures { OneEnd }
{}

// The trials that a search is allowed by are those of whatever course it takes.
pub fn any_course_counts()
    ensures { AnyCourse }
{}

// So is the assignment that it ends in.
#[tactic(auto, using(crate::proofs::Unique::one_end), unfolding(crate::specs::Trials::outcome))]
pub fn any_course_ends()
    ensures { AnyEnd }
{}

// A search that ends in an assignment has a model by it, and one that does not shows that there is none.
pub fn outcomes_are_right()
    ensures { RightOutcome }
{}
