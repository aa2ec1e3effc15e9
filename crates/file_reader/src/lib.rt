// Reads a whole problem file.
#![tactic(auto)]

ghost use Rattle.std.specs.Prelude.{◌≡◌, drop};
ghost use Rattle.problem.specs.Tables.{goals_drafted};
ghost use Rattle.file_format.specs.Reading.{read};
ghost use Rattle.problem_file.specs.Says.{tag_number};
ghost use Rattle.file_reader.specs.Whole.{TableSays, FileSays, ended_with};

use problem::drafts::{GoalDraft, Problem};
use problem_file::drafting::{Drafting, Tagged};
use problem_file::faults::{Layer, ProblemFault};
use problem_file::file::ProblemFile;
use problem_file::place::Place;
use std::alloc::Global;

// The draft with all records of its kind that come next.
fn filled<'a, D: Drafting<'a>>(
    heap: Global,
    file: ProblemFile<'a>,
    place: &mut Place,
    mut draft: D,
) -> Result<D, ProblemFault>
    ensures { TableSays D.drafted file.entry.bytes.now (tag_number D.TAG) (D.drafted draft) place.old.at result place.new.at }
{
    while let Some(_) = file.next_record(heap, place, &mut draft)? {}
    Ok(draft)
}

fn finished(draft: GoalDraft, at: usize) -> Result<Problem, ProblemFault>
    ensures { FileSays (ended_with (goals_drafted draft) at) result }
{
    draft.finish().map_err(|unfinished| ProblemFault {
        refusal: unfinished.refusal,
        layer: Layer::Field,
        at,
    })
}

// The problem that the file lays out, or its first fault.
pub fn read_problem(heap: Global, file: &[u8]) -> Result<Problem, ProblemFault>
    ensures { FileSays (read file.now) result }
{
    let file = ProblemFile { bytes: file };
    let mut place = Place { at: 0 };
    let facts = file.next_facts(&mut place)?;
    let axioms = file.next_start(heap, &mut place, facts)?;
    let axioms = filled(heap, file, &mut place, axioms)?;
    let rules = filled(heap, file, &mut place, axioms.rules(heap))?;
    let goals = filled(heap, file, &mut place, rules.goals(heap))?;
    finished(goals, place.at)
}
