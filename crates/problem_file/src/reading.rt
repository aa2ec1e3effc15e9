// The records of a file, one by one, each given to a draft.
ghost use Rattle.std.specs.Prelude.{◌≡◌, drop};
ghost use Rattle.file_format.specs.Fields.{next_field};
ghost use Rattle.problem_file.specs.Says.{tag_number};
ghost use Rattle.problem_file.specs.Next.{next_record};
ghost use Rattle.problem_file.specs.Records.{Judges, Takes};

use crate::drafting::Drafting;
use crate::faults::{ProblemFault, RecordFault};
use crate::field::Tag;
use crate::file::ProblemFile;
use crate::place::{Guard, Place};
use crate::records::Placed;
use std::alloc::Global;

impl<'a> ProblemFile<'a> {
    // The next record of the draft's kind, judged by itself; the place is past its field.
    fn judged_record<D: Drafting<'a>>(
        self,
        heap: Global,
        place: &mut Place,
        draft: &D,
    ) -> Result<Option<Placed<D::Record>>, RecordFault>
        ensures { Judges D.holds self.entry.bytes.now place.old.at (tag_number D.TAG) (D.drafted draft.now) (D.due (D.drafted draft.now)) (next_field (tag_number D.TAG) 5 (drop place.old.at self.entry.bytes.now)) result place.new.at }
    {
        let at = place.at;
        match self.next_field(place, D::TAG, Tag::Goal)? {
            Some(field) if field.tag() == D::TAG => {
                let record = draft
                    .read(heap, field.value())
                    .map_err(|refusal| RecordFault::new(refusal, at))?;
                Ok(Some(Placed { record, at }))
            }
            _ => Ok(None),
        }
    }

    // The next record of the draft's kind, taken by the draft; nothing where another kind of field, or the end, comes next.
    pub fn next_record<D: Drafting<'a>>(
        self,
        heap: Global,
        place: &mut Place,
        draft: &mut D,
    ) -> Result<Option<Placed<D::Record>>, ProblemFault>
        ensures { Takes D.holds self.entry.bytes.now place.old.at (next_record (tag_number D.TAG) (D.drafted draft.old) (next_field (tag_number D.TAG) 5 (drop place.old.at self.entry.bytes.now))) (D.drafted draft.old) result (D.drafted draft.new) place.new.at }
    {
        let mut guard = Guard::over(place);
        let Some(placed) = self.judged_record(heap, guard.place, draft)? else {
            return Ok(None);
        };
        draft
            .take(heap, &placed.record)
            .map_err(|refusal| ProblemFault::new(refusal, placed.at))?;
        guard.accept();
        Ok(Some(placed))
    }
}
