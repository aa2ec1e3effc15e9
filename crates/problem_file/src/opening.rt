// The two fields that open a file: the number of facts and the start list.
ghost use Rattle.std.specs.Prelude.{◌≡◌, drop};
ghost use Rattle.file_format.specs.Fields.{next_field};
ghost use Rattle.problem_file.specs.Says.{tag_number};
ghost use Rattle.problem_file.specs.Opens.{OwedSays, FactsIn, FactsSay, StartIn, StartSays};

use crate::faults::{FieldFault, RecordFault};
use crate::field::{Field, Tag};
use crate::file::ProblemFile;
use crate::place::{Guard, Place};
use crate::records::facts;
use problem::drafts::AxiomDraft;
use problem::lists::is_fact;
use refusals::limits::MOST_FACTS;
use refusals::refusal::Refusal;
use std::alloc::Global;

// The number of facts in the one byte of its field.
fn facts_in(value: &[u8]) -> Result<u16, Refusal>
    ensures { FactsIn value.now result }
{
    let [facts] = value else {
        return Err(Refusal::WrongLength);
    };
    let facts = u16::from(*facts);
    if !is_fact(facts, MOST_FACTS) {
        return Err(Refusal::OutOfRange);
    }
    Ok(facts)
}

// A draft over so many facts and the start list.
fn opened(heap: Global, facts_count: u16, value: &[u8]) -> Result<AxiomDraft, Refusal>
    ensures { StartIn facts_count value.now result }
{
    let start = facts(heap, value)?;
    AxiomDraft::open(heap, facts_count, &start)
}

impl<'a> ProblemFile<'a> {
    // The field that is owed next.
    fn owed_field(self, place: &mut Place, tag: Tag) -> Result<Field<'a>, FieldFault>
        ensures { OwedSays self.entry.bytes.now place.old.at (next_field (tag_number tag) (tag_number tag) (drop place.old.at self.entry.bytes.now)) result place.new.at }
    {
        let at = place.at;
        self.next_field(place, tag, tag)?.ok_or(FieldFault {
            refusal: Refusal::Missing,
            at,
        })
    }

    // The number of facts.
    pub fn next_facts(self, place: &mut Place) -> Result<u16, RecordFault>
        ensures { FactsSay self.entry.bytes.now place.old.at (next_field 1 1 (drop place.old.at self.entry.bytes.now)) result place.new.at }
    {
        let at = place.at;
        let mut guard = Guard::over(place);
        let field = self.owed_field(guard.place, Tag::Facts)?;
        let facts = facts_in(field.value()).map_err(|refusal| RecordFault::new(refusal, at))?;
        guard.accept();
        Ok(facts)
    }

    // The start list, over so many facts: it opens the draft. One function for this and `next_facts` would take the reading of
    // the value as a closure, with what it answers in the contract, and be longer than the two.
    pub fn next_start(
        self,
        heap: Global,
        place: &mut Place,
        facts_count: u16,
    ) -> Result<AxiomDraft, RecordFault>
        ensures { StartSays self.entry.bytes.now place.old.at facts_count (next_field 2 2 (drop place.old.at self.entry.bytes.now)) result place.new.at }
    {
        let at = place.at;
        let mut guard = Guard::over(place);
        let field = self.owed_field(guard.place, Tag::Start)?;
        let drafted = opened(heap, facts_count, field.value());
        let draft = drafted.map_err(|refusal| RecordFault::new(refusal, at))?;
        guard.accept();
        Ok(draft)
    }
}
