// The fields of a file.
ghost use Rattle.std.specs.Prelude.{◌≡◌, drop};
ghost use Rattle.file_format.specs.Fields.{next_field};
ghost use Rattle.problem_file.specs.Says.{Decodes, HeadSays, FieldSays, tag_number, tag_of, value_of};

use crate::faults::FieldFault;
use crate::file::ProblemFile;
use crate::place::Place;
use refusals::refusal::Refusal;

// The kinds of fields, in the order in which they stand in a file.
#[derive(Clone, Copy, Debug, PartialEq, Eq, PartialOrd, Ord)]
pub enum Tag {
    Facts,
    Start,
    Axiom,
    Rule,
    Goal,
}

impl TryFrom<u8> for Tag {
    type Error = Refusal;

    ghost try_from_gives = { Decodes };

    fn try_from(byte: u8) -> Result<Tag, Refusal> {
        match byte {
            1 => Ok(Tag::Facts),
            2 => Ok(Tag::Start),
            3 => Ok(Tag::Axiom),
            4 => Ok(Tag::Rule),
            5 => Ok(Tag::Goal),
            _ => Err(Refusal::WrongTag),
        }
    }
}

// A field by its tag, with its value as the part of the file that it is.
#[derive(Clone, Copy, Debug, PartialEq, Eq)]
pub enum Field<'a> {
    Facts(&'a [u8]),
    Start(&'a [u8]),
    Axiom(&'a [u8]),
    Rule(&'a [u8]),
    Goal(&'a [u8]),
}

impl<'a> Field<'a> {
    fn new(tag: Tag, value: &'a [u8]) -> Field<'a>
        ensures { (tag_of result ≡ tag) × (value_of result ≡ value.now) }
    {
        match tag {
            Tag::Facts => Field::Facts(value),
            Tag::Start => Field::Start(value),
            Tag::Axiom => Field::Axiom(value),
            Tag::Rule => Field::Rule(value),
            Tag::Goal => Field::Goal(value),
        }
    }

    pub(crate) fn tag(self) -> Tag
        ensures { result ≡ tag_of self.entry }
    {
        match self {
            Field::Facts(_) => Tag::Facts,
            Field::Start(_) => Tag::Start,
            Field::Axiom(_) => Tag::Axiom,
            Field::Rule(_) => Tag::Rule,
            Field::Goal(_) => Tag::Goal,
        }
    }

    pub(crate) fn value(self) -> &'a [u8]
        ensures { result.now ≡ value_of self.entry }
    {
        match self {
            Field::Facts(value)
            | Field::Start(value)
            | Field::Axiom(value)
            | Field::Rule(value)
            | Field::Goal(value) => value,
        }
    }
}

// The field at the head of some bytes, if its tag is from low to high; nothing where there are no bytes.
fn first_field(bytes: &[u8], low: Tag, high: Tag) -> Result<Option<Field<'_>>, Refusal>
    ensures { HeadSays bytes.now (next_field (tag_number low) (tag_number high) bytes.now) result }
{
    match bytes {
        [] => Ok(None),
        [tag, length_high, length_low, rest @ ..] => {
            let length = usize::from(u16::from_be_bytes([*length_high, *length_low]));
            let value = rest.get(..length).ok_or(Refusal::CutShort)?;
            let tag = Tag::try_from(*tag)?;
            if !(low..=high).contains(&tag) {
                return Err(Refusal::WrongTag);
            }
            Ok(Some(Field::new(tag, value)))
        }
        _ => Err(Refusal::CutShort),
    }
}

impl<'a> ProblemFile<'a> {
    // The field at the place, which goes on to the next; nothing at the file's end.
    pub(crate) fn next_field(
        self,
        place: &mut Place,
        low: Tag,
        high: Tag,
    ) -> Result<Option<Field<'a>>, FieldFault>
        ensures { FieldSays self.entry.bytes.now place.old.at (next_field (tag_number low) (tag_number high) (drop place.old.at self.entry.bytes.now)) result place.new.at }
    {
        let at = place.at;
        let Some(rest) = self.bytes.get(at..) else {
            return Ok(None);
        };
        let field = first_field(rest, low, high).map_err(|refusal| FieldFault { refusal, at })?;
        if let Some(field) = field {
            place.at += 3 + field.value().len();
        }
        Ok(field)
    }
}
