// From the input's bytes to the page, or to the one refusal.
ghost use Rattle.std.specs.Prelude.{◌≡◌, true, Some, None, take, is_some, IfOk, MatchResult, string_bytes};
ghost use Rattle.refusals.specs.declared.refusal.Refusal.TheVariants.{OutOfMemory};
ghost use Rattle.refusals.specs.Numbers.{number_of};
ghost use Rattle.refusals.specs.Limits.{most_file_bytes};
ghost use Rattle.problem.specs.Tables.{view};
ghost use Rattle.file_format.specs.Reading.{read, whole};
ghost use Rattle.pages.specs.PageText.{read_page_text, printed, told, Tells};

use clause_store::store::Store;
use dimacs::write_page;
use encoding::whole::lay;
use file_reader::read_problem;
use numbering::depth::Depth;
use numbering::numbers::variables;
use problem::drafts::Problem;
use problem_file::faults::ProblemFault;
use refusals::limits::{MOST_FILE_BYTES, PROGRAM_CLAUSES, PROGRAM_LITERALS};
use refusals::refusal::Refusal;
use std::alloc::{AllocError, Global};

// Why there is no page: a refusal, with the byte at which the file is at fault.
#[derive(Clone, Copy, Debug, PartialEq, Eq)]
struct Refused {
    refusal: Refusal,
    at: Option<usize>,
}

impl From<Refusal> for Refused {
    ghost from_gives = { λ e r. r ≡ record { refusal = e; at = None } };

    fn from(refusal: Refusal) -> Refused {
        Refused { refusal, at: None }
    }
}

impl From<ProblemFault> for Refused {
    ghost from_gives = { λ e r. r ≡ record { refusal = e.refusal; at = Some e.at } };

    fn from(fault: ProblemFault) -> Refused {
        Refused {
            refusal: fault.refusal,
            at: Some(fault.at),
        }
    }
}

impl From<AllocError> for Refused {
    ghost from_gives = { λ _ r. r ≡ record { refusal = OutOfMemory; at = None } };

    fn from(_e: AllocError) -> Refused {
        Refused::from(Refusal::OutOfMemory)
    }
}

// The page of a problem at a depth.
fn page_of_problem(heap: Global, problem: &Problem, depth: Depth) -> Result<String, Refused>
    ensures { MatchResult result (λ t. string_bytes t ≡ read_page_text depth.value (whole (view problem.now))) (λ e. Tells e.refusal e.at (read_page_text depth.value (whole (view problem.now)))) }
{
    let mut store = Store::new(heap, PROGRAM_CLAUSES, PROGRAM_LITERALS)?;
    lay(problem, depth.value(), &mut store)?;
    Ok(write_page(heap, &store, variables(problem, depth))?)
}

// The first bytes of a file, as many as count.
#[tactic(auto, using(std::proofs::lemmas::List::take_min))]
fn counted(file: &[u8]) -> &[u8]
    ensures { result.now ≡ take most_file_bytes file.now }
{
    &file[..MOST_FILE_BYTES.min(file.len())]
}

// The page at a depth of a file.
fn page_of_file(heap: Global, depth: Depth, file: &[u8]) -> Result<String, Refused>
    ensures { MatchResult result (λ t. string_bytes t ≡ read_page_text depth.value (read (take most_file_bytes file.now))) (λ e. Tells e.refusal e.at (read_page_text depth.value (read (take most_file_bytes file.now)))) }
{
    let problem = read_problem(heap, counted(file))?;
    page_of_problem(heap, &problem, depth)
}

// The page of an input: a depth byte, and a file.
fn page(heap: Global, input: &[u8]) -> Result<String, Refused>
    ensures { MatchResult result (λ t. string_bytes t ≡ printed input.now) (λ e. Tells e.refusal e.at (printed input.now)) }
{
    let Some((depth, file)) = input.split_first() else {
        return Err(Refused {
            refusal: Refusal::CutShort,
            at: Some(0),
        });
    };
    page_of_file(heap, Depth::try_from(u32::from(*depth))?, file)
}

// `refused n`, or `refused n at b`. Not by Display, which would have to print something for want of memory, that has no line.
fn line(heap: Global, refused: Refused) -> Result<String, AllocError>
    ensures { IfOk result (λ t. (is_some (number_of refused.refusal) ≡ true) × (string_bytes t ≡ told refused.refusal refused.at)) }
{
    let n = refused.refusal.number().ok_or(AllocError)?;
    match refused.at {
        Some(at) => format!(in heap; "refused {n} at {at}\n"),
        None => format!(in heap; "refused {n}\n"),
    }
}

// What the page program prints for its input: a depth byte, and a file.
pub fn page_text(heap: Global, input: &[u8]) -> Result<String, AllocError>
    ensures { IfOk result (λ t. string_bytes t ≡ printed input.now) }
{
    page(heap, input).or_else(|refused| line(heap, refused))
}
