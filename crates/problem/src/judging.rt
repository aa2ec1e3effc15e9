// What is wrong with a record: the first that applies, in the order of the numbers.
ghost use Rattle.std.specs.Prelude.{◌≡◌};
ghost use Rattle.std.specs.Result.{result_err};
ghost use Rattle.problem.specs.Lists.{every, fact_of, rises};
ghost use Rattle.problem.specs.Faults.{start_fault, shape, short};

use crate::lists::{all_facts, in_order, is_fact, is_short};
use refusals::limits::MOST_FACTS;
use refusals::refusal::Refusal;

pub(crate) fn judge_start(facts: u16, start: &[u16]) -> Result<(), Refusal>
    ensures { result_err result ≡ start_fault facts start.now }
{
    if !is_fact(facts, MOST_FACTS) || !all_facts(start, facts) {
        return Err(Refusal::OutOfRange);
    }
    if !in_order(start) {
        return Err(Refusal::Unordered);
    }
    Ok(())
}

// Of four tests, the refusal of the first that fails. They are of one standing, and none is a flag of another's value.
pub(crate) fn judge_shape(
    in_range: bool,
    rising: bool,
    lengths: bool,
    room: bool,
) -> Result<(), Refusal>
    ensures { result_err result ≡ shape in_range rising lengths room }
{
    if !in_range {
        return Err(Refusal::OutOfRange);
    }
    if !rising {
        return Err(Refusal::Unordered);
    }
    if !lengths {
        return Err(Refusal::WrongCount);
    }
    if !room {
        return Err(Refusal::TableFull);
    }
    Ok(())
}

// What is wrong with several lists of one record, and by the table's room.
pub(crate) fn judge_lists(lists: &[&[u16]], facts: u16, room: bool) -> Result<(), Refusal>
    ensures { result_err result ≡ shape (every (λ l. every (fact_of facts) l.now) lists.now) (every (λ l. rises 0 l.now) lists.now) (every (λ l. short l.now) lists.now) room }
{
    let in_range = lists.iter().all(|list| all_facts(list, facts));
    let rising = lists.iter().all(|list| in_order(list));
    let lengths = lists.iter().all(|list| is_short(list));
    judge_shape(in_range, rising, lengths, room)
}
