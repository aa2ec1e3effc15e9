// A page: a header, and a line for each clause that a holder has.
ghost use Rattle.std.specs.Prelude.{◌≡◌, ◌<◌, ◌≤◌, [], ◌++◌, length, IfOk, string_bytes, OnOk, slice_index_or};
ghost use Rattle.runs.specs.Clauses.{joined};
ghost use Rattle.holder.specs.Clauses.{size};
ghost use Rattle.dimacs.specs.Text.{literal_text, clause_text, page_text};

use holder::held::Holder;
use std::alloc::{AllocError, Global};

// A literal and a space. The space is pushed, which takes less time than one piece more for `write!`.
fn write_literal(out: &mut String, l: i32) -> Result<(), AllocError>
    ensures { OnOk result (string_bytes out.new ≡ string_bytes out.old ++ literal_text l) }
{
    write!(out, "{l}")?;
    out.push(' ')
}

// Clause i; no clause has more literals than most.
#[tactic(auto, using(crate::proofs::Coming::written))]
fn write_clause<H: Holder>(
    out: &mut String,
    holder: &H,
    i: usize,
    most: usize,
) -> Result<(), AllocError>
    requires { H.orderly holder.now → (i < length (H.stood holder.now).held) × (size (H.stood holder.now).held ≤ most) }
    ensures { H.orderly holder.now → OnOk result (string_bytes out.new ≡ string_bytes out.old ++ clause_text (slice_index_or (H.stood holder.now).held i [])) }
{
    // A holder is read by numbers, so the loop goes over them; `map_while` would have to be told where they end as well.
    for j in 0..most {
        let Ok(l) = holder.literal(i, j) else {
            break;
        };
        write_literal(out, l)?;
    }
    out.push_str("0\n")
}

// The first n clauses, which are all.
#[tactic(auto, using(crate::proofs::Coming::written))]
fn write_clauses<H: Holder>(
    out: &mut String,
    holder: &H,
    n: usize,
    most: usize,
) -> Result<(), AllocError>
    requires { H.orderly holder.now → (n ≡ length (H.stood holder.now).held) × (size (H.stood holder.now).held ≤ most) }
    ensures { H.orderly holder.now → OnOk result (string_bytes out.new ≡ string_bytes out.old ++ joined clause_text (H.stood holder.now).held) }
{
    // Its clauses are told by number too.
    for i in 0..n {
        write_clause(out, holder, i, most)?;
    }
    Ok(())
}

// All clauses of the holder, under a header with their number.
pub fn write_page<H: Holder>(heap: Global, holder: &H, variables: u32) -> Result<String, AllocError>
    ensures { H.orderly holder.now → IfOk result (λ t. string_bytes t ≡ page_text variables (H.stood holder.now).held) }
{
    let caps = holder.caps();
    let clauses = caps.clauses.saturating_sub(holder.room().clauses);
    let mut page = format!(in heap; "p cnf {variables} {clauses}\n")?;
    write_clauses(&mut page, holder, clauses, caps.literals)?;
    Ok(page)
}
