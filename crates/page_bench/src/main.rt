// Lays and writes the pages of the largest problem that files allow. What they measure goes to standard output, and how long it took to standard error.
#![tactic(auto)]

use anyhow::anyhow;
use clause_store::store::Store;
use dimacs::write_page;
use encoding::whole::lay;
use numbering::depth::Depth;
use numbering::numbers::variables;
use problem::drafts::{AxiomDraft, Problem};
use problem::given::{GivenAxiom, GivenGoal, GivenRule};
use refusals::limits::{MOST_AXIOMS, MOST_FACTS, MOST_GOALS, MOST_HELD, MOST_RULES};
use refusals::refusal::Refusal;
use std::alloc::Global;
use std::time::Instant;

const LOW: [u16; 8] = [1, 2, 3, 4, 5, 6, 7, 8];

const NEEDED: [u16; 8] = [105, 106, 107, 108, 109, 110, 111, 112];

const LEFT: [u16; 8] = [113, 114, 115, 116, 117, 118, 119, 120];

const FORBIDDEN: [u16; 8] = [121, 122, 123, 124, 125, 126, 127, 128];

// Every table full, every list as long as it may be, every two rules in conflict.
fn largest(heap: Global) -> Result<Problem, Refusal> {
    let mut axioms = AxiomDraft::open(heap, MOST_FACTS, &LOW)?;
    for conclusion in 9..9 + MOST_AXIOMS as u16 {
        axioms.axiom(
            heap,
            GivenAxiom {
                premises: &LOW,
                conclusion,
            },
        )?;
    }
    let mut rules = axioms.rules(heap);
    for _ in 0..MOST_RULES {
        rules.rule(
            heap,
            GivenRule {
                needed: &NEEDED,
                forbidden: &FORBIDDEN,
                left: &LEFT,
            },
        )?;
    }
    let mut goals = rules.goals(heap);
    for _ in 0..MOST_GOALS {
        goals.goal(
            heap,
            GivenGoal {
                wanted: &LEFT,
                unwanted: &NEEDED,
            },
        )?;
    }
    goals.finish().map_err(|unfinished| unfinished.refusal)
}

fn measure(rt: &HostRuntime, problem: &Problem, k: u32) -> anyhow::Result<()> {
    let heap = rt.alloc();
    let depth = Depth::try_from(k).map_err(|_| anyhow!("too deep"))?;
    let mut store = Store::new(heap, MOST_HELD, MOST_HELD)?;
    let start = Instant::now(rt)?;
    lay(problem, k, &mut store).map_err(|_| anyhow!("refused"))?;
    let laid = start.elapsed(rt)?;
    let page = write_page(heap, &store, variables(problem, depth))?;
    let written = start.elapsed(rt)?;
    let clauses = store.count();
    let literals = store.size();
    let bytes = page.len();
    println!(rt; "depth {k}: {clauses} clauses, {literals} literals, {bytes} bytes")?;
    let laying = laid.as_micros();
    let all = written.as_micros();
    eprintln!(rt; "depth {k}: laid in {laying} us, laid and written in {all} us")?;
    Ok(())
}

fn run(rt: &HostRuntime) -> anyhow::Result<()> {
    let problem = largest(rt.alloc()).map_err(|_| anyhow!("the problem is refused"))?;
    for k in [4, 8, 16] {
        measure(rt, &problem, k)?;
    }
    Ok(())
}

fn main(rt: HostRuntime) -> anyhow::Result<()> {
    run(&rt)
}
