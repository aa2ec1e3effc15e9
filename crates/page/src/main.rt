// Prints the clause list of a problem at a depth as a DIMACS page: a depth byte and a file come by standard input.
#![tactic(auto)]

use anyhow::anyhow;
use pages::printing::page_text;
use refusals::limits::MOST_FILE_BYTES;
use std::io::Read;
use std::process::ExitCode;

fn run(rt: &HostRuntime) -> anyhow::Result<()> {
    let mut input = Vec::new(rt.alloc());
    rt.stdin()
        .take(1 + MOST_FILE_BYTES as u64)
        .read_to_end(&mut input)?;
    let text = page_text(rt.alloc(), &input).map_err(|_| anyhow!("out of memory"))?;
    rt.print(text.as_str())?;
    Ok(())
}

fn main(rt: HostRuntime) -> ExitCode {
    match run(&rt) {
        Ok(()) => ExitCode::SUCCESS,
        Err(e) => {
            let _ = eprintln!(rt; "{e}");
            ExitCode::FAILURE
        }
    }
}
