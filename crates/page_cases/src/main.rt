// Prints, for each line of standard input, a case's name and what the page program prints for its bytes.
#![tactic(auto)]

use anyhow::anyhow;
use pages::printing::page_text;
use std::alloc::Global;

fn digit(b: u8) -> u8 {
    if b <= b'9' { b & 15 } else { (b & 15) + 9 }
}

// The bytes that hexadecimal digits name. Not by the crate hex, which refuses lines that this program reads.
fn bytes(heap: Global, digits: &[u8]) -> anyhow::Result<Vec<u8>> {
    let mut all = Vec::new(heap);
    for pair in digits.chunks_exact(2) {
        if let [high, low] = pair {
            all.push((digit(*high) & 15) * 16 + (digit(*low) & 15))?;
        }
    }
    Ok(all)
}

fn run(rt: &HostRuntime) -> anyhow::Result<()> {
    let heap = rt.alloc();
    for line in rt.lines(heap) {
        let line = line?;
        let (name, digits) = line
            .split_once(' ')
            .ok_or_else(|| anyhow!("a line has no space"))?;
        let input = bytes(heap, digits.as_bytes())?;
        let text = page_text(heap, &input).map_err(|_| anyhow!("out of memory"))?;
        rt.println(name)?;
        rt.print(text.as_str())?;
    }
    Ok(())
}

fn main(rt: HostRuntime) -> anyhow::Result<()> {
    run(&rt)
}
