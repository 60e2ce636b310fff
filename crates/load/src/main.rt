#![tactic(auto)]

// Reads a source text on standard input and prints its three counts, or the refusal.
use anyhow::bail;
use input::read_text;
use loader::holder::Loader;
use std::env;

fn main(rt: HostRuntime) -> anyhow::Result<()> {
    if env::args(&rt)?.count() > 1 {
        eprintln!(rt; "usage: load < SOURCE")?;
        bail!("refused");
    }
    let text = read_text(rt.alloc(), rt.stdin())?;
    let mut loader = Loader::new(rt.alloc())?;
    match loader.load(text.as_slice()) {
        Ok((temporaries, nodes, most)) => println!(rt; "{temporaries}\t{nodes}\t{most}")?,
        Err(refusal) => {
            println!(rt; "{refusal}")?;
            bail!("refused");
        }
    }
    Ok(())
}
