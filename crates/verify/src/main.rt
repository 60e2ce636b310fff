#![tactic(auto)]

// Reads a source and an allocation from two files, and prints whether the allocation is accepted, or the refusal.
use anyhow::bail;
use input::read_file;
use loader::holder::Loader;
use offer::offer;
use reading::reader::Reader;
use refusal::Refusal;
use std::alloc::{AllocError, Global};
use std::env;

// Words of work memory: enough for 256 nodes.
const WORDS: usize = 16_384;

// The text of a file; if there is none, why is said.
fn text_of(rt: &HostRuntime, path: &str) -> anyhow::Result<Vec<u8>> {
    match read_file(rt.alloc(), rt, path) {
        Ok(text) => Ok(text),
        // said here, since the program's own error is one word
        Err(error) => {
            eprintln!(rt; "verify: {path}: {error}")?;
            bail!("refused")
        }
    }
}

// Loads the source and offers the allocation: how many moves it has, or the refusal.
fn check(heap: Global, source: &[u8], text: &[u8]) -> Result<Result<u16, Refusal>, AllocError> {
    let mut loader = Loader::new(heap)?;
    if let Err(refusal) = loader.load(source) {
        return Ok(Err(refusal));
    }
    // for a source that is refused, nothing more is taken
    let mut reader = Reader::new(heap)?;
    let mut memory = vec![in heap; 0u64; WORDS]?;
    Ok(offer(&loader, &mut reader, text, &mut memory))
}

fn main(rt: HostRuntime) -> anyhow::Result<()> {
    let mut args = env::args(&rt)?.skip(1);
    let (Some(source), Some(allocation), None) = (args.next(), args.next(), args.next()) else {
        eprintln!(rt; "usage: verify SOURCE ALLOCATION")?;
        bail!("refused");
    };
    let source = text_of(&rt, source.as_str())?;
    let allocation = text_of(&rt, allocation.as_str())?;
    match check(rt.alloc(), &source, &allocation)? {
        Ok(moves) => println!(rt; "accepted\t{moves}")?,
        Err(refusal) => {
            println!(rt; "{refusal}")?;
            bail!("refused");
        }
    }
    Ok(())
}
