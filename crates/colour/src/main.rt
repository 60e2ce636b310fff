#![tactic(auto)]

// Reads a source text on standard input, places its temporaries by colouring, and prints the allocation, or the refusal.
use allocation::tables::Tables;
use anyhow::bail;
use colouring::placer::Colouring;
use input::read_text;
use loader::holder::Loader;
use placement::place;
use refusal::Refusal;
use std::io::Write;
use std::{env, io};
use text::number::read_number;
use writer::write;

// Words of work memory: enough for 128 nodes.
const WORDS: usize = 8_192;

// Room for the longest text that is published.
const ROOM: usize = 32_768;

// Loads the source and places it: the length of the allocation's text, which is written to `text`.
fn place_source(
    loader: &mut Loader,
    tables: &mut Tables,
    source: &[u8],
    registers: u64,
    memory: &mut [u64],
    text: &mut [u8],
) -> Result<usize, Refusal> {
    loader.load(source)?;
    place(loader, tables, &Colouring, registers, memory)?;
    write(tables, text, 0)
}

// The number of registers, which is the only argument.
fn registers_of(rt: &HostRuntime) -> io::Result<Option<u64>> {
    let mut args = env::args(rt)?.skip(1);
    let (Some(registers), None) = (args.next(), args.next()) else {
        return Ok(None);
    };
    Ok(read_number(registers.as_bytes()))
}

fn main(rt: HostRuntime) -> anyhow::Result<()> {
    let Some(registers) = registers_of(&rt)? else {
        eprintln!(rt; "usage: colour REGISTERS < SOURCE")?;
        bail!("refused");
    };
    let heap = rt.alloc();
    let source = read_text(heap, rt.stdin())?;
    let mut loader = Loader::new(heap)?;
    let mut tables = Tables::new(heap)?;
    let mut memory = vec![in heap; 0u64; WORDS]?;
    let mut text = vec![in heap; 0u8; ROOM]?;
    match place_source(
        &mut loader,
        &mut tables,
        &source,
        registers,
        &mut memory,
        &mut text,
    ) {
        Ok(length) => {
            if let Some(written) = text.get(..length) {
                rt.stdout().write_all(written)?;
            }
        }
        Err(refusal) => {
            println!(rt; "{refusal}")?;
            bail!("refused");
        }
    }
    Ok(())
}
