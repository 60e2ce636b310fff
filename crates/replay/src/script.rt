// The calls that the lines of a script write.
use crate::kind::HostName;
use choices::placer::AnyPlacer;
use text::number::read_number;

// The most bytes of a script.
pub const MOST_BYTES: usize = 1_048_576;

// The most words of work memory, bytes of a buffer, cells of a frame and entries of a list.
const MOST_WORDS: usize = 32_768;

const MOST_ROOM: usize = 65_536;

const MOST_CELLS: usize = 4_096;

const MOST_ENTRIES: usize = 4_096;

// How many cells each row of a frame has.
#[derive(Clone, Copy)]
pub enum FrameSize {
    Flat(usize),
    Banked(usize, usize),
}

// What a run is to have; its values are still as they are written.
#[derive(Drop)]
pub struct RunLine<'a> {
    pub budget: u32,
    pub list: usize,
    pub frame: FrameSize,
    pub host: HostName,
    pub values: &'a str,
    pub args: &'a str,
}

// A call as a line writes it.
#[derive(Drop)]
pub enum Line<'a> {
    Load {
        path: &'a str,
    },
    Offer {
        path: &'a str,
        words: usize,
    },
    Place {
        placer: AnyPlacer,
        registers: u64,
        words: usize,
    },
    Run(RunLine<'a>),
    Write {
        at: usize,
        size: usize,
    },
}

// A number of at most `most`.
fn read_up_to(field: &str, most: usize) -> Option<usize> {
    let n = read_number(field.as_bytes())? as usize;
    (n <= most).then_some(n)
}

fn read_flat(cells: &str) -> Option<FrameSize> {
    let cells = read_up_to(cells, MOST_CELLS)?;
    Some(FrameSize::Flat(cells))
}

fn read_banked(first: &str, second: &str) -> Option<FrameSize> {
    let first = read_up_to(first, MOST_CELLS)?;
    let second = read_up_to(second, MOST_CELLS.checked_sub(first)?)?;
    Some(FrameSize::Banked(first, second))
}

fn read_offer<'a>(path: &'a str, words: &str) -> Option<Line<'a>> {
    let words = read_up_to(words, MOST_WORDS)?;
    Some(Line::Offer { path, words })
}

fn read_place<'a>(placer: &str, registers: &str, words: &str) -> Option<Line<'a>> {
    Some(Line::Place {
        placer: placer.parse().ok()?,
        registers: read_number(registers.as_bytes())?,
        words: read_up_to(words, MOST_WORDS)?,
    })
}

fn read_write<'a>(at: &str, size: &str) -> Option<Line<'a>> {
    Some(Line::Write {
        at: read_up_to(at, usize::MAX)?,
        size: read_up_to(size, MOST_ROOM)?,
    })
}

fn read_run<'a>(
    budget: &str,
    list: &str,
    frame: FrameSize,
    host: &str,
    values: &'a str,
    args: &'a str,
) -> Option<Line<'a>> {
    Some(Line::Run(RunLine {
        budget: u32::try_from(read_number(budget.as_bytes())?).ok()?,
        list: read_up_to(list, MOST_ENTRIES)?,
        frame,
        host: host.parse().ok()?,
        values,
        args,
    }))
}

// The call that the fields of a line write, or none.
pub fn read_line<'a>(fields: &[&'a str]) -> Option<Line<'a>> {
    match fields {
        ["load", path] => Some(Line::Load { path }),
        ["offer", path, words] => read_offer(path, words),
        ["place", placer, registers, words] => read_place(placer, registers, words),
        ["run", budget, list, "flat", cells, host, values, args] => {
            read_run(budget, list, read_flat(cells)?, host, values, args)
        }
        [
            "run",
            budget,
            list,
            "banked",
            first,
            second,
            host,
            values,
            args,
        ] => {
            read_run(
                budget,
                list,
                read_banked(first, second)?,
                host,
                values,
                args,
            )
        }
        ["write", at, size] => read_write(at, size),
        _ => None,
    }
}
