// What the calls of a script bring: texts, memory, arguments, hosts, frames, lists and buffers.
use crate::error::{Error, LineError};
use crate::kind::Hosted;
use crate::script::{FrameSize, Line, RunLine, read_line};
use choices::frame::AnyFrame;
use choices::placer::AnyPlacer;
use input::read_file;
use machine::outcome::Entry;
use service::call::{Call, Load, Offer, Place, Run, Write};
use std::alloc::{AllocError, Global};
use std::fs::File;
use std::io;
use std::str::FromStr;
use values::frame::{Banked, Flat};
use values::kind::Kind;
use values::word::NotAValue;

// The most calls of a script.
pub const MOST_CALLS: usize = 1_024;

// What every cell holds at first.
const CELL: u32 = 7;

// What every word of work memory is at first: no check writes it, so that words that are written show.
pub const UNWRITTEN: u64 = u64::MAX;

pub type ScriptCall<V, H> = Call<V, H, AnyFrame<V>, AnyPlacer>;

fn bring_cells<V: Kind>(heap: Global, cells: usize) -> Result<Vec<V>, AllocError> {
    vec![in heap; V::constant(CELL); cells]
}

fn bring_frame<V: Kind>(heap: Global, size: FrameSize) -> Result<AnyFrame<V>, AllocError> {
    match size {
        FrameSize::Flat(cells) => {
            let row = bring_cells(heap, cells)?;
            Ok(AnyFrame::Flat(Flat { row }))
        }
        FrameSize::Banked(first, second) => {
            let low = bring_cells(heap, first)?;
            let high = bring_cells(heap, second)?;
            Ok(AnyFrame::Banked(Banked { low, high }))
        }
    }
}

fn bring_list<V: Kind>(heap: Global, entries: usize) -> Result<Vec<Entry<V>>, AllocError> {
    let zero = V::constant(0);
    let entry = Entry {
        function: 0,
        first: zero,
        second: zero,
        answer: zero,
    };
    vec![in heap; entry; entries]
}

// The values that are written: none is `.`, and others are parted by commas.
fn bring_values<V: FromStr<Err = NotAValue> + Drop>(
    heap: Global,
    field: &str,
) -> Result<Vec<V>, LineError> {
    let mut values = Vec::new(heap);
    if field == "." {
        return Ok(values);
    }
    for part in field.split(',') {
        values.push(part.parse()?)?;
    }
    Ok(values)
}

fn bring_run<V: Kind + FromStr<Err = NotAValue>, H: Hosted<V>>(
    heap: Global,
    line: RunLine<'_>,
) -> Result<Run<V, H, AnyFrame<V>>, LineError> {
    let args = bring_values(heap, line.args)?;
    let values = bring_values(heap, line.values)?;
    Ok(Run {
        budget: line.budget,
        args,
        host: H::from_values(line.host, values).ok_or(LineError::NoCall)?,
        frame: bring_frame(heap, line.frame)?,
        list: bring_list(heap, line.list)?,
        answer: None,
    })
}

// The call of a line, with all that it brings.
fn bring_call<V: Kind + FromStr<Err = NotAValue>, H: Hosted<V>>(
    rt: &HostRuntime,
    line: Line<'_>,
) -> Result<ScriptCall<V, H>, LineError> {
    let heap = rt.alloc();
    Ok(match line {
        Line::Load { path } => Call::Load(Load {
            text: read_file(rt.alloc(), rt, path)?,
            answer: None,
        }),
        Line::Offer { path, words } => Call::Offer(Offer {
            text: read_file(rt.alloc(), rt, path)?,
            memory: vec![in heap; UNWRITTEN; words]?,
            answer: None,
        }),
        Line::Place {
            placer,
            registers,
            words,
        } => Call::Place(Place {
            placer,
            registers,
            memory: vec![in heap; UNWRITTEN; words]?,
            answer: None,
        }),
        Line::Run(run) => Call::Run(bring_run(heap, run)?),
        Line::Write { at, size } => Call::Write(Write {
            buffer: vec![in heap; 0u8; size]?,
            at,
            answer: None,
        }),
    })
}

// Adds the call of a line. A blank line is no call and does no harm.
fn add_line<V: Kind + FromStr<Err = NotAValue>, H: Hosted<V>>(
    rt: &HostRuntime,
    line: usize,
    text: &str,
    calls: &mut Vec<ScriptCall<V, H>>,
) -> Result<(), Error> {
    if text.is_empty() {
        return Ok(());
    }
    let of_line = |error| Error::Line { line, error };
    if calls.len() >= MOST_CALLS {
        return Err(of_line(LineError::OneMore));
    }
    let fields: Vec<&str> = text.split('\t').collect(rt.alloc())?;
    let call = read_line(fields.as_slice())
        .ok_or(LineError::NoCall)
        .and_then(|read| bring_call(rt, read))
        .map_err(of_line)?;
    calls.push(call)?;
    Ok(())
}

// Adds the calls of a script.
pub fn add_calls<V: Kind + FromStr<Err = NotAValue>, H: Hosted<V>>(
    rt: &HostRuntime,
    script: &str,
    calls: &mut Vec<ScriptCall<V, H>>,
) -> Result<(), Error> {
    for (i, text) in script.split('\n').enumerate() {
        add_line(rt, i.saturating_add(1), text, calls)?;
    }
    Ok(())
}
