// What is printed of a call that was made: its answer, and what it left. It is several lines, and bytes of a buffer that
// need be no text, so it is printed as it comes and is no Display.
use crate::bring::{ScriptCall, UNWRITTEN};
use crate::kind::Hosted;
use choices::frame::AnyFrame;
use machine::outcome::{Entry, Outcome, Report};
use refusal::Refusal;
use service::call::{Call, Load, Offer, Place, Run, Write};
use std::fmt::Display;
use std::{fmt, io};
use values::kind::Kind;

// Values, each as one more field of a line.
#[derive(Clone, Copy)]
pub struct Fields<'a, V>(pub &'a [V]);

impl<V: Display> Display for Fields<'_, V> {
    fn fmt<W: fmt::Write>(&self, f: &mut fmt::Formatter<W>) -> fmt::Result {
        for value in self.0 {
            write!(f, "\t{value}")?;
        }
        Ok(())
    }
}

impl<V: Display> Fields<'_, V> {
    pub fn show(&self, rt: &HostRuntime) -> io::Result<()> {
        print!(rt; "{self}")
    }
}

fn show_load(rt: &HostRuntime, answer: Result<(u8, u16, u32), Refusal>) -> io::Result<()> {
    match answer {
        Ok((temporaries, nodes, most)) => {
            println!(rt; "granted\t{temporaries}\t{nodes}\t{most}")
        }
        Err(refusal) => println!(rt; "{refusal}"),
    }
}

// How many words were written, and their sum modulo 2^64.
fn show_memory(rt: &HostRuntime, memory: &[u64]) -> io::Result<()> {
    let (written, sum) = memory
        .iter()
        .filter(|word| **word != UNWRITTEN)
        .fold((0usize, 0u64), |(written, sum), word| {
            (written.saturating_add(1), sum.wrapping_add(*word))
        });
    println!(rt; "memory\t{written}\t{sum}")
}

// Whether the main lines were matched with their nodes, so that the work memory is written.
fn is_matched(refusal: Refusal) -> bool {
    matches!(
        refusal,
        Refusal::Elsewhere { .. }
            | Refusal::Overwritten { .. }
            | Refusal::NeverSet { .. }
            | Refusal::Foreign { .. }
    )
}

// Of an offer or a placement.
fn show_verdict(rt: &HostRuntime, answer: Result<u32, Refusal>, memory: &[u64]) -> io::Result<()> {
    match answer {
        Ok(moves) => {
            println!(rt; "granted\t{moves}")?;
            show_memory(rt, memory)
        }
        Err(refusal) => {
            println!(rt; "{refusal}")?;
            if is_matched(refusal) {
                show_memory(rt, memory)?;
            }
            Ok(())
        }
    }
}

fn show_report<V: Kind + Display>(rt: &HostRuntime, report: &Report<V>) -> io::Result<()> {
    match report.outcome {
        Outcome::Ended(value) => print!(rt; "granted\tended\t{value}")?,
        Outcome::Spent => print!(rt; "granted\tspent")?,
        Outcome::Full => print!(rt; "granted\tfull")?,
    }
    let nodes = report.nodes;
    let moves = report.moves;
    let entries = report.entries;
    println!(rt; "\t{nodes}\t{moves}\t{entries}")
}

fn show_cells<V: Kind + Display>(rt: &HostRuntime, frame: &AnyFrame<V>) -> io::Result<()> {
    print!(rt; "cells")?;
    match frame {
        AnyFrame::Flat(flat) => Fields(flat.row.as_slice()).show(rt)?,
        AnyFrame::Banked(banked) => {
            Fields(banked.low.as_slice()).show(rt)?;
            Fields(banked.high.as_slice()).show(rt)?;
        }
    }
    println!(rt; "")
}

fn show_entry<V: Kind + Display>(rt: &HostRuntime, entry: &Entry<V>) -> io::Result<()> {
    let Entry {
        function,
        first,
        second,
        answer,
    } = *entry;
    println!(rt; "call\t{function}\t{first}\t{second}\t{answer}")
}

fn show_run<V: Kind + Display, H: Hosted<V>>(
    rt: &HostRuntime,
    run: &Run<V, H, AnyFrame<V>>,
) -> io::Result<()> {
    match &run.answer {
        Some(Ok(report)) => {
            show_report(rt, report)?;
            show_cells(rt, &run.frame)?;
            print!(rt; "host")?;
            run.host.show_state(rt)?;
            println!(rt; "")?;
            for entry in run.list.iter().take(report.entries) {
                show_entry(rt, entry)?;
            }
            Ok(())
        }
        Some(Err(refusal)) => println!(rt; "{refusal}"),
        None => Ok(()),
    }
}

fn show_write(rt: &HostRuntime, write: &Write) -> io::Result<()> {
    match write.answer {
        Some(Ok(bytes)) => {
            println!(rt; "granted\t{bytes}")?;
            match write.buffer.as_slice().split_at_checked(write.at) {
                Some((_, rest)) => rt.write_all(&rest[..bytes.min(rest.len())]),
                None => Ok(()),
            }
        }
        Some(Err(refusal)) => println!(rt; "{refusal}"),
        None => Ok(()),
    }
}

pub fn show_call<V: Kind + Display, H: Hosted<V>>(
    rt: &HostRuntime,
    call: &ScriptCall<V, H>,
) -> io::Result<()> {
    match call {
        Call::Load(
            Load {
                answer: Some(answer),
                ..
            },
        ) => show_load(rt, *answer),
        Call::Offer(
            Offer {
                answer: Some(answer),
                memory,
                ..
            },
        ) => show_verdict(rt, *answer, memory.as_slice()),
        Call::Place(
            Place {
                answer: Some(answer),
                memory,
                ..
            },
        ) => show_verdict(rt, *answer, memory.as_slice()),
        Call::Run(run) => show_run(rt, run),
        Call::Write(write) => show_write(rt, write),
        // a call that was not made has nothing to show
        _ => Ok(()),
    }
}
