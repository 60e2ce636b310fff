#![tactic(auto)]

// Reads a script of calls on standard input, makes them on one new engine, and prints what each answered and left.
mod bring;
mod error;
mod kind;
mod script;
mod show;

use crate::bring::{ScriptCall, add_calls};
use crate::error::Error;
use crate::kind::Hosted;
use crate::script::MOST_BYTES;
use crate::show::show_call;
use anyhow::anyhow;
use choices::host::WordHost;
use input::read_first;
use service::serve::serve;
use std::env;
use std::fmt::Display;
use std::str::FromStr;
use values::host::Script;
use values::kind::Kind;
use values::word::{BlankWord, NotAValue, Word};

fn read_script(rt: &HostRuntime) -> Result<String, Error> {
    // one byte more than a script may have tells that it is too long
    let text = read_first(rt.alloc(), rt.stdin(), MOST_BYTES + 1)?;
    if text.len() > MOST_BYTES {
        return Err(Error::TooLong);
    }
    String::from_utf8(text).map_err(|_| Error::NoText)
}

fn replay<V: Kind + FromStr<Err = NotAValue> + Display, H: Hosted<V>>(
    rt: &HostRuntime,
) -> Result<(), Error> {
    let script = read_script(rt)?;
    let mut calls: Vec<ScriptCall<V, H>> = Vec::new(rt.alloc());
    add_calls(rt, script.as_str(), &mut calls)?;
    serve(rt.alloc(), &mut calls)?;
    for call in calls.iter() {
        show_call(rt, call)?;
    }
    Ok(())
}

fn run(rt: &HostRuntime) -> Result<(), Error> {
    let mut args = env::args(rt)?.skip(1);
    let (Some(kind), None) = (args.next(), args.next()) else {
        return Err(Error::Usage);
    };
    match kind.as_str() {
        "word" => replay::<Word, WordHost>(rt),
        "blank" => replay::<BlankWord, Script<BlankWord>>(rt),
        _ => Err(Error::Usage),
    }
}

fn main(rt: HostRuntime) -> anyhow::Result<()> {
    match run(&rt) {
        Ok(()) => Ok(()),
        Err(Error::Io(error)) => Err(error.into()),
        Err(error) => {
            eprintln!(rt; "{error}")?;
            Err(anyhow!("no script of calls"))
        }
    }
}
