// The hosts of a kind of value, as scripts write them.
use crate::show::Fields;
use choices::host::{Row, WordHost};
use std::io;
use std::str::FromStr;
use values::host::{Host, Script};
use values::kind::Kind;
use values::word::{BlankWord, Word};

#[derive(Clone, Copy)]
pub enum HostName {
    Script,
    Seats,
}

// A word that names no host.
#[derive(Clone, Copy)]
pub struct NoHost;

impl FromStr for HostName {
    type Err = NoHost;

    fn from_str(s: &str) -> Result<HostName, NoHost> {
        match s {
            "script" => Ok(HostName::Script),
            "seats" => Ok(HostName::Seats),
            _ => Err(NoHost),
        }
    }
}

// A host that a script can name.
pub trait Hosted<V: Kind>: Host<Value = V> + Drop {
    // None where the kind has no such host, or there are too many values for it.
    fn from_values(name: HostName, values: Vec<V>) -> Option<Self>;

    // Prints its state, a field for each value.
    fn show_state(&self, rt: &HostRuntime) -> io::Result<()>;
}

// A row of 64 seats that begins with these words.
fn fill_seats(words: &[Word]) -> Option<Row> {
    if words.len() > 64 {
        return None;
    }
    let mut seats = [0u32; 64];
    for (seat, word) in seats.iter_mut().zip(words) {
        *seat = word.0;
    }
    Some(Row { seats })
}

impl Hosted<Word> for WordHost {
    fn from_values(name: HostName, values: Vec<Word>) -> Option<WordHost> {
        match name {
            HostName::Script => Some(WordHost::Script(Script::new(values))),
            HostName::Seats => fill_seats(values.as_slice()).map(WordHost::Seats),
        }
    }

    fn show_state(&self, rt: &HostRuntime) -> io::Result<()> {
        match self {
            WordHost::Script(host) => Fields(host.left()).show(rt),
            WordHost::Seats(row) => Fields(row.seats.as_slice()).show(rt),
        }
    }
}

impl Hosted<BlankWord> for Script<BlankWord> {
    fn from_values(name: HostName, values: Vec<BlankWord>) -> Option<Script<BlankWord>> {
        match name {
            HostName::Script => Some(Script::new(values)),
            HostName::Seats => None,
        }
    }

    fn show_state(&self, rt: &HostRuntime) -> io::Result<()> {
        Fields(self.left()).show(rt)
    }
}
