// Either host, for words.
ghost use Rattle.std.specs.Prelude.{ℕ, List, []};
ghost use Rattle.values.specs.Hosts.{seats};
ghost use Rattle.choices.specs.Chosen.{State, state_of, chosen};

use values::host::{Host, Script, Seats};
use values::word::Word;

// 64 seats that are its own, lent while it is asked.
#[derive(Drop)]
pub struct Row {
    pub seats: [u32; 64],
}

impl Host for Row {
    type Value = Word;

    ghost State = { List ℕ };

    ghost state = { λ r. r.seats };

    ghost means = { seats };

    ghost lent = { λ _. [] };

    fn ask(&mut self, function: u8, a: Word, b: Word) -> Word {
        let mut seats = Seats {
            row: &mut self.seats,
        };
        seats.ask(function, a, b)
    }
}

#[derive(Drop)]
pub enum WordHost {
    Script(Script<Word>),
    Seats(Row),
}

impl Host for WordHost {
    type Value = Word;

    ghost State = { State };

    ghost state = { state_of };

    ghost means = { chosen };

    ghost lent = { λ _. [] };

    fn ask(&mut self, function: u8, a: Word, b: Word) -> Word {
        match self {
            WordHost::Script(host) => host.ask(function, a, b),
            WordHost::Seats(host) => host.ask(function, a, b),
        }
    }
}
