#![tactic(auto)]

// Kinds of value, hosts and frames by themselves, and runs over each of them.
mod worked;

#[cfg(test)]
mod tests {
    use crate::worked::worked;
    use machine::outcome::{Entry, Outcome, Report};
    use machine::run::run;
    use refusal::{Numbers, Refusal};
    use source::node::{Condition, Operation};
    use std::test::Fail;
    use values::frame::{Banked, Flat, Frame};
    use values::host::{Host, Script, Seats};
    use values::kind::Kind;
    use values::word::{BlankWord, NotAValue, Word};

    // An entry that no run has written.
    fn unwritten() -> Entry<Word> {
        Entry {
            function: 0,
            first: Word(0),
            second: Word(0),
            answer: Word(0),
        }
    }

    // What is said of a run of the worked allocation, which makes three moves.
    fn worked_report<V: Kind>(outcome: Outcome<V>, nodes: u32, entries: usize) -> Report<V> {
        Report {
            outcome,
            nodes,
            moves: 3,
            entries,
        }
    }

    fn question(refusal: Refusal) -> u8 {
        Numbers::from(refusal).question
    }

    #[test]
    fn words(rt: HostRuntime) {
        for (operation, a, b, c) in [
            (Operation::Add, u32::MAX, 2u32, 1u32),
            (Operation::Sub, 0, 1, u32::MAX),
            (Operation::Sub, 7, 5, 2),
            (Operation::Mul, 65537, 65537, 131073),
            (Operation::Min, 3, 5, 3),
            (Operation::Max, 3, 5, 5),
        ] {
            assert_eq!(rt; Word::operate(operation, Word(a), Word(b)), Word(c));
        }
        for (condition, a, b, c) in [
            (Condition::Eq, 3u32, 3u32, true),
            (Condition::Eq, 3, 4, false),
            (Condition::Lt, 3, 4, true),
            (Condition::Lt, 4, 4, false),
            (Condition::Le, 4, 4, true),
            (Condition::Le, 5, 4, false),
        ] {
            assert_eq!(rt; Word::test(condition, Word(a), Word(b)), c);
        }
    }

    // With a blank in either operand an operation gives blank, and a test says no.
    #[test]
    fn blanks(rt: HostRuntime) {
        let blank = BlankWord(None);
        let five = BlankWord::from(Word(5));
        let ten = BlankWord::from(Word(10));
        for (a, b, sum, same) in [
            (blank, five, blank, false),
            (five, blank, blank, false),
            (blank, blank, blank, false),
            (five, five, ten, true),
        ] {
            assert_eq!(rt; BlankWord::operate(Operation::Add, a, b), sum);
            assert_eq!(rt; BlankWord::test(Condition::Eq, a, b), same);
        }
        assert_eq!(rt; BlankWord::constant(7), BlankWord::from(Word(7)));
    }

    // Seat 64 is seat 0; function 2 answers 0 and stores nothing.
    #[test]
    fn seats(rt: HostRuntime) {
        let mut row = [0u32; 64];
        {
            let mut host = Seats { row: &mut row };
            for (function, a, b, answer) in [
                (1u8, 64u32, 7u32, 0u32),
                (0, 0, 8, 7),
                (0, 1, 8, 0),
                (2, 0, 9, 0),
                (1, 128, 11, 7),
                (255, 64, 9, 0),
                (0, 64, 0, 11),
            ] {
                assert_eq!(rt; host.ask(function, Word(a), Word(b)), Word(answer));
            }
        }
        assert_eq!(rt; row[0], 11);
        assert_eq!(rt; row[1], 0);
    }

    // A script that runs out answers 0.
    #[test]
    fn scripts(rt: HostRuntime) -> Result<(), Fail> {
        let mut host = Script::new(vec![in rt.alloc(); Word(9); 2]?);
        for answer in [9u32, 9, 0, 0] {
            assert_eq!(rt; host.ask(1, Word(5), Word(6)), Word(answer));
        }
        Ok(())
    }

    // Cells 0 and 1 are in the first row, 2 to 4 in the second.
    #[test]
    fn banks(rt: HostRuntime) -> Result<(), Fail> {
        let mut frame = Banked {
            low: vec![in rt.alloc(); Word(1); 2]?,
            high: vec![in rt.alloc(); Word(2); 3]?,
        };
        assert!(rt; frame.write(1, Word(10)));
        assert!(rt; frame.write(2, Word(20)));
        assert!(rt; !frame.write(5, Word(50)));
        for (i, n) in [
            (0usize, Some(Word(1))),
            (1, Some(Word(10))),
            (2, Some(Word(20))),
            (3, Some(Word(2))),
            (4, Some(Word(2))),
            (5, None),
        ] {
            assert_eq!(rt; frame.read(i), n);
        }
        Ok(())
    }

    // The call is written to the list, and the entry past it stays.
    #[test]
    fn flat_runs(rt: HostRuntime) -> Result<(), Fail> {
        let mut host = Script::new(vec![in rt.alloc(); Word(9); 1]?);
        let mut frame = Flat {
            row: vec![in rt.alloc(); Word(7); 8]?,
        };
        let mut list = vec![in rt.alloc(); unwritten(); 2]?;
        let args = [Word(u32::MAX), Word(2)];
        assert_eq!(rt;
            run(&worked(), 9, &args, &mut host, &mut frame, &mut []),
            Ok(worked_report(Outcome::Full, 3, 0))
        );
        for (budget, report) in [
            (3u32, worked_report(Outcome::Spent, 3, 0)),
            (9, worked_report(Outcome::Ended(Word(9)), 5, 1)),
        ] {
            assert_eq!(rt;
                run(
                    &worked(),
                    budget,
                    &args,
                    &mut host,
                    &mut frame,
                    list.as_mut_slice()
                ),
                Ok(report)
            );
        }
        let call = Entry {
            function: 7,
            first: Word(1),
            second: Word(2),
            answer: Word(9),
        };
        assert_eq!(rt; list.as_slice(), [call, unwritten()].as_slice());
        Ok(())
    }

    // A run with too few arguments or cells is refused, and asks and writes nothing.
    #[test]
    fn refused_runs(rt: HostRuntime) -> Result<(), Fail> {
        let mut host = Script::new(vec![in rt.alloc(); Word(9); 1]?);
        let mut frame = Flat {
            row: vec![in rt.alloc(); Word(7); 7]?,
        };
        assert_eq!(rt;
            run(&worked(), 9, &[Word(1)], &mut host, &mut frame, &mut []).map_err(question),
            Err(51)
        );
        assert_eq!(rt;
            run(
                &worked(),
                9,
                &[Word(1), Word(2)],
                &mut host,
                &mut frame,
                &mut []
            )
            .map_err(question),
            Err(52)
        );
        assert_eq!(rt; host.ask(0, Word(0), Word(0)), Word(9));
        assert_eq!(rt; frame.row.as_slice(), [Word(7); 7].as_slice());
        Ok(())
    }

    // The rows of the frame meet in the middle of the registers, and the seats answer 0 to function 7.
    #[test]
    fn banked_runs(rt: HostRuntime) -> Result<(), Fail> {
        let mut row = [5u32; 64];
        let mut frame = Banked {
            low: vec![in rt.alloc(); Word(7); 2]?,
            high: vec![in rt.alloc(); Word(7); 6]?,
        };
        assert_eq!(rt;
            run(
                &worked(),
                9,
                &[Word(u32::MAX), Word(2)],
                &mut Seats { row: &mut row },
                &mut frame,
                &mut [unwritten()],
            ),
            Ok(worked_report(Outcome::Ended(Word(0)), 5, 1))
        );
        assert_eq!(rt; row[1], 5);
        Ok(())
    }

    // The sum with a blank is blank, and the branch on it goes to no.
    #[test]
    fn blank_runs(rt: HostRuntime) -> Result<(), Fail> {
        let blank = BlankWord(None);
        let five = BlankWord::from(Word(5));
        let ten = BlankWord::from(Word(10));
        let mut host = Script::new(vec![in rt.alloc(); BlankWord::from(Word(9)); 1]?);
        let mut frame = Flat {
            row: vec![in rt.alloc(); BlankWord::from(Word(7)); 8]?,
        };
        for (a, b, end) in [
            (blank, ten, blank),
            (five, blank, blank),
            (five, ten, BlankWord::from(Word(15))),
        ] {
            assert_eq!(rt;
                run(&worked(), 9, &[a, b], &mut host, &mut frame, &mut []),
                Ok(worked_report(Outcome::Ended(end), 4, 0))
            );
        }
        Ok(())
    }

    // A value is written as its number, a blank as `-`, and what is written is read back.
    #[test]
    fn written_values(rt: HostRuntime) -> Result<(), Fail> {
        let heap = rt.alloc();
        for (text, word) in [
            ("0", Ok(Word(0))),
            ("4294967295", Ok(Word(u32::MAX))),
            ("4294967296", Err(NotAValue)),
            ("07", Err(NotAValue)),
            ("-", Err(NotAValue)),
            ("", Err(NotAValue)),
        ] {
            assert_eq!(rt; text.parse::<Word>(), word);
            if let Ok(w) = word {
                assert_eq!(rt; format!(in heap; "{w}")?.as_str(), text);
            }
        }
        for (text, value) in [("-", BlankWord(None)), ("12", BlankWord::from(Word(12)))] {
            assert_eq!(rt; text.parse::<BlankWord>(), Ok(value));
            assert_eq!(rt; format!(in heap; "{value}")?.as_str(), text);
        }
        assert_eq!(rt; "--".parse::<BlankWord>(), Err(NotAValue));
        Ok(())
    }
}
