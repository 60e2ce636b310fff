#![tactic(auto)]

// A life of an engine whose runs are of two kinds of value, with a lent row of seats.

#[cfg(test)]
mod tests {
    use machine::outcome::{Entry, Outcome, Report};
    use places::placer::AllHome;
    use refusal::Refusal;
    use service::call::{Load, Place, Run};
    use service::mixed::{End, Then, serve_all};
    use std::alloc::{AllocError, Global};
    use std::test::Fail;
    use values::frame::{Banked, Flat};
    use values::host::{Script, Seats};
    use values::word::{BlankWord, Word};

    // Function 1 of the host is asked with both parameters, and its answer is the end.
    const SOURCE: &[u8] = b"source\t2\t3\t2\ncall\t2\t1\t0\t1\t1\nret\t2\n";

    // Whether the calls of the life answered what they should.
    fn mix(heap: Global, row: &mut [u32; 64]) -> Result<bool, AllocError> {
        let mut text = Vec::new(heap);
        text.extend_from_slice(SOURCE)?;
        let load = Load { text, answer: None };
        let place = Place {
            placer: AllHome,
            registers: 3,
            memory: vec![in heap; 0; 128]?,
            answer: None,
        };
        let blank = Entry {
            function: 0,
            first: Word(0),
            second: Word(0),
            answer: Word(0),
        };
        let words = Run {
            budget: 9,
            args: vec![in heap; Word(68), Word(9)]?,
            host: Seats { row },
            frame: Flat {
                row: vec![in heap; Word(0); 6]?,
            },
            list: vec![in heap; blank; 1]?,
            answer: None,
        };
        let blanks = Run {
            budget: 9,
            args: vec![in heap; BlankWord(None)]?,
            host: Script::new(Vec::new(heap)),
            frame: Banked {
                low: vec![in heap; BlankWord(None); 2]?,
                high: vec![in heap; BlankWord(None); 4]?,
            },
            list: Vec::new(heap),
            answer: None,
        };
        let runs = Then {
            call: words,
            rest: Then {
                call: blanks,
                rest: End,
            },
        };
        let mut all = Then {
            call: load,
            rest: Then {
                call: place,
                rest: runs,
            },
        };
        serve_all(heap, &mut all)?;
        Ok(
            matches!(all.call.answer, Some(Ok((3, 2, 2))))
                && matches!(all.rest.call.answer, Some(Ok(4)))
                && matches!(
                    all.rest.rest.call.answer,
                    Some(Ok(Report {
                        outcome: Outcome::Ended(Word(5)),
                        nodes: 2,
                        moves: 4,
                        entries: 1,
                    }))
                )
                && matches!(
                    all.rest.rest.rest.call.answer,
                    Some(Err(Refusal::Arguments))
                ),
        )
    }

    #[test]
    fn kinds_mix_and_a_row_is_lent(rt: HostRuntime) -> Result<(), Fail> {
        let mut row = [5; 64];
        let right = mix(rt.alloc(), &mut row)?;
        assert!(rt; right);
        assert!(rt; row[4] == 9);
        Ok(())
    }
}
