#![tactic(auto)]

// Allocations that are offered: accepted, or refused by each question of the check.
#[cfg(test)]
mod tests {
    use loader::holder::Loader;
    use offer::offer;
    use reading::reader::Reader;
    use refusal::Numbers;
    use std::test::Fail;

    const WORKED: &[u8] =
        b"source\t2\t4\t5\nadd\t2\t0\t1\t1\nmov\t3\t2\t2\nbr\tlt\t3\t0\t3\t4\ncall\t3\t7\t3\t1\t4\nret\t3\n";

    const LOOP: &[u8] =
        b"source\t1\t2\t4\nconst\t1\t1\t1\nsub\t0\t0\t1\t2\nbr\tlt\t1\t0\t1\t3\nret\t0\n";

    // The count of moves, or the four numbers of the refusal.
    fn answer(
        loader: &Loader,
        reader: &mut Reader,
        text: &[u8],
        memory: &mut [u64],
    ) -> Result<u16, Numbers> {
        offer(loader, reader, text, memory).map_err(Numbers::from)
    }

    fn refused(question: u8, place: usize, temporary: u8, location: u8) -> Result<u16, Numbers> {
        Err(Numbers {
            question,
            place,
            temporary,
            location,
        })
    }

    // The sets before the nodes are left in the words of the nodes, and the words past them stay.
    #[test]
    fn worked_allocation(rt: HostRuntime) -> Result<(), Fail> {
        let mut loader = Loader::new(rt.alloc())?;
        let mut reader = Reader::new(rt.alloc())?;
        let mut short = vec![in rt.alloc(); u64::MAX; 319]?;
        let mut memory = vec![in rt.alloc(); u64::MAX; 384]?;
        let text =
            b"alloc\t4\t4\t5\nentry\tr1\ts1\nin\tr2\ts0\nadd\tr0\tr2\tr1\nskip\nin\tr3\ts0\nbr\tlt\tr0\tr3\ncall\tr0\t7\tr0\tr1\nret\tr0\n";
        assert_eq!(rt;
            answer(&loader, &mut reader, text, memory.as_mut_slice()),
            refused(20, 0, 0, 0)
        );
        assert!(rt; loader.load(WORKED).is_ok());
        assert_eq!(rt;
            answer(&loader, &mut reader, text, short.as_mut_slice()),
            refused(31, 0, 0, 0)
        );
        assert_eq!(rt;
            answer(
                &loader,
                &mut reader,
                b"alloc\t4\t4\t5\n",
                memory.as_mut_slice(),
            ),
            refused(27, 2, 0, 0)
        );
        assert_eq!(rt; memory.get(128).copied(), Some(u64::MAX));
        assert_eq!(rt;
            answer(&loader, &mut reader, text, memory.as_mut_slice()),
            Ok(3)
        );
        for (word, set) in [
            (127usize, 0u64),
            (128, 8),
            (129, 2),
            (130, 0),
            (131, 0),
            (132, 1),
            (133, 0),
            (319, 0),
            (320, u64::MAX),
            (383, u64::MAX),
        ] {
            assert_eq!(rt; memory.get(word).copied(), Some(set));
        }
        Ok(())
    }

    #[test]
    fn refusals(rt: HostRuntime) -> Result<(), Fail> {
        let mut loader = Loader::new(rt.alloc())?;
        let mut reader = Reader::new(rt.alloc())?;
        let mut memory = vec![in rt.alloc(); 0u64; 320]?;
        assert!(rt; loader.load(WORKED).is_ok());
        for (text, numbers) in [
            // another word, another host function, another condition, and a skip at a call
            (
                b"alloc\t4\t4\t5\nentry\tr1\ts1\nin\tr2\ts0\nsub\tr0\tr2\tr1\nskip\nin\tr3\ts0\nbr\tlt\tr0\tr3\ncall\tr0\t7\tr0\tr1\nret\tr0\n" as &[u8],
                refused(32, 0, 0, 0),
            ),
            (
                b"alloc\t4\t4\t5\nentry\tr1\ts1\nin\tr2\ts0\nadd\tr0\tr2\tr1\nskip\nin\tr3\ts0\nbr\tlt\tr0\tr3\ncall\tr0\t8\tr0\tr1\nret\tr0\n",
                refused(32, 3, 0, 0),
            ),
            (
                b"alloc\t4\t4\t5\nentry\tr1\ts1\nin\tr2\ts0\nadd\tr0\tr2\tr1\nskip\nin\tr3\ts0\nbr\tle\tr0\tr3\ncall\tr0\t7\tr0\tr1\nret\tr0\n",
                refused(32, 2, 0, 0),
            ),
            (
                b"alloc\t4\t4\t5\nentry\tr1\ts1\nin\tr2\ts0\nadd\tr0\tr2\tr1\nskip\nin\tr3\ts0\nbr\tlt\tr0\tr3\nskip\nret\tr0\n",
                refused(32, 3, 0, 0),
            ),
            // the sum is put where nobody looks for it
            (
                b"alloc\t4\t4\t5\nentry\tr1\ts1\nin\tr2\ts0\nadd\tr1\tr2\tr1\nskip\nin\tr3\ts0\nbr\tlt\tr0\tr3\ncall\tr0\t7\tr0\tr1\nret\tr0\n",
                refused(33, 0, 2, 0),
            ),
            // the sum is never made
            (
                b"alloc\t4\t4\t5\nentry\tr1\ts1\nin\tr2\ts0\nskip\nskip\nin\tr3\ts0\nbr\tlt\tr0\tr3\ncall\tr0\t7\tr0\tr1\nret\tr0\n",
                refused(35, 0, 2, 0),
            ),
            // a parameter is looked for in a register, and arrives in its slot
            (
                b"alloc\t4\t4\t5\nin\tr2\ts0\nadd\tr0\tr2\tr1\nskip\nin\tr3\ts0\nbr\tlt\tr0\tr3\ncall\tr0\t7\tr0\tr1\nret\tr0\n",
                refused(36, 0, 1, 1),
            ),
            // and the other one in the wrong slot
            (
                b"alloc\t4\t4\t5\nentry\tr1\ts1\nin\tr2\ts2\nadd\tr0\tr2\tr1\nskip\nin\tr3\ts0\nbr\tlt\tr0\tr3\ncall\tr0\t7\tr0\tr1\nret\tr0\n",
                refused(36, 0, 0, 6),
            ),
        ] {
            assert_eq!(rt;
                answer(&loader, &mut reader, text, memory.as_mut_slice()),
                numbers
            );
        }
        Ok(())
    }

    // Going once from the last node to the first would accept this one.
    #[test]
    fn loops(rt: HostRuntime) -> Result<(), Fail> {
        let mut loader = Loader::new(rt.alloc())?;
        let mut reader = Reader::new(rt.alloc())?;
        let mut memory = vec![in rt.alloc(); 0u64; 256]?;
        assert!(rt; loader.load(LOOP).is_ok());
        let text =
            b"alloc\t4\t2\t4\nentry\tr0\ts0\nconst\tr1\t1\nsub\tr0\tr0\tr1\nbr\tlt\tr1\tr0\nout\tr1\tr0\nret\tr0\n";
        assert_eq!(rt;
            answer(&loader, &mut reader, text, memory.as_mut_slice()),
            refused(34, 1, 1, 0)
        );
        let text =
            b"alloc\t4\t2\t4\nentry\tr0\ts0\nconst\tr1\t1\nsub\tr0\tr0\tr1\nbr\tlt\tr1\tr0\nret\tr0\n";
        assert_eq!(rt;
            answer(&loader, &mut reader, text, memory.as_mut_slice()),
            Ok(1)
        );
        Ok(())
    }
}
