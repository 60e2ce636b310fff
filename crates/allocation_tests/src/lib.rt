#![tactic(auto)]

// Examples of allocation texts, read, written and refused.
#[cfg(test)]
mod tests {
    use reading::holder::Holder;
    use refusal::Numbers;
    use std::process::Abort;
    use std::test::Fail;
    use writer::write;

    // For a source with 2 parameters and 5 nodes.
    const WORKED: &[u8] =
        b"alloc\t4\t4\t5\nentry\tr1\ts1\nin\tr2\ts0\nadd\tr0\tr2\tr1\nskip\nin\tr3\ts0\nbr\tlt\tr0\tr3\ncall\tr0\t7\tr0\tr1\nret\tr0\n";

    // The two numbers of a refusal that names a line.
    fn refused(question: u8, place: usize) -> Option<Numbers> {
        Some(Numbers {
            question,
            place,
            temporary: 0,
            location: 0,
        })
    }

    fn read(holder: &mut Holder, text: &[u8], parameters: u8, nodes: u16) -> Option<Numbers> {
        holder
            .read(text, parameters, nodes)
            .err()
            .map(Numbers::from)
    }

    // Each of the texts is refused alike, for a source with 2 parameters and 5 nodes.
    fn all_refused(
        rt: &impl Abort,
        holder: &mut Holder,
        texts: &[&[u8]],
        question: u8,
        place: usize,
    ) {
        for text in texts {
            assert_eq!(rt; read(holder, text, 2, 5), refused(question, place));
        }
    }

    // Writes what stands at place `at` of 100 bytes, and checks the bytes around it.
    fn write_at(rt: &impl Abort, holder: &Holder, at: usize, text: &[u8]) -> Result<(), Fail> {
        let dots = [b'.'; 100];
        let mut out = [b'.'; 100];
        match write(holder.standing(), &mut out, at) {
            Ok(n) => {
                assert_eq!(rt; n, text.len());
                assert!(rt; at <= 100);
                assert!(rt; n <= 100 - at);
                let end = at + n;
                assert!(rt; &out[0..at] == &dots[0..at]);
                assert!(rt; &out[at..end] == text);
                assert!(rt; &out[end..100] == &dots[end..100]);
                Ok(())
            }
            Err(refusal) => {
                assert_eq!(rt; Some(Numbers::from(refusal)), refused(61, 0));
                assert!(rt; at > 5);
                assert!(rt; &out[0..100] == &dots[0..100]);
                Ok(())
            }
        }
    }

    #[test]
    fn worked_allocation(rt: HostRuntime) -> Result<(), Fail> {
        let mut holder = Holder::new(rt.alloc())?;
        assert_eq!(rt; read(&mut holder, WORKED, 2, 5), None);
        assert_eq!(rt; holder.standing().heading().registers, 4);
        assert_eq!(rt; holder.standing().count_entry(), 1);
        assert_eq!(rt; holder.standing().rows().len(), 5);
        assert_eq!(rt; holder.standing().moves().len(), 3);
        for at in 0usize..8 {
            write_at(&rt, &holder, at, WORKED)?;
        }
        write_at(&rt, &holder, 101, WORKED)?;
        // a refused text leaves what stood
        assert_eq!(rt;
            read(&mut holder, b"alloc\t4\t4\t5\nskip\n", 2, 5),
            refused(27, 3)
        );
        write_at(&rt, &holder, 5, WORKED)
    }

    #[test]
    fn size_and_heading(rt: HostRuntime) -> Result<(), Fail> {
        let mut holder = Holder::new(rt.alloc())?;
        assert_eq!(rt; read(&mut holder, &[b'\n'; 32768], 2, 5), refused(22, 1));
        assert_eq!(rt; read(&mut holder, &[b'\n'; 32769], 2, 5), refused(21, 0));
        all_refused(&rt, &mut holder, &[b"" as &[u8], b"alloc\t4\t4\t5"], 21, 0);
        let headings = [
            b"allot\t4\t4\t5\n" as &[u8],
            b"alloc\t4\t4\n",
            b"alloc\t4\t4\t5\t5\n",
            b"alloc\t2\t4\t5\n",
            b"alloc\t17\t4\t5\n",
            b"alloc\t4\t1\t5\n",
            b"alloc\t4\t49\t5\n",
            b"alloc\t4\t4\t6\n",
            b"alloc\t04\t4\t5\n",
        ];
        all_refused(&rt, &mut holder, &headings, 22, 1);
        Ok(())
    }

    #[test]
    fn lines(rt: HostRuntime) -> Result<(), Fail> {
        let mut holder = Holder::new(rt.alloc())?;
        let words = [
            b"alloc\t4\t4\t5\nskp\n" as &[u8],
            b"alloc\t4\t4\t5\nskip\t\n",
            b"alloc\t4\t4\t5\n\n",
            b"alloc\t4\t4\t5\nin\tr0\n",
            b"alloc\t4\t4\t5\nmov\tr0\tr1\n",
            b"alloc\t4\t4\t5\ncall\tr0\t7\tr0\tr1\tr1\n",
        ];
        all_refused(&rt, &mut holder, &words, 23, 2);
        let fields = [
            b"alloc\t4\t4\t5\nin\ts0\ts1\n" as &[u8],
            b"alloc\t4\t4\t5\nin\tr4\ts1\n",
            b"alloc\t4\t4\t5\nin\tr0\ts4\n",
            b"alloc\t4\t4\t5\nconst\tr0\t007\n",
            b"alloc\t4\t4\t5\nconst\tr0\t4294967296\n",
            b"alloc\t4\t4\t5\nconst\ts0\t1\n",
            b"alloc\t4\t4\t5\ncall\tr0\t256\tr0\tr0\n",
            b"alloc\t4\t4\t5\nbr\tgt\tr0\tr0\n",
        ];
        all_refused(&rt, &mut holder, &fields, 24, 2);
        let orders = [
            b"alloc\t4\t4\t5\nskip\nentry\tr0\ts0\n" as &[u8],
            b"alloc\t4\t4\t5\nskip\nalt\tr0\ts0\n",
            b"alloc\t4\t4\t5\nin\tr0\ts0\nout\tr0\ts0\n",
            b"alloc\t4\t4\t5\nret\tr0\nout\tr0\ts0\n",
            b"alloc\t4\t4\t5\nret\tr0\nalt\tr0\ts0\n",
        ];
        all_refused(&rt, &mut holder, &orders, 25, 3);
        let late = [
            b"alloc\t4\t4\t5\nskip\nskip\nskip\nskip\nskip\nskip\n" as &[u8],
            b"alloc\t4\t4\t5\nskip\nskip\nskip\nskip\nskip\nin\tr0\ts0\n",
            b"alloc\t4\t4\t5\nskip\nskip\nbr\teq\tr0\tr0\nout\tr0\ts0\nalt\tr0\ts0\nout\tr0\ts0\n",
        ];
        all_refused(&rt, &mut holder, &late, 25, 7);
        all_refused(&rt, &mut holder, &[b"alloc\t4\t4\t5\n" as &[u8]], 27, 2);
        all_refused(
            &rt,
            &mut holder,
            &[b"alloc\t4\t4\t5\nskip\nin\tr0\ts0\n" as &[u8]],
            27,
            4,
        );
        Ok(())
    }

    // A text with this many entry moves, and one node.
    fn many_moves(rt: &HostRuntime, count: usize) -> Result<Option<Numbers>, Fail> {
        let mut text = Vec::new(rt.alloc());
        text.extend_from_slice(b"alloc\t3\t0\t1\n")?;
        for _ in 0..count {
            text.extend_from_slice(b"entry\tr0\tr1\n")?;
        }
        text.extend_from_slice(b"ret\tr0\n")?;
        let mut holder = Holder::new(rt.alloc())?;
        Ok(read(&mut holder, &text, 0, 1))
    }

    // A text of this many nodes.
    fn many_nodes(rt: &HostRuntime, heading: &[u8], count: u16) -> Result<Option<Numbers>, Fail> {
        let mut text = Vec::new(rt.alloc());
        text.extend_from_slice(heading)?;
        for _ in 0..count {
            text.extend_from_slice(b"skip\n")?;
        }
        let mut holder = Holder::new(rt.alloc())?;
        Ok(read(&mut holder, &text, 0, count))
    }

    #[test]
    fn limits(rt: HostRuntime) -> Result<(), Fail> {
        assert_eq!(rt; many_moves(&rt, 1024)?, None);
        assert_eq!(rt; many_moves(&rt, 1025)?, refused(26, 1026));
        assert_eq!(rt; many_moves(&rt, 1030)?, refused(26, 1026));
        assert_eq!(rt; many_nodes(&rt, b"alloc\t3\t0\t256\n", 256)?, None);
        assert_eq!(rt;
            many_nodes(&rt, b"alloc\t3\t0\t257\n", 257)?,
            refused(22, 1)
        );
        Ok(())
    }
}
