#![tactic(auto)]

// Examples of source texts, taken and refused.
#[cfg(test)]
mod tests {
    use loader::holder::Loader;
    use refusal::Numbers;
    use std::alloc::{AllocError, Global};
    use std::test::Fail;

    const WORKED: &[u8] =
        b"source\t2\t4\t5\nadd\t2\t0\t1\t1\nmov\t3\t2\t2\nbr\tlt\t3\t0\t3\t4\ncall\t3\t7\t3\t1\t4\nret\t3\n";

    // The four numbers of a refusal that names no location.
    fn refused(question: u8, place: usize, temporary: u8) -> Option<Numbers> {
        Some(Numbers {
            question,
            place,
            temporary,
            location: 0,
        })
    }

    fn load(loader: &mut Loader, text: &[u8]) -> Option<Numbers> {
        loader.load(text).err().map(Numbers::from)
    }

    fn counts(rt: &HostRuntime, text: &[u8]) -> Result<Option<(u8, u16, u32)>, Fail> {
        let mut loader = Loader::new(rt.alloc())?;
        Ok(loader.load(text).ok())
    }

    #[test]
    fn worked_source(rt: HostRuntime) -> Result<(), Fail> {
        assert_eq!(rt; counts(&rt, WORKED)?, Some((4, 5, 3)));
        let looped =
            b"source\t1\t2\t4\nconst\t1\t1\t1\nsub\t0\t0\t1\t2\nbr\tlt\t1\t0\t1\t3\nret\t0\n";
        assert_eq!(rt; counts(&rt, looped)?, Some((2, 4, 2)));
        Ok(())
    }

    #[test]
    fn size_and_heading(rt: HostRuntime) -> Result<(), Fail> {
        let mut loader = Loader::new(rt.alloc())?;
        assert_eq!(rt; load(&mut loader, b""), refused(11, 0, 0));
        assert_eq!(rt;
            load(&mut loader, b"source\t1\t1\t1\nret\t0"),
            refused(11, 0, 0)
        );
        assert_eq!(rt; load(&mut loader, &[b'\n'; 32768]), refused(12, 1, 0));
        assert_eq!(rt; load(&mut loader, &[b'\n'; 32769]), refused(11, 0, 0));
        for text in [
            b"\n" as &[u8],
            b"sauce\t1\t1\t1\nret\t0\n",
            b"source\t1\t1\nret\t0\n",
            b"source\t1\t1\t1\t1\nret\t0\n",
            b"source\t2\t1\t1\nret\t0\n",
            b"source\t9\t9\t1\nret\t0\n",
            b"source\t0\t0\t1\nret\t0\n",
            b"source\t1\t49\t1\nret\t0\n",
            b"source\t1\t1\t0\n",
            b"source\t1\t1\t257\nret\t0\n",
            b"source\t01\t1\t1\nret\t0\n",
            b"source\t1\t1\t1\r\nret\t0\n",
        ] {
            assert_eq!(rt; load(&mut loader, text), refused(12, 1, 0));
        }
        Ok(())
    }

    #[test]
    fn lines(rt: HostRuntime) -> Result<(), Fail> {
        let mut loader = Loader::new(rt.alloc())?;
        for (text, question, line) in [
            (b"source\t1\t1\t2\nret\t0\n" as &[u8], 13, 3),
            (b"source\t1\t1\t1\n", 13, 2),
            (b"source\t1\t1\t1\nret\t0\nret\t0\n", 13, 3),
            (b"source\t1\t1\t1\nret\t0\n\n", 13, 3),
            (b"source\t1\t1\t2\nrat\t0\nret\t9\n", 14, 2),
            (b"source\t1\t1\t2\nret\t9\nrat\t0\n", 15, 2),
            (b"source\t1\t1\t1\nret\t0\t0\n", 14, 2),
            (b"source\t1\t1\t1\nret\n", 14, 2),
            (b"source\t1\t1\t1\n\n", 14, 2),
            (b"source\t1\t1\t1\nret\t0\t0\t0\t0\t0\t0\t0\n", 14, 2),
            (b"source\t1\t1\t1\n7\t0\n", 14, 2),
            (b"source\t1\t1\t2\nconst\t0\t007\t1\nret\t0\n", 15, 2),
            (b"source\t1\t1\t2\nconst\t0\t4294967296\t1\nret\t0\n", 15, 2),
            (b"source\t1\t1\t2\nconst\t0\t1\t2\nret\t0\n", 15, 2),
            (b"source\t1\t1\t2\ncall\t0\t256\t0\t0\t1\nret\t0\n", 15, 2),
            (b"source\t1\t1\t2\nbr\tgt\t0\t0\t1\t1\nret\t0\n", 15, 2),
            (b"source\t1\t1\t2\nbr\tlt\t0\t0\t1\t2\nret\t0\n", 15, 2),
            (b"source\t1\t1\t2\nmov\t0\t1\t1\nret\t0\n", 15, 2),
            (b"source\t1\t1\t1\nret\tr0\n", 15, 2),
            (b"source\t1\t1\t1\nret\t\n", 15, 2),
            (b"source\t1\t1\t2\nmov\t0\t0\t1\nret\t1\n", 15, 3),
        ] {
            assert_eq!(rt; load(&mut loader, text), refused(question, line, 0));
        }
        Ok(())
    }

    // The lowest temporary that may be read before it is set; an unreachable node does not count into the first one.
    #[test]
    fn unset(rt: HostRuntime) -> Result<(), Fail> {
        let mut loader = Loader::new(rt.alloc())?;
        assert_eq!(rt;
            load(&mut loader, b"source\t0\t1\t1\nret\t0\n"),
            refused(16, 0, 0)
        );
        assert_eq!(rt;
            load(&mut loader, b"source\t1\t4\t2\nadd\t1\t3\t2\t1\nret\t1\n"),
            refused(16, 0, 2)
        );
        assert_eq!(rt;
            load(
                &mut loader,
                b"source\t1\t2\t3\nbr\teq\t0\t0\t1\t2\nconst\t1\t5\t2\nret\t1\n",
            ),
            refused(16, 0, 1)
        );
        assert_eq!(rt;
            load(&mut loader, b"source\t1\t2\t2\nret\t0\nret\t1\n"),
            None
        );
        Ok(())
    }

    // A refused text leaves the source that was held.
    #[test]
    fn refusal_keeps_what_is_held(rt: HostRuntime) -> Result<(), Fail> {
        let mut loader = Loader::new(rt.alloc())?;
        assert!(rt; loader.source().is_none());
        assert_eq!(rt; load(&mut loader, WORKED), None);
        assert_eq!(rt;
            load(&mut loader, b"source\t0\t1\t1\nret\t0\n"),
            refused(16, 0, 0)
        );
        assert_eq!(rt;
            load(&mut loader, b"source\t1\t1\t2\nret\t0\nrat\t0\n"),
            refused(14, 3, 0)
        );
        let source = loader.source().ok_or("nothing is held")?;
        assert_eq!(rt; source.heading.parameters, 2);
        assert_eq!(rt; source.heading.nodes, 5);
        assert_eq!(rt; source.nodes.len(), 5);
        assert!(rt; source.live == [0b11, 0b111, 0b1011, 0b1010, 0b1000].as_slice());
        Ok(())
    }

    // 48 temporaries that are all live at once, and 256 nodes.
    fn largest(heap: Global) -> Result<Vec<u8>, AllocError> {
        let mut text = Vec::new(heap);
        text.extend_from_slice(b"source\t0\t48\t256\n")?;
        for i in 0u32..48 {
            let next = i + 1;
            text.extend_from_slice(format!(in heap;
                "const\t{i}\t4294967295\t{next}\n"
            )?.as_bytes())?;
        }
        for i in 48u32..255 {
            let next = i + 1;
            let second = (i - 48) % 48;
            text.extend_from_slice(format!(in heap;
                "call\t47\t255\t47\t{second}\t{next}\n"
            )?.as_bytes())?;
        }
        text.extend_from_slice(b"ret\t47\n")?;
        Ok(text)
    }

    #[test]
    fn largest_source(rt: HostRuntime) -> Result<(), Fail> {
        let text = largest(rt.alloc())?;
        assert_eq!(rt; counts(&rt, text.as_slice())?, Some((48, 256, 48)));
        Ok(())
    }

    // Every byte in every place of a short text is answered: only the text itself, and more temporaries, are taken.
    #[test]
    fn any_byte(rt: HostRuntime) -> Result<(), Fail> {
        let mut loader = Loader::new(rt.alloc())?;
        let mut taken = 0u32;
        for at in 0usize..19 {
            for byte in 0u8..=255 {
                let mut text = *b"source\t1\t1\t1\nret\t0\n";
                text[at] = byte;
                if loader.load(&text).is_ok() {
                    taken = taken.saturating_add(1);
                }
            }
        }
        assert_eq!(rt; taken, 27);
        Ok(())
    }
}
