#![tactic(auto)]

// Sources that are placed: the lines published for them, and each refusal.
#[cfg(test)]
mod tests {
    use allocation::tables::Tables;
    use colouring::placer::Colouring;
    use loader::holder::Loader;
    use placement::place;
    use places::place::Place;
    use places::placer::{AllHome, Placer};
    use reading::reader::Reader;
    use refusal::Numbers;
    use std::process::Abort;
    use std::test::Fail;
    use writer::write;

    const WORKED: &[u8] =
        b"source\t2\t4\t5\nadd\t2\t0\t1\t1\nmov\t3\t2\t2\nbr\tlt\t3\t0\t3\t4\ncall\t3\t7\t3\t1\t4\nret\t3\n";

    // 48 temporaries, all live into node 40.
    const FULL: &[u8] =
        b"source\t8\t48\t65\nconst\t8\t0\t1\nconst\t9\t1\t2\nconst\t10\t2\t3\nconst\t11\t3\t4\nconst\t12\t4\t5\nconst\t13\t5\t6\nconst\t14\t6\t7\nconst\t15\t7\t8\nconst\t16\t8\t9\nconst\t17\t9\t10\nconst\t18\t10\t11\nconst\t19\t11\t12\nconst\t20\t12\t13\nconst\t21\t13\t14\nconst\t22\t14\t15\nconst\t23\t15\t16\nconst\t24\t16\t17\nconst\t25\t17\t18\nconst\t26\t18\t19\nconst\t27\t19\t20\nconst\t28\t20\t21\nconst\t29\t21\t22\nconst\t30\t22\t23\nconst\t31\t23\t24\nconst\t32\t24\t25\nconst\t33\t25\t26\nconst\t34\t26\t27\nconst\t35\t27\t28\nconst\t36\t28\t29\nconst\t37\t29\t30\nconst\t38\t30\t31\nconst\t39\t31\t32\nconst\t40\t32\t33\nconst\t41\t33\t34\nconst\t42\t34\t35\nconst\t43\t35\t36\nconst\t44\t36\t37\nconst\t45\t37\t38\nconst\t46\t38\t39\nconst\t47\t39\t40\nbr\teq\t0\t1\t41\t41\nbr\teq\t2\t3\t42\t42\nbr\teq\t4\t5\t43\t43\nbr\teq\t6\t7\t44\t44\nbr\teq\t8\t9\t45\t45\nbr\teq\t10\t11\t46\t46\nbr\teq\t12\t13\t47\t47\nbr\teq\t14\t15\t48\t48\nbr\teq\t16\t17\t49\t49\nbr\teq\t18\t19\t50\t50\nbr\teq\t20\t21\t51\t51\nbr\teq\t22\t23\t52\t52\nbr\teq\t24\t25\t53\t53\nbr\teq\t26\t27\t54\t54\nbr\teq\t28\t29\t55\t55\nbr\teq\t30\t31\t56\t56\nbr\teq\t32\t33\t57\t57\nbr\teq\t34\t35\t58\t58\nbr\teq\t36\t37\t59\t59\nbr\teq\t38\t39\t60\t60\nbr\teq\t40\t41\t61\t61\nbr\teq\t42\t43\t62\t62\nbr\teq\t44\t45\t63\t63\nbr\teq\t46\t47\t64\t64\nret\t0\n";

    fn refused(question: u8) -> Numbers {
        Numbers {
            question,
            place: 0,
            temporary: 0,
            location: 0,
        }
    }

    // Whether the placement is accepted with this count of moves, or refused by this question.
    fn check_place<P: Placer>(
        rt: &impl Abort,
        loader: &Loader,
        tables: &mut Tables,
        placer: &P,
        registers: u64,
        memory: &mut [u64],
        expected: Result<u32, u8>,
    ) -> Result<(), Fail> {
        let answer = place(loader, tables, placer, registers, memory);
        assert_eq!(rt; answer.map_err(Numbers::from), expected.map_err(refused));
        Ok(())
    }

    // Whether the tables are written as this text, and the same is written once it is read again.
    fn check_text(
        rt: &impl Abort,
        tables: &Tables,
        reader: &mut Reader,
        loader: &Loader,
        out: &mut [u8],
        text: &[u8],
    ) -> Result<(), Fail> {
        let heading = loader.source().ok_or("nothing is held")?.heading;
        assert_eq!(rt; write(tables, out, 0).ok(), Some(text.len()));
        assert!(rt; out.get(..text.len()) == Some(text));
        assert!(rt; reader.read(text, heading.parameters, heading.nodes).is_ok());
        out.fill(0);
        assert_eq!(rt; write(reader.tables(), out, 0).ok(), Some(text.len()));
        assert!(rt; out.get(..text.len()) == Some(text));
        Ok(())
    }

    #[test]
    fn published(rt: HostRuntime) -> Result<(), Fail> {
        let heap = rt.alloc();
        let mut loader = Loader::new(heap)?;
        let mut tables = Tables::new(heap)?;
        let mut reader = Reader::new(heap)?;
        let mut memory = vec![in heap; 0u64; 512]?;
        let mut out = vec![in heap; 0u8; 512]?;
        for (source, registers, moves, text) in [
            // three temporaries are live at once, and there is one register
            (
                WORKED,
                3u64,
                4u32,
                b"alloc\t3\t4\t5\nin\tr1\ts0\nin\tr2\ts1\nadd\tr0\tr1\tr2\nskip\nin\tr2\ts0\nbr\tlt\tr0\tr2\nin\tr2\ts1\ncall\tr0\t7\tr0\tr2\nret\tr0\n" as &[u8],
            ),
            // two registers
            (
                WORKED,
                4,
                3,
                b"alloc\t4\t4\t5\nentry\tr1\ts1\nin\tr2\ts0\nadd\tr0\tr2\tr1\nskip\nin\tr3\ts0\nbr\tlt\tr0\tr3\ncall\tr0\t7\tr0\tr1\nret\tr0\n",
            ),
            // as many registers as are wanted
            (
                WORKED,
                5,
                2,
                b"alloc\t5\t4\t5\nentry\tr2\ts0\nentry\tr1\ts1\nadd\tr0\tr2\tr1\nskip\nbr\tlt\tr0\tr2\ncall\tr0\t7\tr0\tr1\nret\tr0\n",
            ),
            // the temporaries of a `mov` share, though both are live after it
            (
                b"source\t1\t3\t3\nmov\t1\t0\t1\nadd\t2\t0\t1\t2\nret\t2\n",
                3,
                1,
                b"alloc\t3\t3\t3\nentry\tr0\ts0\nskip\nadd\tr0\tr0\tr0\nret\tr0\n",
            ),
            // they do not where one is set while the other is live
            (
                b"source\t1\t2\t5\nmov\t1\t0\t1\ncall\t0\t3\t0\t0\t2\nadd\t0\t0\t1\t3\nbr\tle\t0\t1\t4\t4\nret\t0\n",
                4,
                2,
                b"alloc\t4\t2\t5\nentry\tr1\ts0\nskip\nout\tr0\tr1\ncall\tr1\t3\tr1\tr1\nadd\tr1\tr1\tr0\nbr\tle\tr1\tr0\nret\tr1\n",
            ),
            // a `mov` between two homes
            (
                b"source\t2\t4\t6\nmov\t2\t0\t1\nmov\t3\t1\t2\ncall\t0\t1\t0\t1\t3\ncall\t1\t2\t2\t3\t4\nadd\t2\t0\t2\t5\nret\t2\n",
                3,
                10,
                b"alloc\t3\t4\t6\nentry\tr0\ts1\nskip\nout\tr1\ts0\nout\ts2\tr1\nskip\nin\tr1\ts0\ncall\tr1\t1\tr1\tr0\nout\ts0\tr1\nin\tr1\ts2\ncall\tr0\t2\tr1\tr0\nin\tr1\ts0\nin\tr2\ts2\nadd\tr1\tr1\tr2\nout\ts2\tr1\nin\tr1\ts2\nret\tr1\n",
            ),
            // two parameters that arrive
            (
                b"source\t2\t2\t2\nadd\t0\t0\t1\t1\nret\t0\n",
                3,
                4,
                b"alloc\t3\t2\t2\nentry\tr0\ts1\nin\tr1\ts0\nadd\tr1\tr1\tr0\nout\ts0\tr1\nin\tr1\ts0\nret\tr1\n",
            ),
            // one that does not
            (
                b"source\t2\t2\t2\nadd\t0\t1\t1\t1\nret\t0\n",
                3,
                1,
                b"alloc\t3\t2\t2\nentry\tr0\ts1\nadd\tr0\tr0\tr0\nret\tr0\n",
            ),
            // temporaries that no node names
            (
                b"source\t0\t3\t2\nconst\t1\t5\t1\nret\t1\n",
                3,
                0,
                b"alloc\t3\t3\t2\nconst\tr0\t5\nret\tr0\n",
            ),
            // a result that nobody reads
            (
                b"source\t0\t2\t3\nconst\t0\t1\t1\nconst\t1\t2\t2\nret\t1\n",
                3,
                0,
                b"alloc\t3\t2\t3\nconst\tr0\t1\nconst\tr0\t2\nret\tr0\n",
            ),
            // three of equal degree: the lowest is removed first
            (
                b"source\t3\t3\t4\nadd\t0\t0\t1\t1\nadd\t1\t1\t2\t2\nadd\t0\t0\t1\t3\nret\t0\n",
                4,
                7,
                b"alloc\t4\t3\t4\nentry\tr1\ts1\nentry\tr0\ts2\nin\tr2\ts0\nadd\tr2\tr2\tr1\nout\ts0\tr2\nadd\tr1\tr1\tr0\nin\tr2\ts0\nadd\tr2\tr2\tr1\nout\ts0\tr2\nin\tr2\ts0\nret\tr2\n",
            ),
        ] {
            assert!(rt; loader.load(source).is_ok());
            check_place(
                &rt,
                &loader,
                &mut tables,
                &Colouring,
                registers,
                memory.as_mut_slice(),
                Ok(moves),
            )?;
            check_text(&rt, &tables, &mut reader, &loader, out.as_mut_slice(), text)?;
        }
        // every temporary at home
        assert!(rt; loader.load(WORKED).is_ok());
        check_place(
            &rt,
            &loader,
            &mut tables,
            &AllHome,
            4,
            memory.as_mut_slice(),
            Ok(11),
        )?;
        check_text(
            &rt,
            &tables,
            &mut reader,
            &loader,
            out.as_mut_slice(),
            b"alloc\t4\t4\t5\nin\tr2\ts0\nin\tr3\ts1\nadd\tr2\tr2\tr3\nout\ts2\tr2\nskip\nout\tr2\ts2\nout\ts3\tr2\nin\tr2\ts3\nin\tr3\ts0\nbr\tlt\tr2\tr3\nin\tr2\ts3\nin\tr3\ts1\ncall\tr2\t7\tr2\tr3\nout\ts3\tr2\nin\tr2\ts3\nret\tr2\n",
        )
    }

    // Has the placer write its places; none where they cannot be asked for.
    fn colour(loader: &Loader, registers: u8, out: &mut [Place]) -> Option<()> {
        let source = loader.source()?;
        if out.len() != source.heading.temporaries as usize || !(3..=16).contains(&registers) {
            return None;
        }
        Colouring.place(&source, registers, out);
        Some(())
    }

    #[test]
    fn worked_places(rt: HostRuntime) -> Result<(), Fail> {
        let mut loader = Loader::new(rt.alloc())?;
        let mut out = [Place::Register(9); 4];
        assert!(rt; colour(&loader, 4, &mut out).is_none());
        assert!(rt; loader.load(WORKED).is_ok());
        assert!(rt; colour(&loader, 4, &mut out).is_some());
        assert!(rt;
            out == [
                Place::Home,
                Place::Register(1),
                Place::Register(0),
                Place::Register(0),
            ]
        );
        Ok(())
    }

    // All conflict, so that the last ones removed have the registers, from 0 on.
    #[test]
    fn all_live_at_once(rt: HostRuntime) -> Result<(), Fail> {
        let heap = rt.alloc();
        let mut loader = Loader::new(heap)?;
        let mut tables = Tables::new(heap)?;
        let mut memory = vec![in heap; 0u64; 4160]?;
        let mut out = vec![in heap; Place::Home; 48]?;
        assert_eq!(rt; loader.load(FULL).ok(), Some((48, 65, 48)));
        for (registers, moves) in [(16u64, 61u32), (3, 87)] {
            check_place(
                &rt,
                &loader,
                &mut tables,
                &Colouring,
                registers,
                memory.as_mut_slice(),
                Ok(moves),
            )?;
        }
        assert!(rt; colour(&loader, 16, out.as_mut_slice()).is_some());
        let (homes, held) = out.as_slice().split_at(34);
        assert!(rt; homes.iter().all(|place| *place == Place::Home));
        for (place, register) in held.iter().zip((0u8..14).rev()) {
            assert!(rt; *place == Place::Register(register));
        }
        Ok(())
    }

    // Loads a source with this heading, all of whose nodes return.
    fn load_returns(
        rt: &(impl Abort + AllocGlobal),
        loader: &mut Loader,
        heading: &[u8],
        nodes: u32,
    ) -> Result<(), Fail> {
        let mut text = Vec::new(rt.alloc());
        text.extend_from_slice(heading)?;
        for _ in 0..nodes {
            text.extend_from_slice(b"ret\t0\n")?;
        }
        assert!(rt; loader.load(text.as_slice()).is_ok());
        Ok(())
    }

    // 64 words of work memory a node are wanted, and one less is too little: then no word is touched.
    #[test]
    fn work_memory(rt: HostRuntime) -> Result<(), Fail> {
        let heap = rt.alloc();
        let mut loader = Loader::new(heap)?;
        let mut tables = Tables::new(heap)?;
        let mut memory = vec![in heap; u64::MAX; 16_384]?;
        for (heading, nodes, words, expected, first) in [
            (
                b"source\t1\t1\t1\n" as &[u8],
                1u32,
                63usize,
                Err(31u8),
                u64::MAX,
            ),
            (b"source\t1\t1\t129\n", 129, 8_192, Err(31), u64::MAX),
            (b"source\t1\t1\t256\n", 256, 16_383, Err(31), u64::MAX),
            (b"source\t1\t1\t1\n", 1, 64, Ok(1u32), 1),
            (b"source\t1\t1\t128\n", 128, 8_192, Ok(1), 1),
            (b"source\t1\t1\t256\n", 256, 16_384, Ok(1), 1),
        ] {
            load_returns(&rt, &mut loader, heading, nodes)?;
            let lent = memory
                .as_mut_slice()
                .get_mut(..words)
                .ok_or("the memory is short")?;
            check_place(&rt, &loader, &mut tables, &Colouring, 3, lent, expected)?;
            assert_eq!(rt; memory.get(0).copied(), Some(first));
        }
        Ok(())
    }

    #[test]
    fn refusals(rt: HostRuntime) -> Result<(), Fail> {
        let heap = rt.alloc();
        let mut loader = Loader::new(heap)?;
        let mut tables = Tables::new(heap)?;
        let mut memory = vec![in heap; u64::MAX; 320]?;
        for registers in [0u64, 4, 17] {
            check_place(
                &rt,
                &loader,
                &mut tables,
                &Colouring,
                registers,
                memory.as_mut_slice(),
                Err(40),
            )?;
        }
        assert!(rt; loader.load(WORKED).is_ok());
        for registers in [0u64, 2, 17, 260, u64::MAX] {
            check_place(
                &rt,
                &loader,
                &mut tables,
                &Colouring,
                registers,
                memory.as_mut_slice(),
                Err(41),
            )?;
        }
        for word in memory.as_slice() {
            assert_eq!(rt; *word, u64::MAX);
        }
        Ok(())
    }
}
