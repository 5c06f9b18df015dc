// Tests of the bench program's lines: what each line asks for, and the rows that are printed.
#![tactic(auto)]

#[cfg(test)]
mod tests {
    use bench_lines::commands::{Command, parse_command};
    use bench_lines::lines::parse_lines;
    use bench_lines::replies::{Reply, row, rows};
    use std::alloc::Global;
    use std::process::Abort;
    use std::test::Fail;

    #[test]
    fn reads_commands(rt: HostRuntime) {
        let table = [
            ("w 0 2", Command::Write { sector: 0, fill: 2 }),
            (
                "w 7 255",
                Command::Write {
                    sector: 7,
                    fill: 255,
                },
            ),
            (
                "w 007 0255",
                Command::Write {
                    sector: 7,
                    fill: 255,
                },
            ),
            ("d 4294967295", Command::Delete(4294967295)),
            ("d 004294967295", Command::Delete(4294967295)),
            // 40 bytes.
            (
                "d 00000000000000000000000000000000000012",
                Command::Delete(12),
            ),
            ("r 0", Command::Read(0)),
            ("r 000", Command::Read(0)),
            (
                "l 3 19",
                Command::Look {
                    state: 3,
                    sector: 19,
                },
            ),
            (
                "l 4294967295 4294967295",
                Command::Look {
                    state: 4294967295,
                    sector: 4294967295,
                },
            ),
            ("f", Command::Freeze),
            ("x 12", Command::Release(12)),
            ("v 90", Command::Revert(90)),
            ("c", Command::Clean),
            ("z", Command::Remount),
        ];
        for (line, command) in &table {
            assert_eq!(rt; parse_command(line.as_bytes()), Some(*command), "{}", line);
        }
    }

    #[test]
    fn refuses_other_lines(rt: HostRuntime) {
        let table: [&[u8]; 43] = [
            b"",
            b" ",
            b"w",
            b"w ",
            b"w 0",
            b"w 0 ",
            b"w 0 2 ",
            b"w 0 2 3",
            b" w 0 2",
            b"w  0 2",
            b"w 0  2",
            b"w0 2",
            b"w 0\t2",
            b"w 0 256",
            b"w 0 0256",
            b"w 0 4294967296",
            b"w 4294967296 0",
            b"d",
            b"d 4294967296",
            b"d 18446744073709551616",
            b"d 4294967295 1",
            b"d 1 2",
            // 41 bytes.
            b"d 000000000000000000000000000000000000012",
            b"r +1",
            b"r -1",
            b"r 1x",
            b"r x",
            b"r 0x1",
            b"r 1\r",
            b"r \xB9",
            b"r 1\xC2\xA0",
            b"r\x001",
            b"l 1",
            b"l 1 4294967296",
            b"x",
            b"v 1 2",
            b"f 1",
            b"f ",
            b"f\r",
            b"ff",
            b"F",
            b"q",
            b"\xFF",
        ];
        for line in table {
            assert_eq!(rt; parse_command(line), None);
        }
    }

    fn expect_lines(
        rt: &impl Abort,
        heap: Global,
        input: &[u8],
        expected: &[Option<Command>],
    ) -> Result<(), Fail> {
        let commands = parse_lines(heap, input)?;
        assert!(rt; commands.as_slice() == expected);
        Ok(())
    }

    #[test]
    fn splits_lines(rt: HostRuntime) -> Result<(), Fail> {
        let heap = rt.alloc();
        let freeze = Some(Command::Freeze);
        let delete = Some(Command::Delete(5));
        expect_lines(&rt, heap, b"", &[])?;
        expect_lines(&rt, heap, b"\n", &[None])?;
        expect_lines(&rt, heap, b"\n\n", &[None, None])?;
        expect_lines(&rt, heap, b"f", &[freeze])?;
        expect_lines(&rt, heap, b"f\n", &[freeze])?;
        expect_lines(&rt, heap, b"f\nd 5", &[freeze, delete])?;
        expect_lines(&rt, heap, b"f\n\nd 5\n", &[freeze, None, delete])?;
        expect_lines(&rt, heap, b"f\r\nd 5\n", &[None, delete])?;
        expect_lines(&rt, heap, b"d\n5\n\xFF\nf", &[None, None, None, freeze])
    }

    #[test]
    fn goes_on_after_a_long_line(rt: HostRuntime) -> Result<(), Fail> {
        let mut input = vec![in rt.alloc(); b'0'; 5000]?;
        input.extend_from_slice(b"\nr 1\n")?;
        expect_lines(&rt, rt.alloc(), &input, &[None, Some(Command::Read(1))])
    }

    fn expect_row(
        rt: &impl Abort,
        heap: Global,
        command: Command,
        number: u8,
        value: Option<u32>,
        expected: &str,
    ) -> Result<(), Fail> {
        let text = row(heap, command, Reply { number, value })?;
        assert!(rt; text.as_str() == expected, "{}", expected);
        Ok(())
    }

    #[test]
    fn prints_a_row(rt: HostRuntime) -> Result<(), Fail> {
        let heap = rt.alloc();
        let write = Command::Write { sector: 9, fill: 1 };
        let look = Command::Look {
            state: 8,
            sector: 9,
        };
        expect_row(&rt, heap, write, 0, Some(2), "w 0 2\n")?;
        expect_row(&rt, heap, Command::Delete(9), 10, None, "d 10 -\n")?;
        expect_row(&rt, heap, Command::Read(9), 0, Some(0), "r 0 0\n")?;
        expect_row(&rt, heap, look, 255, Some(4294967295), "l 255 4294967295\n")?;
        expect_row(&rt, heap, Command::Freeze, 0, Some(17), "f 0 17\n")?;
        expect_row(&rt, heap, Command::Release(9), 0, None, "x 0 -\n")?;
        expect_row(&rt, heap, Command::Revert(9), 9, None, "v 9 -\n")?;
        expect_row(&rt, heap, Command::Clean, 0, Some(1), "c 0 1\n")?;
        expect_row(&rt, heap, Command::Remount, 3, None, "z 3 -\n")
    }

    fn expect_rows(
        rt: &impl Abort,
        heap: Global,
        input: &[u8],
        replies: &[Reply],
        expected: &str,
    ) -> Result<(), Fail> {
        let lines = parse_lines(heap, input)?;
        let text = rows(heap, &lines, replies)?;
        assert!(rt; text.as_str() == expected, "{}", expected);
        Ok(())
    }

    #[test]
    fn prints_rows_until_replies_run_out(rt: HostRuntime) -> Result<(), Fail> {
        let heap = rt.alloc();
        let first = Reply {
            number: 0,
            value: Some(2),
        };
        let refusal = Reply {
            number: 9,
            value: None,
        };
        let input = b"w 1 2\nw 1\nv 5\n\nf\nno\n";
        expect_rows(&rt, heap, b"", &[first], "")?;
        expect_rows(&rt, heap, input, &[], "")?;
        expect_rows(&rt, heap, input, &[first], "w 0 2\n?\n")?;
        expect_rows(&rt, heap, input, &[first, refusal], "w 0 2\n?\nv 9 -\n?\n")?;
        expect_rows(
            &rt,
            heap,
            input,
            &[first, refusal, first],
            "w 0 2\n?\nv 9 -\n?\nf 0 2\n?\n",
        )?;
        expect_rows(&rt, heap, b"?\nz", &[refusal, first], "?\nz 9 -\n")
    }
}
