// Tests of the check of the arguments, of the words of an image and of reports.
#![tactic(auto)]

#[cfg(test)]
mod tests {
    use inspection::arguments::{Make, Request, UsageFault, parse_arguments};
    use inspection::images::{left_over, words_of};
    use inspection::reports::report;
    use nand::Nand;
    use nor::Nor;
    use std::alloc::{AllocError, Global};
    use std::process::Abort;
    use std::test::Fail;

    fn arguments(heap: Global, texts: &[&str]) -> Result<Vec<String>, AllocError> {
        texts
            .iter()
            .map(|text| String::from_str(heap, text))
            .try_collect(heap)
    }

    fn expect_refusal(
        rt: &impl Abort,
        heap: Global,
        texts: &[&str],
        fault: UsageFault,
    ) -> Result<(), Fail> {
        let arguments = arguments(heap, texts)?;
        assert_eq!(rt; parse_arguments(arguments.as_slice()), Err(fault));
        Ok(())
    }

    #[test]
    fn refuses_other_counts(rt: HostRuntime) -> Result<(), Fail> {
        let heap = rt.alloc();
        expect_refusal(&rt, heap, &[], UsageFault::ArgumentCount)?;
        expect_refusal(&rt, heap, &["inspect"], UsageFault::ArgumentCount)?;
        expect_refusal(&rt, heap, &["inspect", "nand"], UsageFault::ArgumentCount)?;
        expect_refusal(
            &rt,
            heap,
            &["inspect", "nand", "image", "other"],
            UsageFault::ArgumentCount,
        )
    }

    #[test]
    fn refuses_other_makes(rt: HostRuntime) -> Result<(), Fail> {
        let heap = rt.alloc();
        expect_refusal(
            &rt,
            heap,
            &["inspect", "flash", "image"],
            UsageFault::UnknownMake,
        )?;
        expect_refusal(
            &rt,
            heap,
            &["inspect", "NAND", "image"],
            UsageFault::UnknownMake,
        )?;
        expect_refusal(
            &rt,
            heap,
            &["inspect", "norr", "image"],
            UsageFault::UnknownMake,
        )?;
        expect_refusal(
            &rt,
            heap,
            &["inspect", "", "image"],
            UsageFault::UnknownMake,
        )
    }

    fn expect_request(rt: &impl Abort, heap: Global, name: &str, make: Make) -> Result<(), Fail> {
        let arguments = arguments(heap, &["inspect", name, "image"])?;
        let file = "image";
        assert_eq!(rt;
            parse_arguments(arguments.as_slice()),
            Ok(Request { make, file })
        );
        Ok(())
    }

    #[test]
    fn accepts_both_makes(rt: HostRuntime) -> Result<(), Fail> {
        expect_request(&rt, rt.alloc(), "nand", Make::Nand)?;
        expect_request(&rt, rt.alloc(), "nor", Make::Nor)
    }

    #[test]
    fn pairs_bytes(rt: HostRuntime) -> Result<(), Fail> {
        let words = words_of(rt.alloc(), &[0x34, 0x12, 0xFF, 0x00, 0x77])?;
        assert_eq!(rt; words.as_slice(), [0x1234, 0x00FF].as_slice());
        Ok(())
    }

    #[test]
    fn an_image_of_no_block_is_all_left_over(rt: HostRuntime) -> Result<(), Fail> {
        let mut bytes = [0u8; 16895];
        let chip = Nand::new(&mut bytes);
        let left = left_over(16895, &chip);
        let text = report(rt.alloc(), Make::Nand, left, &chip)?;
        assert_eq!(rt;
            text.as_str(),
            "nand chip: 0 blocks of 32 pages, 16895 bytes left over\n0 pages: erased 0, data 0, deletion 0, register 0, bad 0\n"
        );
        Ok(())
    }

    #[test]
    fn an_odd_last_byte_is_left_over(rt: HostRuntime) -> Result<(), Fail> {
        let bytes = vec![in rt.alloc(); 0xFFu8; 4224 + 7]?;
        let mut words = words_of(rt.alloc(), &bytes)?;
        let chip = Nor::new(&mut words);
        let left = left_over(bytes.len(), &chip);
        let text = report(rt.alloc(), Make::Nor, left, &chip)?;
        assert_eq!(rt;
            text.as_str(),
            "nor chip: 1 blocks of 8 pages, 7 bytes left over\n8 pages: erased 8, data 0, deletion 0, register 0, bad 0\n"
        );
        Ok(())
    }
}
