// Tests of what is said of a mount.
#![tactic(auto)]

#[cfg(test)]
mod tests {
    use chip::SectorNumber;
    use inspection::arguments::Make;
    use mount_report::{image_report, mount_lines};
    use nand::{BLOCK_BYTES, Nand};
    use nor::{BLOCK_WORDS, Nor};
    use rules::Tick;
    use std::alloc::Global;
    use std::process::Abort;
    use std::test::Fail;
    use store::Store;

    fn expect_lines(
        rt: &impl Abort,
        heap: Global,
        store: &mut Store<Nor<'_>>,
        lines: &str,
    ) -> Result<(), Fail> {
        let text = mount_lines(heap, store)?;
        assert_eq!(rt; text.as_str(), lines);
        Ok(())
    }

    // Two frozen states: after the first one sector is written anew and one is deleted, and after the
    // second a third sector is written.
    fn check_states(rt: &impl Abort, heap: Global, store: &mut Store<Nor<'_>>) -> Result<(), Fail> {
        let bytes = [0x5A; 512];
        store.format(b"K\"7")?;
        store.write(SectorNumber(5), &bytes)?;
        store.write(SectorNumber(2047), &bytes)?;
        store.freeze()?;
        store.write(SectorNumber(5), &bytes)?;
        store.delete(SectorNumber(2047))?;
        store.freeze()?;
        store.write(SectorNumber(0), &bytes)?;
        store.close()?;
        expect_lines(
            rt,
            heap,
            store,
            "mount: 0, clock 8, held 4 7, label \"K\\x227\", needed 5 of 14\npresent: 0/8 5/5\nstate 4: 5/2 2047/3\nstate 7: 5/5\n",
        )
    }

    #[test]
    fn a_granted_mount_lists_each_state(rt: HostRuntime) -> Result<(), Fail> {
        let mut words = vec![in rt.alloc(); 0xFFFFu16; 3 * BLOCK_WORDS]?;
        let mut store = Store::new(Nor::new(&mut words));
        let end = check_states(&rt, rt.alloc(), &mut store);
        let _ = store.unmount();
        end
    }

    fn check_empty(rt: &impl Abort, heap: Global, store: &mut Store<Nor<'_>>) -> Result<(), Fail> {
        store.format(b"")?;
        store.freeze()?;
        store.close()?;
        expect_lines(
            rt,
            heap,
            store,
            "mount: 0, clock 2, held 2, label \"\", needed 0 of 6\npresent: none\nstate 2: none\n",
        )?;
        store.release(Tick(2))?;
        store.close()?;
        expect_lines(
            rt,
            heap,
            store,
            "mount: 0, clock 3, held none, label \"\", needed 0 of 6\npresent: none\n",
        )
    }

    #[test]
    fn an_empty_store_lists_none(rt: HostRuntime) -> Result<(), Fail> {
        let mut words = vec![in rt.alloc(); 0xFFFFu16; 2 * BLOCK_WORDS]?;
        let mut store = Store::new(Nor::new(&mut words));
        let end = check_empty(&rt, rt.alloc(), &mut store);
        let _ = store.unmount();
        end
    }

    #[test]
    fn an_erased_chip_is_no_store(rt: HostRuntime) -> Result<(), Fail> {
        let mut words = vec![in rt.alloc(); 0xFFFFu16; 2 * BLOCK_WORDS]?;
        let text = image_report(rt.alloc(), Make::Nor, 8448, Nor::new(&mut words))?;
        assert_eq!(rt;
            text.as_str(),
            "nor chip: 2 blocks of 8 pages, 0 bytes left over\nmount: 6\n16 pages: erased 16, data 0, deletion 0, register 0, bad 0\n"
        );
        Ok(())
    }

    #[test]
    fn one_block_is_too_small(rt: HostRuntime) -> Result<(), Fail> {
        let mut bytes = vec![in rt.alloc(); 0xFFu8; BLOCK_BYTES]?;
        let text = image_report(rt.alloc(), Make::Nand, BLOCK_BYTES, Nand::new(&mut bytes))?;
        assert_eq!(rt;
            text.as_str(),
            "nand chip: 1 blocks of 32 pages, 0 bytes left over\nmount: 3\n32 pages: erased 32, data 0, deletion 0, register 0, bad 0\n"
        );
        Ok(())
    }
}
