// Memories, shown parts and accesses on examples.
#![tactic(auto)]

#[cfg(test)]
mod tests {
    use access::fault::{Access, AccessFault, Cause};
    use access::load::{fetch, load};
    use access::store::store;
    use arith::width::{Extension, Width};
    use memory::cells::{CellFault, Memory};
    use memory::fixed::Fixed;
    use memory::joined::Joined;
    use memory::limits::check as check_slice;
    use memory::through::write_through;
    use show::{Source, show};
    use std::test::Fail;

    #[test]
    fn joins_three(rt: HostRuntime) {
        let memory = Joined::new(
            Fixed::new(b"ab"),
            Joined::new(Fixed::new(b"c"), Fixed::new(b"de")),
        );
        assert!(rt; memory.size() == 5);
        assert!(rt; memory.read(2) == Ok(b'c'));
        assert!(rt; memory.read(4) == Ok(b'e'));
        assert!(rt; memory.read(5) == Err(CellFault::Outside));
    }

    #[test]
    fn writes_what_is_open(rt: HostRuntime) {
        let mut work = [0u8; 12];
        {
            let mut memory = Joined::new(Fixed::new(b"rule"), &mut work[..]);
            // the first four cells are shut, so none of the eight is written
            assert!(rt; fails(store(&mut memory, 0, Width::Quad, 1)) == Some(106));
            assert!(rt; memory.read(7) == Ok(0));
            assert!(rt; store(&mut memory, 12, Width::Long, 0x8182_8384).is_ok());
            assert!(rt;
                load(&memory, 12, Width::Word, Extension::Sign).ok() == Some(0xffff_ffff_ffff_8182)
            );
            assert!(rt; load(&memory, 8, Width::Quad, Extension::Zero).ok() == Some(0x8182_8384));
            assert!(rt; fetch(&memory, 12).ok() == Some(0x8182_8384));
        }
        assert!(rt; work[8] == 0x81);
        assert!(rt; write_through(b"rule", &mut work, 4, 9).is_ok());
        assert!(rt; work[0] == 9);
    }

    #[test]
    fn names_the_fault(rt: HostRuntime) -> Result<(), Fail> {
        let memory = Fixed::new(b"12345678");
        let fault = load(&memory, 8, Width::Word, Extension::Zero)
            .err()
            .ok_or("read")?;
        assert!(rt;
            fault.access == Access::Load && fault.address == 8 && fault.width == Width::Word
        );
        assert!(rt; fault.cause == Cause::Cell(CellFault::Outside));
        assert!(rt;
            fails(load(&memory, 18446744073709551615, Width::Quad, Extension::Zero)) == Some(104)
        );
        assert!(rt;
            fails(load(&memory, 18446744073709551608, Width::Quad, Extension::Zero)) == Some(105)
        );
        assert!(rt; fails(fetch(&memory, 6)) == Some(101));
        assert!(rt; fails(fetch(&memory, 8)) == Some(102));
        Ok(())
    }

    #[test]
    fn shows_a_part(rt: HostRuntime) -> Result<(), Fail> {
        let border = show(b"rule", b"work", 4, 0).ok().ok_or("none")?;
        assert!(rt; border.source == Source::Rule);
        let part = show(b"rule", b"work", 5, 2).ok().ok_or("none")?;
        assert!(rt;
            part.source == Source::Work && part.offset == 1 && part.bytes == b"or".as_slice()
        );
        assert!(rt; show(b"rule", b"work", 3, 2).is_err());
        assert!(rt; show(b"rule", b"work", 8, 0).is_ok());
        assert!(rt; show(b"rule", b"work", 9, 0).is_err());
        assert!(rt; show(b"rule", b"work", 5, 18446744073709551615).is_err());
        Ok(())
    }

    #[test]
    fn refuses_a_large_slice(rt: HostRuntime) -> Result<(), Fail> {
        let large = [7u8; 65537];
        let refusal = check_slice(&large).err().ok_or("taken")?;
        assert!(rt; refusal.number() == 4);
        assert!(rt; Fixed::new(&large).size() == 0);
        assert!(rt; check_slice(&large[1..]).is_ok());
        assert!(rt; Fixed::new(&large[1..]).size() == 65536);
        Ok(())
    }

    // The number of a fault, if there is one.
    fn fails<T: Drop>(res: Result<T, AccessFault>) -> Option<u8> {
        res.err().map(AccessFault::number)
    }
}
