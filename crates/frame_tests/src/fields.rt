use plain_lists::Want;
use std::test::Fail;
use wire_parts::{PartRefusal, Reader, put_bytes, put_i64, put_u8, put_u16, put_u32, put_u64};

/// Puts a field of each kind.
fn put_all(out: &mut Vec<u8>) -> Result<(), Want> {
    put_u8(out, 0x0a)?;
    put_u16(out, 0x0b0c)?;
    put_u32(out, 0x0d0e_0f10)?;
    put_u64(out, 0x1112_1314_1516_1718)?;
    put_i64(out, -2)?;
    put_bytes(out, b"end")
}

/// The five numbers of these fields, read back.
fn numbers_in(reader: &mut Reader<'_>) -> Result<(u8, u16, u32, u64, i64), PartRefusal> {
    let first = reader.u8()?;
    let second = reader.u16()?;
    let third = reader.u32()?;
    let fourth = reader.u64()?;
    Ok((first, second, third, fourth, reader.i64()?))
}

#[test]
fn fields_stand_in_their_bytes(rt: HostRuntime) -> Result<(), Fail> {
    let mut out = Vec::new(rt.alloc());
    put_all(&mut out)?;
    let want =
        b"\x0a\x0b\x0c\x0d\x0e\x0f\x10\x11\x12\x13\x14\x15\x16\x17\x18\xff\xff\xff\xff\xff\xff\xff\xfeend";
    assert_eq!(rt; out.as_slice(), want.as_slice());

    let mut reader = Reader::over(&out);
    let numbers: (u8, u16, u32, u64, i64) = (0x0a, 0x0b0c, 0x0d0e_0f10, 0x1112_1314_1516_1718, -2);
    assert_eq!(rt; numbers_in(&mut reader)?, numbers);
    assert_eq!(rt; reader.bytes(3)?, b"end".as_slice());
    assert_eq!(rt; reader.place(), 26);
    assert!(rt; reader.end().is_ok());
    Ok(())
}

#[test]
fn refusals_show_their_place(rt: HostRuntime) -> Result<(), Fail> {
    let short = Err(PartRefusal::Short { place: 0 });
    assert_eq!(rt; Reader::over(b"\x01\x02\x03").u32(), short);
    let mut reader = Reader::over(b"\x00\x0f");
    assert_eq!(rt; reader.list_len(14), Err(PartRefusal::TooMany { place: 0 }));
    assert_eq!(rt; reader.list_len(15), Ok(15));
    let mut reader = Reader::over(b"ab");
    assert_eq!(rt; reader.u8()?, b'a');
    assert_eq!(rt; reader.end(), Err(PartRefusal::Trailing { place: 1 }));
    Ok(())
}
