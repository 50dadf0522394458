//! Spellings by hand, at their bounds.
use super::*;
use std::test::Fail;

#[test]
fn numbers(rt: HostRuntime) -> Result<(), Fail> {
    let mut out = Vec::new(rt.alloc());
    put_u8(&mut out, 255)?;
    put_u16(&mut out, 0x0102)?;
    put_u16(&mut out, 65_535)?;
    put_u32(&mut out, 5)?;
    put_u32(&mut out, 4_294_967_295)?;
    put_u64(&mut out, 0x4000_0000_0000_0001)?;
    put_u128(&mut out, 0x6ba7_b810_9dad_11d1_80b4_00c0_4fd4_30c8)?;
    let spelled =
        b"\xff\x01\x02\xff\xff\x00\x00\x00\x05\xff\xff\xff\xff\x40\x00\x00\x00\x00\x00\x00\x01\
\x6b\xa7\xb8\x10\x9d\xad\x11\xd1\x80\xb4\x00\xc0\x4f\xd4\x30\xc8";
    assert_eq!(rt; out.as_slice(), &spelled[..]);
    assert_eq!(rt; get_u8(&out, 0), Ok(255));
    assert_eq!(rt; get_u16(&out, 1), Ok(258));
    assert_eq!(rt; get_u16(&out, 3), Ok(65_535));
    assert_eq!(rt; get_u32(&out, 5), Ok(5));
    assert_eq!(rt; get_u64(&out, 13), Ok(4_611_686_018_427_387_905));
    assert_eq!(rt;
        get_u128(&out, 21),
        Ok(0x6ba7_b810_9dad_11d1_80b4_00c0_4fd4_30c8)
    );
    assert_eq!(rt; get_u128(&out, 22), Err(CodecError::Short(22)));
    assert_eq!(rt; get_u8(&out, 37), Err(CodecError::Short(37)));
    Ok(())
}

#[test]
fn parts(rt: HostRuntime) -> Result<(), Fail> {
    let mut out = Vec::new(rt.alloc());
    put_short(&mut out, b"")?;
    put_short(&mut out, b"HD")?;
    put_long(&mut out, b"")?;
    put_long(&mut out, b"abc")?;
    assert_eq!(rt; out.as_slice(), &b"\x00\x02HD\x00\x00\x00\x03abc"[..]);
    assert_eq!(rt; get_short(&out, 0)?, &b""[..]);
    assert_eq!(rt; get_short(&out, 1)?, &b"HD"[..]);
    assert_eq!(rt; get_long(&out, 4)?, &b""[..]);
    assert_eq!(rt; get_long(&out, 6)?, &b"abc"[..]);
    assert_eq!(rt; get_short(b"\x02H", 0), Err(CodecError::Short(0)));
    assert_eq!(rt; get_long(b"x\x00", 1), Err(CodecError::Short(1)));

    let mut longest = Vec::new(rt.alloc());
    put_short(&mut longest, &[7; 255])?;
    put_long(&mut longest, &[8; 65_535])?;
    assert_eq!(rt; longest.len(), 65_793);
    assert_eq!(rt; get_short(&longest, 0)?.len(), 255);
    assert_eq!(rt; get_long(&longest, 256)?.len(), 65_535);
    Ok(())
}
