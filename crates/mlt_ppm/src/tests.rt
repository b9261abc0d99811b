use super::*;
use mlt_base::{PpmFault, Still, Try};
use std::test::Fail;

/// What a file is read as: its measures and pixels, or its fault.
type Found<'a> = Result<(u32, u32, &'a [u8]), Try<PpmFault>>;

fn found(read: &Result<Still, Try<PpmFault>>) -> Found<'_> {
    match read {
        Ok(still) => Ok((still.width(), still.height(), still.pixels())),
        Err(refusal) => Err(*refusal),
    }
}

/// A picture of one pixel.
fn one(pixel: &[u8]) -> Found<'_> {
    Ok((1, 1, pixel))
}

fn fault(fault: PpmFault) -> Found<'static> {
    Err(Try::Fault(fault))
}

#[test]
fn read_rows(rt: HostRuntime) {
    let rows = [
        (
            b"P6 1 1 255\n\x0a\x14\x1e".as_slice(),
            one(b"\x0a\x14\x1e\xff"),
        ),
        (
            b"P6#\n1#c\r1\t\x0b\x0c255\r\x0a\x14\x1eX",
            one(b"\x0a\x14\x1e\xff"),
        ),
        (
            b"P6 0001 1 0000000000000000000000002 \0\x01\x03",
            one(b"\x00\x80\xff\xff"),
        ),
        (b"P6 1 1 100 \x32\x64\x65", one(b"\x80\xff\xff\xff")),
        (b"P6 1 1 256 \x01\0\0\x80\x01\x01", one(b"\xff\x80\xff\xff")),
        (
            b"P6 1 1 65535 \x01\0\0\x80\xff\xff",
            one(b"\x01\x00\xff\xff"),
        ),
        (b"", fault(PpmFault::NotP6)),
        (b"P", fault(PpmFault::NotP6)),
        (b"P5 1 1 255 \0\0\0", fault(PpmFault::NotP6)),
        (b"P6", fault(PpmFault::BadHeader(2))),
        (b"P61 1 255 ", fault(PpmFault::BadHeader(2))),
        (b"P6#c", fault(PpmFault::BadHeader(4))),
        (b"P6 0", fault(PpmFault::BadHeader(3))),
        (b"P6 00x", fault(PpmFault::BadHeader(3))),
        (b"P6 x", fault(PpmFault::BadHeader(3))),
        (b"P6 1", fault(PpmFault::BadHeader(4))),
        (b"P6 1x", fault(PpmFault::BadHeader(4))),
        (b"P6 5000 0 255 ", fault(PpmFault::BadHeader(8))),
        (b"P6 1 1 0 ", fault(PpmFault::BadHeader(7))),
        (b"P6 1 1 65536 ", fault(PpmFault::BadHeader(7))),
        (b"P6 1 1 255", fault(PpmFault::BadHeader(10))),
        (b"P6 1 1 255#\n", fault(PpmFault::BadHeader(10))),
        (b"P6 4097 1 255 ", fault(PpmFault::TooLarge)),
        (
            b"P6 1 123456789012345678901234567890 255 ",
            fault(PpmFault::TooLarge),
        ),
        (b"P6 4096 4096 65535 ", fault(PpmFault::Short(0, 100663296))),
        (b"P6 1 1 255\n\x0a\x14", fault(PpmFault::Short(2, 3))),
        (b"P6 2 1 256\n\x0a\x14", fault(PpmFault::Short(2, 12))),
    ];
    for (bytes, wanted) in rows {
        assert_eq!(rt; found(&read(rt.alloc(), bytes)), wanted, "{bytes:?}");
    }
}

/// Each fault, once.
#[test]
fn each_fault_is_told(rt: HostRuntime) {
    let rows = [
        (b"P3 1 1 255 ".as_slice(), PpmFault::NotP6),
        (b"P6 1 1 0 ", PpmFault::BadHeader(7)),
        (b"P6 1 4097 255 ", PpmFault::TooLarge),
        (b"P6 1 1 255 \x0a\x14", PpmFault::Short(2, 3)),
    ];
    for (bytes, wanted) in rows {
        assert_eq!(rt; found(&read(rt.alloc(), bytes)), fault(wanted), "{bytes:?}");
    }
}

#[test]
fn cut_at_every_byte(rt: HostRuntime) {
    let file = b"P6 1 1 255\n\x0a\x14\x1e";
    let faults = [
        PpmFault::NotP6,
        PpmFault::NotP6,
        PpmFault::BadHeader(2),
        PpmFault::BadHeader(3),
        PpmFault::BadHeader(4),
        PpmFault::BadHeader(5),
        PpmFault::BadHeader(6),
        PpmFault::BadHeader(7),
        PpmFault::BadHeader(8),
        PpmFault::BadHeader(9),
        PpmFault::BadHeader(10),
        PpmFault::Short(0, 3),
        PpmFault::Short(1, 3),
        PpmFault::Short(2, 3),
    ];
    for (cut, wanted) in faults.iter().enumerate() {
        assert_eq!(rt;
            found(&read(rt.alloc(), &file[..cut])),
            Err(Try::Fault(*wanted)),
            "{cut}"
        );
    }
}

/// A picture of 18 by 1 pixels, each byte another, which is read four pixels at a time and then one.
#[test]
fn writes_and_reads(rt: HostRuntime) -> Result<(), Fail> {
    let alloc = rt.alloc();
    let one = Still::from_pixels(1, 1, [10, 20, 30, 255].to_vec(alloc)?);
    assert_eq!(rt;
        write(alloc, &one)?.as_slice(),
        b"P6\n1 1\n255\n\x0a\x14\x1e".as_slice()
    );
    let mut file = Vec::from_slice(alloc, b"P6\n18 1\n255\n")?;
    let mut pixels = Vec::new(alloc);
    for p in 0..18u8 {
        file.extend_from_slice(&[p, 100 + p, 200 + p])?;
        pixels.extend_from_slice(&[p, 100 + p, 200 + p, 255])?;
    }
    match read(alloc, file.as_slice()) {
        Ok(still) => {
            assert_eq!(rt; still.pixels(), pixels.as_slice());
            assert_eq!(rt; write(alloc, &still)?.as_slice(), file.as_slice());
        }
        Err(refusal) => assert_eq!(rt; Err(refusal), Ok(())),
    }
    Ok(())
}
