use super::*;
use std::test::Fail;

#[test]
fn whole_rows(rt: HostRuntime) {
    let rows = [
        ("0", Ok(0)),
        ("-0", Ok(0)),
        ("007", Ok(7)),
        ("-25", Ok(-25)),
        ("", Err(NumFault::Empty)),
        ("-", Err(NumFault::Empty)),
        ("+1", Err(NumFault::BadDigit(0))),
        ("1x", Err(NumFault::BadDigit(1))),
        ("--1", Err(NumFault::BadDigit(1))),
        ("9223372036854775807", Ok(9223372036854775807)),
        ("9223372036854775808", Err(NumFault::TooLarge)),
        ("-9223372036854775808", Ok(i64::MIN)),
        ("-9223372036854775809", Err(NumFault::TooLarge)),
        ("1234567890123456789012345", Err(NumFault::TooLarge)),
        ("1234567890123456789012345x", Err(NumFault::BadDigit(25))),
    ];
    for (text, wanted) in rows {
        assert_eq!(rt; read_whole(text), wanted, "{text}");
    }
}

#[test]
fn decimal_rows(rt: HostRuntime) {
    let rows = [
        ("0.5", Ok(Q16(32768))),
        (".25", Ok(Q16(16384))),
        ("5.", Ok(Q16(327680))),
        ("65535.99999", Ok(Q16(4294967295))),
        ("65535.9999999999999999999999999", Ok(Q16(4294967295))),
        ("65536", Err(NumFault::TooLarge)),
        ("1234567890123456789012345", Err(NumFault::TooLarge)),
        ("0000000000000000000000001", Ok(Q16(65536))),
        ("0.0000152587890625", Ok(Q16(1))),
        ("0.0000152587890624", Ok(Q16(0))),
        ("0.1234567890123456789012345", Ok(Q16(8090))),
        ("", Err(NumFault::Empty)),
        (".", Err(NumFault::BadDigit(1))),
        ("..", Err(NumFault::BadDigit(1))),
        ("1x", Err(NumFault::BadDigit(1))),
        ("1.2.3", Err(NumFault::BadDigit(3))),
        ("-1", Err(NumFault::BadDigit(0))),
    ];
    for (text, wanted) in rows {
        assert_eq!(rt; read_decimal(text), wanted, "{text}");
    }
}

#[test]
fn time_rows(rt: HostRuntime) {
    let rows = [
        ("0", Ok(Pos(0))),
        ("2147483647", Ok(Pos(2147483647))),
        ("2147483648", Err(NumFault::TooLarge)),
        ("1234567890123456789012345", Err(NumFault::TooLarge)),
        ("00:00:01.500", Ok(Pos(37))),
        ("0:0:0.05", Ok(Pos(1))),
        ("00:00:01:05", Ok(Pos(30))),
        ("1:2:3", Ok(Pos(93075))),
        ("00:99:99", Ok(Pos(150975))),
        ("0:0:85899345.919", Ok(Pos(2147483647))),
        ("0:0:85899345.920", Err(NumFault::TooLarge)),
        ("0:0:85899345:22", Ok(Pos(2147483647))),
        ("0:0:85899345:23", Err(NumFault::TooLarge)),
        ("1234567890123456789012345:0:0", Err(NumFault::TooLarge)),
        ("0:0:0:1234567890123456789012345", Err(NumFault::TooLarge)),
        ("", Err(NumFault::Empty)),
        (":", Err(NumFault::BadDigit(0))),
        ("1.5", Err(NumFault::BadDigit(1))),
        ("1:", Err(NumFault::BadDigit(2))),
        ("1:2", Err(NumFault::BadDigit(3))),
        ("1:2:3.", Err(NumFault::BadDigit(6))),
        ("1:2:3.1234", Err(NumFault::BadDigit(9))),
        ("1:2:3:4x", Err(NumFault::BadDigit(7))),
    ];
    let pal = Rate { num: 25, den: 1 };
    for (text, wanted) in rows {
        assert!(rt; read_time(text, pal) == wanted, "{text}");
    }
    let ntsc = Rate {
        num: 30000,
        den: 1001,
    };
    assert_eq!(rt; read_time("00:00:01:00", ntsc), Ok(Pos(30)));
    assert_eq!(rt; read_time("00:00:01", ntsc), Ok(Pos(29)));
}

#[test]
fn animation_rows(rt: HostRuntime) {
    let rows = [
        ("0=0;24=1", 12, Ok(Q16(32768))),
        ("0=0;24=1", 30, Ok(Q16(65536))),
        ("0|=1;10=0", 9, Ok(Q16(65536))),
        ("0|=1;10=0", 10, Ok(Q16(0))),
        ("0=0;3=1", 2, Ok(Q16(43690))),
        ("5=0;8=1;", 0, Ok(Q16(0))),
        ("0.5", 7, Ok(Q16(32768))),
        ("2147483647=1", 4294967295, Ok(Q16(65536))),
        ("", 0, Err(Try::Fault(NumFault::Empty))),
        ("0=", 0, Err(Try::Fault(NumFault::Empty))),
        ("=", 0, Err(Try::Fault(NumFault::BadDigit(0)))),
        (";0=1", 0, Err(Try::Fault(NumFault::BadDigit(0)))),
        ("0=1;;", 0, Err(Try::Fault(NumFault::BadDigit(4)))),
        ("0|1", 0, Err(Try::Fault(NumFault::BadDigit(1)))),
        ("0=1;1", 0, Err(Try::Fault(NumFault::BadDigit(5)))),
        ("0=.", 0, Err(Try::Fault(NumFault::BadDigit(3)))),
        ("0=1x", 0, Err(Try::Fault(NumFault::BadDigit(3)))),
        ("2147483648=1", 0, Err(Try::Fault(NumFault::TooLarge))),
        ("0=65536", 0, Err(Try::Fault(NumFault::TooLarge))),
        ("5=1;5=0", 0, Err(Try::Fault(NumFault::Order(4)))),
        ("9=1;4=x", 0, Err(Try::Fault(NumFault::Order(4)))),
        ("9=1;4~=x", 0, Err(Try::Fault(NumFault::Smooth(5)))),
        ("0~=1", 0, Err(Try::Fault(NumFault::Smooth(1)))),
    ];
    for (text, frame, wanted) in rows {
        let value = match Animation::read(rt.alloc(), text) {
            Ok(animation) => Ok(animation.at(frame)),
            Err(refusal) => Err(refusal),
        };
        assert_eq!(rt; value, wanted, "{text}");
    }
}

/// Each fault of each reader, once.
#[test]
fn each_fault_is_told(rt: HostRuntime) {
    let whole = [
        ("", NumFault::Empty),
        ("12x", NumFault::BadDigit(2)),
        ("9223372036854775808", NumFault::TooLarge),
    ];
    for (text, wanted) in whole {
        assert_eq!(rt; read_whole(text), Err(wanted), "{text}");
    }
    let decimals = [
        ("", NumFault::Empty),
        ("0.5x", NumFault::BadDigit(3)),
        ("65536", NumFault::TooLarge),
    ];
    for (text, wanted) in decimals {
        assert_eq!(rt; read_decimal(text), Err(wanted), "{text}");
    }
    let rate = Rate { num: 25, den: 1 };
    let times = [
        ("", NumFault::Empty),
        ("00:00:0x", NumFault::BadDigit(7)),
        ("2147483648", NumFault::TooLarge),
    ];
    for (text, wanted) in times {
        assert!(rt; read_time(text, rate) == Err(wanted), "{text}");
    }
    let animations = [
        ("", NumFault::Empty),
        ("0=1;x", NumFault::BadDigit(4)),
        ("0=65536", NumFault::TooLarge),
        ("5=1;5=0", NumFault::Order(4)),
        ("0~=1", NumFault::Smooth(1)),
    ];
    for (text, wanted) in animations {
        let read = match Animation::read(rt.alloc(), text) {
            Ok(_) => Ok(()),
            Err(refusal) => Err(refusal),
        };
        assert_eq!(rt; read, Err(Try::Fault(wanted)), "{text}");
    }
}

#[test]
fn geometry_rows(rt: HostRuntime) -> Result<(), Fail> {
    let rows = [
        ("10/10:20%x20%", Some((10, 10, 144, 115, 100))),
        ("25%/25%:50%x50%:50", Some((180, 144, 360, 288, 50))),
        ("-5%/0:10x10", Some((-36, 0, 10, 10, 100))),
        ("-1%,-1%:1x1:-0", Some((-7, -5, 1, 1, 0))),
        ("16384/-16384:4096x1:0", Some((16384, -16384, 4096, 1, 0))),
        ("1000%/-1000%:1000%x1%", Some((7200, -5760, 4096, 5, 100))),
        ("0000000000000000000000005/0:1x1", Some((5, 0, 1, 1, 100))),
        ("", None),
        ("0/0", None),
        ("0:1x1", None),
        ("0/0/0:1x1", None),
        ("16385/0:1x1", None),
        ("0/-16385:1x1", None),
        ("1001%/0:1x1", None),
        ("0/-1001%:1x1", None),
        ("1%%/0:1x1", None),
        ("0/0:0x1", None),
        ("0/0:1x4097", None),
        ("0/0:0%x1", None),
        ("0/0:1x1001%", None),
        ("0,0:1x1:101", None),
        ("0/0:1x1:5%", None),
        ("0/0:1x1:", None),
        ("0/0:1x1:1:1", None),
        ("1234567890123456789012345/0:1x1", None),
    ];
    let pal = Profile::read("dv_pal").ok_or("a name of the table")?;
    for (text, wanted) in rows {
        let found = match Geometry::read(text, &pal) {
            Some(g) => Some((g.x, g.y, g.width, g.height, g.opacity)),
            None => None,
        };
        assert_eq!(rt; found, wanted, "{text}");
    }
    Ok(())
}

#[test]
fn profile_rows(rt: HostRuntime) {
    let rows = [
        ("dv_pal", Some((720, 576, 25, 1))),
        ("dv_ntsc", Some((720, 480, 30000, 1001))),
        ("atsc_720p_25", Some((1280, 720, 25, 1))),
        ("atsc_1080p_25", Some((1920, 1080, 25, 1))),
        ("0016x8@025/01", Some((16, 8, 25, 1))),
        (
            "4096x4096@100000/100000",
            Some((4096, 4096, 100000, 100000)),
        ),
        ("1x1@1000/1", Some((1, 1, 1000, 1))),
        ("", None),
        ("dv_pal ", None),
        ("DV_PAL", None),
        ("0x1@25/1", None),
        ("1x0@25/1", None),
        ("4097x1@25/1", None),
        ("1x4097@25/1", None),
        ("1x1@100001/1001", None),
        ("1x1@1001/1", None),
        ("1x1@1/2", None),
        ("1x1@0/0", None),
        ("1x1@1/0", None),
        ("+1x1@25/1", None),
        ("1x-1@25/1", None),
        ("1x1", None),
        ("1x1@25", None),
        ("1x1@25/1 ", None),
        ("1x1234567890123456789012345@25/1", None),
    ];
    for (text, wanted) in rows {
        let found = match Profile::read(text) {
            Some(p) => Some((p.width, p.height, p.rate.num, p.rate.den)),
            None => None,
        };
        assert_eq!(rt; found, wanted, "{text}");
    }
    assert_eq!(rt; PROFILES[1].name.as_str(), "dv_ntsc");
}

#[test]
fn counts(rt: HostRuntime) -> Result<(), Fail> {
    let ntsc = Profile::read("dv_ntsc").ok_or("a name of the table")?;
    for (n, wanted) in [(0, 1601), (1, 1602), (2, 1601), (3, 1602), (4, 1602)] {
        assert_eq!(rt; ntsc.samples(n), wanted);
    }
    assert_eq!(rt; ntsc.samples_to(5), 8008);
    assert_eq!(rt; ntsc.most_samples(), 1602);
    let slow = Profile::read("1x1@100000/100000").ok_or("the least rate")?;
    assert_eq!(rt; slow.samples_to(4294967295), 206158430160000);
    let mut steps = Steps::new();
    steps.tick();
    assert_eq!(rt; steps.count(), 1);
    Ok(())
}

#[test]
fn keeps_texts_bytes_and_pixels(rt: HostRuntime) -> Result<(), Fail> {
    let alloc = rt.alloc();
    let text = Text::new(alloc, "clip")?;
    assert_eq!(rt; text.as_str(), "clip");
    let bytes = Bytes::new([1, 2].to_vec(alloc)?);
    assert_eq!(rt; bytes.as_slice(), [1, 2].as_slice());
    let still = Still::from_pixels(2, 1, [1, 2, 3, 4, 5, 6, 7, 8].to_vec(alloc)?);
    assert_eq!(rt; (still.width(), still.height()), (2, 1));
    assert_eq!(rt; still.pixels(), [1, 2, 3, 4, 5, 6, 7, 8].as_slice());
    let mut blank = Still::new(alloc, 1, 1)?;
    assert_eq!(rt; blank.pixels(), [0, 0, 0, 0].as_slice());
    blank.pixels_mut().fill(9);
    assert_eq!(rt; blank.pixels(), [9, 9, 9, 9].as_slice());
    Ok(())
}
