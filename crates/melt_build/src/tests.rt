//! Compositions that are built, and some that are not.

ghost use Rattle.std.specs.Prelude.{All, IfOk};
ghost use Rattle.mlt_tree.specs.GroupWords.{IsAllowed};

use super::*;
use melt_words::groups;
use mlt_base::{PpmFault, SourceNo};
use mlt_graph::{Format, Pix};
use mlt_host::CalmHost;
use mlt_image::Colour;
use mlt_source::Source;
use mlt_tree::{Cause, GroupKind, GroupList};
use std::alloc::Global;
use std::test::Fail;

/// The groups of the words of a line.
fn read(alloc: Global, line: &str) -> Result<GroupList, Fail>
    ensures { IfOk result (λ list. All IsAllowed list) }
{
    let mut words = Vec::new(alloc);
    for text in line.split(' ') {
        words.push(String::from_str(alloc, text)?)?;
    }
    match groups(alloc, words.as_slice()) {
        Ok(list) => Ok(list),
        Err(_) => Err(Fail::new("the words are refused")),
    }
}

#[test]
fn builds_clips_gaps_and_a_join(rt: HostRuntime) -> Result<(), Fail> {
    let alloc = rt.alloc();
    let list = read(
        alloc,
        "-profile 2x1@25/1 -consumer raw:v pix=rgba in=1 colour:red out=1 -blank 0 -join 2 colour:blue out=0",
    )?;
    let mut host = CalmHost::new(alloc);
    match build(alloc, &list, &mut host) {
        Ok((show, table)) => {
            assert_eq!(rt; show.sealed.length(), 4);
            assert_eq!(rt; show.output.video.as_str(), "v");
            assert_eq!(rt; (show.output.first.0, show.output.last.0), (1, 3));
            assert_eq!(rt;
                (show.output.channels, show.output.format),
                (2, Format::S16)
            );
            assert!(rt; table.source(SourceNo(2)).is_none());
            let blue = Colour {
                r: 0,
                g: 0,
                b: 255,
                a: 255,
            };
            match table.source(SourceNo(1)) {
                Some(Source::Colour(colour)) => assert_eq!(rt; *colour, blue),
                _ => return Err(Fail::new("no second colour")),
            }
        }
        Err(_) => return Err(Fail::new("not built")),
    }
    Ok(())
}

#[test]
fn counts_the_words_of_its_groups(rt: HostRuntime) -> Result<(), Fail> {
    let alloc = rt.alloc();
    // The words, and how many they are, which is where nothing to play is refused.
    let rows: [(&str, u32); 4] = [
        ("-profile 1x1@25/1", 2),
        ("-consumer raw:v cache=1", 3),
        ("-group in=1 -quiet", 3),
        ("-group -blank 0 -remove", 4),
    ];
    for (line, count) in rows {
        let list = read(alloc, line)?;
        let mut host = CalmHost::new(alloc);
        match build(alloc, &list, &mut host) {
            Ok(_) => return Err(Fail::new("something is played")),
            Err(fault) => {
                let refusal = mlt_tree::Refusal {
                    word: count,
                    inner: None,
                    cause: Cause::NoProducer,
                };
                assert_eq!(rt; fault, BuildFault::Refused(refusal), "{line}");
            }
        }
    }
    Ok(())
}

#[test]
fn finds_the_first_two_groups_of_a_kind(rt: HostRuntime) -> Result<(), Fail> {
    let alloc = rt.alloc();
    let line = "-quiet -blank 0 colour:red -blank 1 -blank 2";
    let list = read(alloc, line)?;
    let (first, second) = first_two(list.as_slice(), GroupKind::Blank);
    assert_eq!(rt; first.map(|group| group.place), Some(1));
    assert_eq!(rt; second.map(|group| group.place), Some(4));
    let (first, second) = first_two(list.as_slice(), GroupKind::Quiet);
    assert_eq!(rt; first.map(|group| group.place), Some(0));
    assert!(rt; second.is_none());
    let (first, second) = first_two(list.as_slice(), GroupKind::Profile);
    assert!(rt; first.is_none());
    assert!(rt; second.is_none());
    Ok(())
}

#[test]
fn refuses_a_second_profile(rt: HostRuntime) -> Result<(), Fail> {
    let alloc = rt.alloc();
    // The words, and which one is refused, and why: a first profile that is none comes before a second.
    let rows: [(&str, u32, Cause); 3] = [
        (
            "-profile 1x1@25/1 colour:red -profile 2x2@25/1",
            3,
            Cause::TooMany { limit: 1 },
        ),
        (
            "-profile 1x1@25/1 colour:red -profile none",
            3,
            Cause::TooMany { limit: 1 },
        ),
        ("-profile none -profile 1x1@25/1", 0, Cause::BadValue),
    ];
    for (line, word, cause) in rows {
        let list = read(alloc, line)?;
        let mut host = CalmHost::new(alloc);
        let wanted = BuildFault::Refused(mlt_tree::Refusal {
            word,
            inner: None,
            cause,
        });
        match build(alloc, &list, &mut host) {
            Ok(_) => return Err(Fail::new("built")),
            Err(fault) => assert_eq!(rt; fault, wanted, "{line}"),
        }
    }
    Ok(())
}

#[test]
fn reads_each_property_at_its_ends(rt: HostRuntime) -> Result<(), Fail> {
    let alloc = rt.alloc();
    // The properties of `raw`, and the threads, buffers, slices, pictures and pixels that they ask for.
    let rows: [(&str, (u32, u32, u32, u32, Pix)); 5] = [
        ("", (0, 25, 1, 4, Pix::Rgb)),
        (" pix=rgba", (0, 25, 1, 4, Pix::Rgba)),
        (
            " pix=rgb real_time=-16 buffer=1 slices=1 cache=0",
            (16, 1, 1, 0, Pix::Rgb),
        ),
        (
            " real_time=16 buffer=64 slices=16 cache=64",
            (16, 64, 16, 64, Pix::Rgb),
        ),
        (" cache=64 cache=3", (0, 25, 1, 3, Pix::Rgb)),
    ];
    for (props, wanted) in rows {
        let line = format!(in alloc;
            "-profile 1x1@25/1 -consumer raw:v{props} colour:red length=1"
        )?;
        let list = read(alloc, line.as_str())?;
        let mut host = CalmHost::new(alloc);
        let Ok((show, _)) = build(alloc, &list, &mut host) else {
            return Err(Fail::new("not built"));
        };
        let output = &show.output;
        let read = (
            output.workers,
            output.buffer,
            output.slices,
            output.cache,
            output.pix,
        );
        assert_eq!(rt; read, wanted, "{props}");
    }
    Ok(())
}

#[test]
fn refuses_each_property_past_its_ends(rt: HostRuntime) -> Result<(), Fail> {
    let alloc = rt.alloc();
    // A property of the word at place 4, its value, and its ends.
    let rows: [(&str, i64, i64, i64); 16] = [
        ("-consumer raw:v real_time=-17", -17, -16, 16),
        ("-consumer raw:v real_time=17", 17, -16, 16),
        ("-consumer raw:v buffer=0", 0, 1, 64),
        ("-consumer raw:v buffer=65", 65, 1, 64),
        ("-consumer raw:v slices=0", 0, 1, 16),
        ("-consumer raw:v slices=17", 17, 1, 16),
        ("-consumer raw:v cache=-1", -1, 0, 64),
        ("-consumer raw:v cache=65", 65, 0, 64),
        ("-attach-track crop left=-1", -1, 0, 4096),
        ("-attach-track crop right=4097", 4097, 0, 4096),
        ("-attach-track crop top=4097", 4097, 0, 4096),
        ("-attach-track crop bottom=4097", 4097, 0, 4096),
        ("-attach-track threshold midpoint=256", 256, 0, 255),
        ("-attach-track obscure size=0", 0, 1, 4096),
        ("-quiet colour:red length=0", 0, 1, 2147483647),
        (
            "-quiet colour:red length=2147483648",
            2147483648,
            1,
            2147483647,
        ),
    ];
    for (words, value, low, high) in rows {
        let line = format!(in alloc; "-profile 1x1@25/1 {words} colour:red")?;
        let list = read(alloc, line.as_str())?;
        let mut host = CalmHost::new(alloc);
        let wanted = BuildFault::Refused(mlt_tree::Refusal {
            word: 4,
            inner: None,
            cause: Cause::OutOfRange { value, low, high },
        });
        match build(alloc, &list, &mut host) {
            Ok(_) => return Err(Fail::new("built")),
            Err(fault) => assert_eq!(rt; fault, wanted, "{words}"),
        }
    }
    Ok(())
}

/// A host with a picture, a file that ends too soon, and a file that is none.
fn host_with_files(alloc: Global) -> Result<CalmHost, Fail> {
    let mut host = CalmHost::new(alloc);
    host.add_file("p.ppm", b"P6 1 1 255\nabc")?;
    host.add_file("short.ppm", b"P6 1 1 255\nab")?;
    host.add_file("no", b"P")?;
    Ok(host)
}

#[test]
fn loads_a_file_for_each_word_that_names_it(rt: HostRuntime) -> Result<(), Fail> {
    let alloc = rt.alloc();
    let list = read(alloc, "-profile 1x1@25/1 p.ppm out=0 ppm:p.ppm")?;
    let mut host = host_with_files(alloc)?;
    match build(alloc, &list, &mut host) {
        Ok((_, table)) => {
            assert!(rt; table.source(SourceNo(1)).is_some());
            assert!(rt; table.source(SourceNo(2)).is_none());
        }
        Err(_) => return Err(Fail::new("not built")),
    }
    Ok(())
}

#[test]
fn refuses_files_that_are_no_picture(rt: HostRuntime) -> Result<(), Fail> {
    let alloc = rt.alloc();
    // The words behind the profile and a colour, and why the word at place 3 is refused.
    let rows: [(&str, Cause); 3] = [
        ("short.ppm", Cause::BadPicture(PpmFault::Short(2, 3))),
        ("ppm:no", Cause::BadPicture(PpmFault::NotP6)),
        (
            "p.ppm in=1 out=0",
            Cause::BadRange {
                first: 1,
                last: 0,
                length: 15000,
            },
        ),
    ];
    for (words, cause) in rows {
        let line = format!(in alloc; "-profile 1x1@25/1 colour:red {words}")?;
        let list = read(alloc, line.as_str())?;
        let mut host = host_with_files(alloc)?;
        let wanted = BuildFault::Refused(mlt_tree::Refusal {
            word: 3,
            inner: None,
            cause,
        });
        match build(alloc, &list, &mut host) {
            Ok(_) => return Err(Fail::new("built")),
            Err(fault) => assert_eq!(rt; fault, wanted, "{words}"),
        }
    }
    Ok(())
}

#[test]
fn names_the_word_whose_file_is_missing(rt: HostRuntime) -> Result<(), Fail> {
    let alloc = rt.alloc();
    // A picture that is played, and one that is a map.
    let lines: [&str; 2] = [
        "-profile 1x1@25/1 colour:red missing.ppm -join 5",
        "-profile 1x1@25/1 colour:red -transition luma:missing.ppm -join 5",
    ];
    for line in lines {
        let list = read(alloc, line)?;
        let mut host = CalmHost::new(alloc);
        match build(alloc, &list, &mut host) {
            Ok(_) => return Err(Fail::new("built")),
            Err(fault) => assert_eq!(rt; fault, BuildFault::SourceFault(3), "{line}"),
        }
    }
    Ok(())
}

#[test]
fn builds_tracks_plants_and_a_mix(rt: HostRuntime) -> Result<(), Fail> {
    let alloc = rt.alloc();
    // The words behind the profile, and how many frames are played.
    let rows: [(&str, u32); 4] = [
        ("colour:red out=2 colour:blue out=2 -mix 2 -mixer luma", 4),
        (
            "colour:red out=2 -hide-video colour:blue out=4 -track -filter mirror",
            5,
        ),
        (
            "colour:red out=2 -track colour:blue out=1 -transition luma:p.ppm softness=0.5 out=1",
            3,
        ),
        (
            "colour:red out=2 -track colour:blue out=1 -transition composite:0/0:1x1 -filter greyscale track=0",
            3,
        ),
    ];
    for (words, length) in rows {
        let line = format!(in alloc; "-profile 1x1@25/1 {words}")?;
        let list = read(alloc, line.as_str())?;
        let mut host = host_with_files(alloc)?;
        match build(alloc, &list, &mut host) {
            Ok((show, _)) => assert_eq!(rt; show.sealed.length(), length, "{words}"),
            Err(_) => return Err(Fail::new("not built")),
        }
    }
    Ok(())
}

#[test]
fn refuses_what_is_planted_wrongly(rt: HostRuntime) -> Result<(), Fail> {
    let alloc = rt.alloc();
    // The words behind the profile and a colour, and why the word at place 3 is refused.
    let rows: [(&str, Cause); 7] = [
        (
            "-transition luma a_track=0 b_track=1",
            Cause::BadTrack { no: 1, tracks: 1 },
        ),
        ("-transition luma", Cause::SameTrack { no: 0 }),
        (
            "-filter mirror track=2",
            Cause::BadTrack { no: 2, tracks: 1 },
        ),
        ("-mixer luma", Cause::NoMix),
        ("-mix 1", Cause::TooFew { asked: 2, there: 1 }),
        ("-transition luma:no", Cause::BadPicture(PpmFault::NotP6)),
        ("-transition sum", Cause::Unsupported),
    ];
    for (words, cause) in rows {
        let line = format!(in alloc; "-profile 1x1@25/1 colour:red {words}")?;
        let list = read(alloc, line.as_str())?;
        let mut host = host_with_files(alloc)?;
        let wanted = BuildFault::Refused(mlt_tree::Refusal {
            word: 3,
            inner: None,
            cause,
        });
        match build(alloc, &list, &mut host) {
            Ok(_) => return Err(Fail::new("built")),
            Err(fault) => assert_eq!(rt; fault, wanted, "{words}"),
        }
    }
    Ok(())
}
