//! What many words mean, and every call of a host failing in turn.

ghost use Rattle.std.specs.Prelude.{◌≡◌, Err};
ghost use Rattle.mlt_host.specs.DiskHost.{disk_of, disk_state};
ghost use Rattle.mlt_host.specs.DiskInMemory.{file_on, mem_disk};
ghost use Rattle.mlt_tree.specs.Loading as read;
ghost use Rattle.mlt_tree.specs.Reading.{reading};
ghost use Rattle.melt_run.specs.Outcome.{IsWholeTally, MeetsNoFault, IsDoneOrMemory, IsAccepted};
ghost use Rattle.melt_run.specs.Show.{texts};
ghost use Rattle.melt_run.specs.Status.{IfDone, IfRefused};

use super::*;
use crate::line::fault_line;
use mlt_base::{Port, PpmFault};
use mlt_host::disk_in_memory::MemDisk;
use mlt_host::{Counted, DiskHost, MemHost};
use mlt_tree::{Cause, Refusal};
use std::alloc::{AllocError, Global};
use std::test::Fail;

const RED_TWICE: [&str; 6] = [
    "-profile",
    "1x1@25/1",
    "-consumer",
    "raw:v",
    "colour:red",
    "out=1",
];

const fn tally(frames: u64) -> Tally {
    tally_with(frames, frames)
}

const fn tally_with(frames: u64, loads: u64) -> Tally {
    Tally {
        frames,
        loads,
        handed: frames,
        taken: frames,
        destroyed: 0,
    }
}

const fn refusal(word: u32, cause: Cause) -> Status {
    Status::Refused(Refusal {
        word,
        inner: None,
        cause,
    })
}

fn split(alloc: Global, line: &str) -> Result<Vec<String>, AllocError> {
    let mut words = Vec::new(alloc);
    for text in line.split(' ') {
        words.push(String::from_str(alloc, text)?)?;
    }
    Ok(words)
}

fn owned(alloc: Global, texts: &[&str]) -> Result<Vec<String>, AllocError> {
    let mut words = Vec::new(alloc);
    for text in texts {
        words.push(String::from_str(alloc, text)?)?;
    }
    Ok(words)
}

/// A host with pictures: of one pixel, of two, and one whose last byte is wanting.
fn with_pictures(alloc: Global) -> Result<MemHost, AllocError> {
    let mut host = MemHost::new(alloc);
    host.add_file("p.ppm", b"P6 1 1 255\n\x0a\x14\x1e")?;
    host.add_file("x", b"P6 1 1 255\n\x0a\x14\x1e")?;
    host.add_file("w.ppm", b"P6 2 1 255\n\x00\x00\x00\xff\x80\x01")?;
    host.add_file("short.ppm", b"P6 1 1 255\n\x0a\x14")?;
    Ok(host)
}

#[test]
fn loads_a_file_for_each_word(rt: HostRuntime) -> Result<(), Fail> {
    let alloc = rt.alloc();
    let words = split(
        alloc,
        "-profile 1x1@25/1 -consumer raw:v p.ppm out=0 p.ppm out=0",
    )?;
    // The call that fails: each of the two loads, and then the create.
    let rows: [(u64, Status, &str); 3] = [
        (0, Status::SourceFault(4), "melt: word 4: cannot read\n"),
        (1, Status::SourceFault(6), "melt: word 6: cannot read\n"),
        (
            2,
            Status::SinkFault(Port::Video, tally(0)),
            "melt: cannot write video\n",
        ),
    ];
    for (call, status, text) in rows {
        let mut host = with_pictures(alloc)?;
        host.fail_at(call, 0)?;
        let answer = melt(&(), alloc, words.as_slice(), &mut host, &Free);
        assert_eq!(rt; answer, status, "call {call}");
        assert_eq!(rt; host.name_of(Port::Video), "");
        assert_eq!(rt; host.bytes_of(Port::Text), text.as_bytes());
    }
    Ok(())
}

/// A clip that is joined so many times.
fn nested(alloc: Global, joins: u32) -> Result<Vec<String>, AllocError> {
    let mut words = split(alloc, "-profile 1x1@25/1 -consumer raw:v colour:red out=0")?;
    for _ in 0..joins {
        words.push(String::from_str(alloc, "-join")?)?;
        words.push(String::from_str(alloc, "1")?)?;
    }
    Ok(words)
}

#[test]
fn nests_units_sixteen_deep(rt: HostRuntime) -> Result<(), Fail> {
    let alloc = rt.alloc();
    let deepest = nested(alloc, 15)?;
    let mut host = MemHost::new(alloc);
    let answer = melt(&(), alloc, deepest.as_slice(), &mut host, &Free);
    assert_eq!(rt; answer, Status::Done(tally(1)));
    assert_eq!(rt; host.bytes_of(Port::Video), [255, 0, 0].as_slice());
    let too_deep = nested(alloc, 16)?;
    let answer = melt(&(), alloc, too_deep.as_slice(), &mut host, &Free);
    assert_eq!(rt; answer, refusal(38, Cause::TooDeep { depth: 17 }));
    Ok(())
}

#[test]
fn plays_the_end_of_nine_thousand_clips(rt: HostRuntime) -> Result<(), Fail> {
    let alloc = rt.alloc();
    let mut words = split(
        alloc,
        "-profile 1x1@25/1 -consumer raw:v in=134999999 out=135000000",
    )?;
    for _ in 0..9000 {
        words.push(String::from_str(alloc, "colour:red")?)?;
    }
    words.push(String::from_str(alloc, "colour:blue")?)?;
    let mut host = MemHost::new(alloc);
    let answer = melt(&(), alloc, words.as_slice(), &mut host, &Free);
    assert_eq!(rt; answer, Status::Done(tally(2)));
    assert_eq!(rt;
        host.bytes_of(Port::Video),
        [255, 0, 0, 0, 0, 255].as_slice()
    );
    Ok(())
}

#[test]
fn answers_each_failing_call(rt: HostRuntime) -> Result<(), Fail> {
    let alloc = rt.alloc();
    let words = owned(alloc, &RED_TWICE)?;
    let line = "melt: cannot write video\n";
    // The call that fails and what it keeps of its piece; the frames before it, and what Video has.
    let rows: [(u64, u64, u64, &[u8]); 7] = [
        (0, 0, 0, &[]),
        (1, 0, 0, &[]),
        (1, 1, 0, &[255]),
        (1, 9, 0, &[255, 0, 0]),
        (2, 0, 1, &[255, 0, 0]),
        (2, 1, 1, &[255, 0, 0, 255]),
        (2, 9, 1, &[255, 0, 0, 255, 0, 0]),
    ];
    for (call, kept, frames, video) in rows {
        let mut host = MemHost::new(alloc);
        host.fail_at(call, kept)?;
        let tally = Tally {
            frames,
            loads: frames,
            handed: call,
            taken: call,
            destroyed: 0,
        };
        let answer = melt(&(), alloc, words.as_slice(), &mut host, &Free);
        assert_eq!(rt;
            answer,
            Status::SinkFault(Port::Video, tally),
            "call {call}"
        );
        assert_eq!(rt; host.bytes_of(Port::Video), video);
        assert_eq!(rt; host.bytes_of(Port::Text), line.as_bytes());
    }
    // The line itself, and an answer, cannot be written.
    let mut host = MemHost::new(alloc);
    host.fail_at(0, 4)?;
    let nothing = owned(alloc, &RED_TWICE[..4])?;
    let answer = melt(&(), alloc, nothing.as_slice(), &mut host, &Free);
    assert_eq!(rt; answer.code(), 1);
    assert_eq!(rt; host.bytes_of(Port::Text), b"melt".as_slice());
    assert_eq!(rt;
        fault_line(&answer).as_slice(),
        b"melt: word 4: nothing to play\n".as_slice()
    );
    let mut host = MemHost::new(alloc);
    host.fail_at(0, 4)?;
    let answer = melt_text(TextJob::Version, &mut host);
    assert_eq!(rt; answer, Status::SinkFault(Port::Text, tally(0)));
    assert_eq!(rt; host.bytes_of(Port::Text), b"melt".as_slice());
    Ok(())
}

/// The program's host over a disk in memory.
type MemDiskHost = DiskHost<MemDisk, Counted<Vec<u8>>, Counted<Vec<u8>>>;

/// `melt` over such a host. Its disk tells its files, so what the contract says of the meaning of words holds of
/// words that name files too.
fn melts_over_a_disk(alloc: Global, words: &[String], host: &mut MemDiskHost) -> Status
    ensures tally { IfDone result (IsWholeTally (reading (texts words.now) (file_on (disk_of host.old)))) }
    ensures refused { IfRefused result (λ refusal. reading (texts words.now) (file_on (disk_of host.old)) ≡ Err (read.Refused refusal)) }
    ensures complete { IsAccepted (reading (texts words.now) (file_on (disk_of host.old))) →
        MeetsNoFault (disk_state mem_disk host.old) (disk_state mem_disk host.new) → IsDoneOrMemory result }
{
    melt(&(), alloc, words, host, &Free)
}

#[test]
fn plays_to_a_file_of_a_disk(rt: HostRuntime) -> Result<(), Fail> {
    let alloc = rt.alloc();
    let mut disk = MemDisk::new(alloc);
    disk.add_file("red.ppm", b"P6 1 1 255\n\xff\x00\x00")?;
    disk.add_file("bad.ppm", b"P6 0 1 255\n")?;
    let mut host = DiskHost::new(disk, Vec::new(alloc), Vec::new(alloc));
    // Words that are refused, and a question, open no file to write.
    let rows: [(&str, Status, &[u8], &str); 5] = [
        (
            "-profile 1x1@25/1 -consumer raw:v colour:red out=1",
            Status::Done(tally(2)),
            b"",
            "",
        ),
        (
            "-profile 1x1@25/1 -consumer raw:v red.ppm out=1",
            Status::Done(tally(2)),
            b"",
            "",
        ),
        (
            "-profile 1x1@25/1 -consumer raw:w",
            refusal(4, Cause::NoProducer),
            b"",
            "melt: word 4: nothing to play\n",
        ),
        (
            "-consumer raw:w red.ppm bad.ppm",
            refusal(3, Cause::BadPicture(PpmFault::BadHeader(3))),
            b"",
            "melt: word 4: nothing to play\nmelt: word 3: bad picture\n",
        ),
        (
            "-version",
            Status::Done(tally(0)),
            b"",
            "melt: word 4: nothing to play\nmelt: word 3: bad picture\nmelt 1.0.0\n",
        ),
    ];
    for (line, status, output, errors) in rows {
        let words = split(alloc, line)?;
        let answer = melts_over_a_disk(alloc, words.as_slice(), &mut host);
        assert_eq!(rt; answer, status, "{line}");
        assert_eq!(rt; host.stdout().as_slice(), output);
        assert_eq!(rt; host.stderr().as_slice(), errors.as_bytes());
        let Some(file) = host.file_of(Port::Video) else {
            return Err(Fail::new("no file was opened"));
        };
        assert_eq!(rt; file.name(), "v");
        assert_eq!(rt; file.written(), [255, 0, 0, 255, 0, 0].as_slice());
    }
    Ok(())
}
