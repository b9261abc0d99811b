//! Plays each line of its standard input as the words of a command line, on a host in memory that has some pictures.
//! It prints the line, and below it how that ended, the bytes of the output, and what a person reads.
#![tactic(auto)]

use melt_run::{Free, melt};
use mlt_base::Port;
use mlt_host::MemHost;
use std::alloc::{AllocError, Global};
use std::io::{self, BufRead, BufReader};

/// A host with pictures: of one pixel, of two, and one whose last byte is wanting.
fn with_pictures(alloc: Global) -> Result<MemHost, AllocError> {
    let mut host = MemHost::new(alloc);
    host.add_file("p.ppm", b"P6 1 1 255\n\x0a\x14\x1e")?;
    host.add_file("x", b"P6 1 1 255\n\x0a\x14\x1e")?;
    host.add_file("w.ppm", b"P6 2 1 255\n\x00\x00\x00\xff\x80\x01")?;
    host.add_file("short.ppm", b"P6 1 1 255\n\x0a\x14")?;
    Ok(host)
}

/// The words of a line, which spaces divide.
fn words_of(alloc: Global, line: &str) -> Result<Vec<String>, AllocError> {
    let mut words = Vec::new(alloc);
    for text in line.split(' ') {
        words.push(String::from_str(alloc, text)?)?;
    }
    Ok(words)
}

/// Plays a line, and prints what came of it.
fn play(rt: &impl Print, alloc: Global, line: &str) -> io::Result<()> {
    let words = words_of(alloc, line)?;
    let mut host = with_pictures(alloc)?;
    let answer = melt(&(), alloc, words.as_slice(), &mut host, &Free);
    println!(rt; "{line}")?;
    println!(rt; "    {answer:?}")?;
    let video = host.bytes_of(Port::Video);
    if !video.is_empty() {
        println!(rt; "    {video:?}")?;
    }
    let text = str::from_utf8(host.bytes_of(Port::Text)).unwrap_or("?");
    for told in text.lines() {
        println!(rt; "    {told}")?;
    }
    Ok(())
}

fn main(rt: HostRuntime) -> io::Result<()> {
    let alloc = rt.alloc();
    for line in BufReader::new(alloc, rt.reader())?.lines(alloc) {
        play(&rt, alloc, line?.as_str())?;
    }
    Ok(())
}
