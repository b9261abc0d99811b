//! The line that tells a person how a run ended, written into a fixed array.

ghost use Rattle.std.specs.Prelude.{◌≡◌, ◌≤◌, ◌<◌, ◌+◌, ◌*◌, ◌++◌, [], All, length, map, take, drop};
ghost use Rattle.mlt_tree.specs.declared.refusal.Cause.TheVariants.{OutOfRange};
ghost use Rattle.mlt_tree.specs.Lines.{Count, Number, part_text, text_of, words, cause_parts, inner_parts, port_text, refusal_line, source_line, sink_line, has_line, memory_line};
ghost use Rattle.melt_run.specs.LineParts.{part_view, FitsLine};
ghost use Rattle.melt_run.specs.Status.{line_of};

use crate::status::Status;
use itoa::Buffer;
use mlt_base::Port;
use mlt_tree::{Cause, Refusal};
use std::marker::Model;

/// A part of a line: words, or a number in decimal digits. It has at most 40 bytes.
#[derive(Clone, Copy)]
pub(crate) enum LinePart {
    Words(&'static str),
    Count(u64),
    Number(i64),
}

/// No words, behind the parts of a short text.
const NOTHING: LinePart = LinePart::Words("");

/// Room for the longest line, which has 13 parts.
const ROOM: usize = 520;

/// A line of at most 520 bytes, seen as its bytes.
#[derive(Drop)]
pub struct Line {
    bytes: [u8; 520],
    length: usize,
}

impl Model for Line {
    ghost use Rattle.std.specs.Prelude.{ℕ, List, take, ◌≤◌};

    ghost Value = { List ℕ };

    ghost view = { λ l. take l.length l.bytes };

    ghost invariant = { λ l. l.length ≤ 520 };
}

/// Puts the text into the bytes from a place on.
fn put(bytes: &mut [u8], at: usize, text: &[u8])
    requires { at + length text.now ≤ length bytes.old }
    ensures { bytes.new ≡ take at bytes.old ++ (text.now ++ drop (at + length text.now) bytes.old) }
{
    bytes[at..at + text.len()].copy_from_slice(text);
}

impl Line {
    /// A line without a byte.
    pub fn new() -> Line
        ensures { result ≡ [] }
    {
        Line {
            bytes: [0; ROOM],
            length: 0,
        }
    }

    /// Its bytes.
    pub fn as_slice(&self) -> &[u8]
        ensures { result.now ≡ self.now }
    {
        &self.bytes[..self.length]
    }

    /// Adds the text at the end.
    fn text(&mut self, text: &str)
        requires { length self.old + length text.now ≤ 520 }
        ensures { self.new ≡ self.old ++ text.now }
    {
        put(&mut self.bytes, self.length, text.as_bytes());
        self.length += text.len();
    }

    /// Adds a part at the end.
    fn part(&mut self, part: LinePart)
        requires short { FitsLine part }
        requires room { length self.old + 40 ≤ 520 }
        ensures text { self.new ≡ self.old ++ part_text (part_view part) }
        ensures short { length self.new ≤ length self.old + 40 }
    {
        let mut buffer = Buffer::new();
        match part {
            LinePart::Words(words) => self.text(words),
            LinePart::Count(n) => self.text(buffer.format(n)),
            LinePart::Number(n) => self.text(buffer.format(n)),
        }
    }

    /// Adds parts, one after another.
    fn parts(&mut self, parts: &[LinePart])
        requires short { All FitsLine parts.now }
        requires room { length self.old + length parts.now * 40 ≤ 520 }
        ensures text { self.new ≡ self.old ++ text_of (map part_view parts.now) }
        ensures short { length self.new ≤ length self.old + length parts.now * 40 }
    {
        for part in parts {
            self.part(*part);
        }
    }
}

/// A number of things, as a part.
fn count(n: u32) -> LinePart
    ensures text { part_view result ≡ Count n }
    ensures short { FitsLine result }
{
    LinePart::Count(u64::from(n))
}

/// A number, as a part.
fn number(n: i64) -> LinePart
    ensures text { part_view result ≡ Number n }
    ensures short { FitsLine result }
{
    LinePart::Number(n)
}

/// Words alone.
fn words(text: &'static str) -> [LinePart; 6]
    requires { length text.now ≤ 40 }
    ensures text { text_of (map part_view result) ≡ text_of (words text.now) }
    ensures short { All FitsLine result }
{
    [
        LinePart::Words(text),
        NOTHING,
        NOTHING,
        NOTHING,
        NOTHING,
        NOTHING,
    ]
}

/// The parts of a value that is out of its range.
fn out_of_range(value: i64, low: i64, high: i64) -> [LinePart; 6]
    ensures text { text_of (map part_view result) ≡ text_of (cause_parts (OutOfRange value low high)) }
    ensures short { All FitsLine result }
{
    [
        number(value),
        LinePart::Words(" is outside "),
        number(low),
        LinePart::Words(" to "),
        number(high),
        NOTHING,
    ]
}

/// The parts of a cause's text, and nothing behind them.
fn cause_parts(cause: Cause) -> [LinePart; 6]
    ensures text { text_of (map part_view result) ≡ text_of (cause_parts cause) }
    ensures short { All FitsLine result }
{
    use LinePart::{Count, Words};
    match cause {
        Cause::UnknownOption => words("unknown option"),
        Cause::Unsupported => words("option not supported"),
        Cause::MissingArgument => words("argument missing"),
        Cause::StrayProperty => words("property without an object"),
        Cause::UnknownService => words("unknown service"),
        Cause::BadValue => words("bad value"),
        Cause::BadNumber(_) => words("bad number"),
        Cause::OutOfRange { value, low, high } => out_of_range(value, low, high),
        Cause::TooFew { asked, there } => [
            count(asked),
            Words(" wanted, "),
            count(there),
            Words(" there"),
            NOTHING,
            NOTHING,
        ],
        Cause::BadClip {
            index,
            count: there,
        } => [
            Words("no clip at "),
            count(index),
            Words(" of "),
            count(there),
            NOTHING,
            NOTHING,
        ],
        Cause::BadSplit { at, frames } => [
            Words("cannot split "),
            count(frames),
            Words(" frames at "),
            number(at),
            NOTHING,
            NOTHING,
        ],
        Cause::BadRange {
            first,
            last,
            length,
        } => [
            Words("bad range "),
            count(first),
            Words(" to "),
            count(last),
            Words(" of "),
            count(length),
        ],
        Cause::NoMix => words("no mix to apply to"),
        Cause::BadTrack { no, tracks } => [
            Words("no track "),
            count(no),
            Words(" of "),
            count(tracks),
            NOTHING,
            NOTHING,
        ],
        Cause::SameTrack { no } => [
            Words("track "),
            count(no),
            Words(" named twice"),
            NOTHING,
            NOTHING,
            NOTHING,
        ],
        Cause::NoProducer => words("nothing to play"),
        Cause::TooMany { limit } => [
            Words("more than "),
            count(limit),
            NOTHING,
            NOTHING,
            NOTHING,
            NOTHING,
        ],
        Cause::TooLong { frames } => [
            Count(frames),
            Words(" frames are too many"),
            NOTHING,
            NOTHING,
            NOTHING,
            NOTHING,
        ],
        Cause::TooDeep { depth } => [
            Words("nested "),
            count(depth),
            Words(" deep"),
            NOTHING,
            NOTHING,
            NOTHING,
        ],
        Cause::TooLarge { bytes } => [
            Count(bytes),
            Words(" bytes are too many"),
            NOTHING,
            NOTHING,
            NOTHING,
            NOTHING,
        ],
        Cause::FileTooLarge { limit } => [
            Words("file longer than "),
            Count(limit),
            Words(" bytes"),
            NOTHING,
            NOTHING,
            NOTHING,
        ],
        Cause::BadPicture(_) => words("bad picture"),
    }
}

/// The parts of a place within a file, where there is one.
fn inner_parts(place: Option<u32>) -> [LinePart; 3]
    ensures text { text_of (map part_view result) ≡ text_of (inner_parts place) }
    ensures short { All FitsLine result }
{
    match place {
        None => [NOTHING, NOTHING, NOTHING],
        Some(place) => [
            LinePart::Words("in file word "),
            count(place),
            LinePart::Words(": "),
        ],
    }
}

/// The name of a port.
fn port_text(port: Port) -> &'static str
    ensures text { result.now ≡ port_text port }
    ensures short { length result.now ≤ 40 }
{
    match port {
        Port::Video => "video",
        Port::Audio => "audio",
        Port::Script => "script",
        Port::Text => "text",
    }
}

/// The line of a refusal.
fn refusal_line(refusal: &Refusal) -> Line
    ensures { result ≡ refusal_line refusal.now }
{
    let mut line = Line::new();
    line.parts(&[
        LinePart::Words("melt: word "),
        count(refusal.word),
        LinePart::Words(": "),
    ]);
    line.parts(&inner_parts(refusal.inner));
    line.parts(&cause_parts(refusal.cause));
    line.text("\n");
    line
}

/// The line of a file that cannot be read.
fn source_line(place: u32) -> Line
    ensures { result ≡ source_line place }
{
    let mut line = Line::new();
    line.parts(&[
        LinePart::Words("melt: word "),
        count(place),
        LinePart::Words(": "),
    ]);
    line.text("cannot read\n");
    line
}

/// The line of a port that cannot be written.
fn sink_line(port: Port) -> Line
    ensures { result ≡ sink_line port }
{
    let mut line = Line::new();
    line.text("melt: cannot write ");
    line.text(port_text(port));
    line.text("\n");
    line
}

/// The line of a run that memory was wanting for.
fn memory_line() -> Line
    ensures { result ≡ memory_line }
{
    let mut line = Line::new();
    line.text("melt: out of memory\n");
    line
}

/// Whether a failed port is told.
fn has_line(port: Port) -> bool
    ensures { result ≡ has_line port }
{
    match port {
        Port::Video | Port::Audio => true,
        Port::Script | Port::Text => false,
    }
}

/// The line of a run that ended so; no byte where all is done, nor where a script or the text failed.
pub fn fault_line(status: &Status) -> Line
    ensures { result ≡ line_of status.now }
{
    match status {
        Status::Done(_) => Line::new(),
        Status::Refused(refused) => refusal_line(refused),
        Status::SourceFault(place) => source_line(*place),
        Status::SinkFault(port, _) => {
            if has_line(*port) {
                sink_line(*port)
            } else {
                Line::new()
            }
        }
        Status::Memory => memory_line(),
    }
}
