use super::*;
use mlt_base::{Text, Try};
use std::alloc::{AllocError, Global};
use std::test::Fail;

fn words(alloc: Global, line: &str) -> Result<Vec<String>, AllocError> {
    let mut words = Vec::new(alloc);
    for word in line.split(' ') {
        words.push(String::from_str(alloc, word)?)?;
    }
    Ok(words)
}

/// What a line of words is made up of: each group by its place, kind and argument, and its properties.
fn told(alloc: Global, line: &str) -> Result<String, AllocError> {
    let words = words(alloc, line)?;
    let list = match groups(alloc, &words) {
        Ok(list) => list,
        Err(Try::Fault(fault)) => {
            let place = fault.place;
            let cause = fault.cause;
            return format!(in alloc; "{place} {cause:?}");
        }
        Err(Try::Memory) => return Err(AllocError),
    };
    let mut text = String::new(alloc);
    for group in list.as_slice() {
        let (place, kind, arg) = (group.place, group.kind, group.arg.as_str());
        text.push_str(format!(in alloc; "[{place} {kind:?} '{arg}'")?.as_str())?;
        for prop in group.props.as_slice() {
            let (place, name, value) = (prop.place, prop.name.as_str(), prop.value.as_str());
            text.push_str(format!(in alloc; " {place} {name}:{value}")?.as_str())?;
        }
        text.push_str("]")?;
    }
    Ok(text)
}

#[test]
fn words_make_groups(rt: HostRuntime) -> Result<(), Fail> {
    for (line, want) in [
        ("a b c d -foo", "4 UnknownOption"),
        ("-a=b", "0 UnknownOption"),
        ("-jack", "0 Unsupported"),
        ("a -split", "1 MissingArgument"),
        ("a -split 0 out=3", "3 StrayProperty"),
        ("a =x", "1 StrayProperty"),
        ("x=1", "0 StrayProperty"),
        ("- out=9=", "[0 Producer '-' 1 out:9=]"),
        (
            "-blank -foo -group in=2 b",
            "[0 Blank '-foo'][2 Group '' 3 in:2][4 Producer 'b']",
        ),
        ("-split x=1 -remove", "[0 Split 'x=1'][2 Remove '']"),
    ] {
        let text = told(rt.alloc(), line)?;
        assert_eq!(rt; text.as_str(), want, "at {line}");
    }
    Ok(())
}

#[test]
fn ten_thousand_words_are_most(rt: HostRuntime) -> Result<(), Fail> {
    let mut words = Vec::new(rt.alloc());
    for _ in 0..10_000 {
        words.push(String::from_str(rt.alloc(), "a")?)?;
    }
    let list = groups(rt.alloc(), &words).ok().ok_or("refused")?;
    assert_eq!(rt; list.count(), 10_000);
    let last = list.item(9_999).ok_or("none")?;
    assert_eq!(rt; last.place, 9_999);
    assert_eq!(rt; last.props.count(), 0);
    words.push(String::from_str(rt.alloc(), "-foo")?)?;
    let fault = WordFault {
        place: 10_000,
        cause: WordCause::TooMany(10_000),
    };
    assert_eq!(rt; groups(rt.alloc(), &words).err(), Some(Try::Fault(fault)));
    Ok(())
}

#[test]
fn words_are_listed(rt: HostRuntime) -> Result<(), Fail> {
    let mut list = WordList::new(rt.alloc());
    let pushed = list.push(Text::new(rt.alloc(), "a")?);
    assert!(rt; pushed.is_ok());
    assert_eq!(rt; list.count(), 1);
    assert_eq!(rt; list.item(0).ok_or("none")?.as_str(), "a");
    Ok(())
}
