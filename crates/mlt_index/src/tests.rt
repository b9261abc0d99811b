//! Worked searches and replacements, and how many steps a search takes.

ghost use Rattle.std.specs.Prelude.{◌<◌, ◌^◌};

use crate::Starts;
use mlt_base::{Pos, Steps};
use std::alloc::{AllocError, Global};
use std::test::Fail;

#[test]
fn finds_entries(rt: HostRuntime) -> Result<(), Fail> {
    let mut starts = Starts::new(rt.alloc());
    let mut steps = Steps::new();
    starts.replace(0, 0, &[5, 2, 3])?;
    assert_eq!(rt; (starts.count(), starts.sum()), (3, 10));
    assert_eq!(rt; starts.find(Pos(6), &mut steps), Some((1, Pos(1))));
    assert!(rt; steps.count() <= 2);
    assert_eq!(rt; starts.find(Pos(10), &mut Steps::new()), None);
    starts.replace(1, 1, &[1, 1])?;
    assert_eq!(rt; starts.find(Pos(6), &mut Steps::new()), Some((2, Pos(0))));
    Ok(())
}

/// How many steps it takes to find the first of so many entries of one frame.
fn steps_to_first(alloc: Global, count: u32) -> Result<u64, AllocError>
    requires { count < 2 ^ 31 }
{
    let mut starts = Starts::new(alloc);
    starts.replace(0, 0, &vec![in alloc; 1; count as usize]?)?;
    let mut steps = Steps::new();
    let _ = starts.find(Pos(0), &mut steps);
    Ok(steps.count())
}

#[test]
fn halves(rt: HostRuntime) -> Result<(), Fail> {
    let rows = [(1, 1), (2, 2), (3, 2), (4, 3), (1_000, 10), (100_000, 17)];
    for (count, wanted) in rows {
        assert!(rt; count <= 100_000);
        let steps = steps_to_first(rt.alloc(), count)?;
        assert_eq!(rt; steps, wanted, "{count} entries");
    }
    Ok(())
}
