//! The calls of a bag over a bin that notes numbers.

ghost use Rattle.std.specs.Prelude.{◌≡◌, ◌+◌, ◌<◌, ◌≤◌, [], map, length, vec_len, vec_capacity, IfOk};

use crate::{BadName, Bag, Bin, Ends, laws};
use mlt_base::Try;
use std::alloc::{AllocError, Global};
use std::process::Abort;
use std::test::Fail;

/// An owned value by its number. It has no `Drop`.
struct Reel(u32);

impl Ends for Reel {}

/// A bin that notes the numbers of the reels that have ended.
#[derive(Drop)]
struct Shelf {
    numbers: Vec<u32>,
    places: usize,
    ghost fits: { vec_len numbers + places ≤ vec_capacity numbers },
}

impl Shelf {
    fn new(alloc: Global, places: usize) -> Result<Shelf, AllocError>
        ensures { IfOk result (λ s. s.places ≡ places) }
    {
        Ok(Shelf {
            numbers: Vec::with_capacity(alloc, places)?,
            places,
        })
    }
}

impl Bin<Reel> for Shelf {
    ghost ended = { λ s. map (λ n. record { 0 = n }) s.numbers.items };

    ghost free = { λ s. s.places };

    fn put(&mut self, value: Reel) {
        let Reel(number) = value;
        self.numbers.push(number).unwrap();
        self.places -= 1;
    }
}

/// The number of a reel that was taken out, if there was one.
fn number(reel: Option<Reel>) -> Option<u32> {
    let Reel(number) = reel?;
    Some(number)
}

/// Sets a name to a reel.
fn keep(rt: &impl Abort, bag: &mut Bag<Reel>, name: &str, reel: Reel, shelf: &mut Shelf)
    requires { 0 < shelf.old.places }
    ensures room { shelf.old.places ≤ shelf.new.places + 1 }
    ensures grows { length bag.new ≤ length bag.old + 1 }
{
    if let Err((Reel(_number), refusal)) = bag.set_owned(name, reel, shelf) {
        panic!(rt; "{refusal:?}");
    }
}

#[test]
fn an_owned_value_ends_once(rt: HostRuntime) -> Result<(), Fail> {
    let mut shelf = Shelf::new(rt.alloc(), 8)?;
    let mut bag = Bag::new(rt.alloc());
    keep(&rt, &mut bag, "x", Reel(1), &mut shelf);
    keep(&rt, &mut bag, "x", Reel(2), &mut shelf);
    bag.close(&mut shelf);
    assert_eq!(rt; shelf.numbers.as_slice(), [1, 2].as_slice());
    Ok(())
}

#[test]
fn each_call(rt: HostRuntime) -> Result<(), Fail> {
    laws::last_setting_counts::<Reel>();
    let mut shelf = Shelf::new(rt.alloc(), 16)?;
    let mut from = Bag::new(rt.alloc());
    let mut bag = Bag::new(rt.alloc());

    let bad = from.set_text("", "one", &mut shelf);
    assert_eq!(rt; bad, Err(Try::Fault(BadName)));
    assert_eq!(rt; from.set_text("a.x", "one", &mut shelf), Ok(()));
    assert_eq!(rt; from.set_text("b.y", "two", &mut shelf), Ok(()));
    assert_eq!(rt; bag.pass(&from, "a", &mut shelf).is_ok(), true);
    assert_eq!(rt; bag.get_text("a.x"), Some("one"));
    assert_eq!(rt; bag.count(), 1);

    assert_eq!(rt; bag.set_int("y", 7, &mut shelf), Ok(()));
    assert_eq!(rt; bag.get_int("y"), Some(7));
    assert_eq!(rt; bag.get_text("y"), None);

    keep(&rt, &mut bag, "z", Reel(3), &mut shelf);
    assert_eq!(rt; number(bag.take_owned("y")), None);
    assert_eq!(rt; bag.name_at(2), Some("z"));
    assert_eq!(rt; number(bag.take_owned("z")), Some(3));
    assert_eq!(rt; bag.name_at(2), None);

    from.close(&mut shelf);
    bag.close(&mut shelf);
    assert_eq!(rt; shelf.numbers.len(), 0);
    Ok(())
}
