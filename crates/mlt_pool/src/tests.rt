//! A pool as its caller sees it.

ghost use Rattle.std.specs.Prelude.{◌≡◌, length, IfOk};

use crate::{Lease, Pool};
use mlt_raw::Freed;
use std::alloc::{AllocError, Global};
use std::test::Fail;

/// What a pool with one block told.
#[derive(Drop)]
struct Told {
    may_cross_threads: bool,
    class: u8,
    lengths: (usize, usize),
    is_lent_twice: bool,
    while_lent: (u64, u32),
    written: (u8, u8),
    after: (u64, u32),
}

/// Writes the bytes to a lease of their length.
fn overwrite(lease: &mut Lease, bytes: &[u8])
    requires { length bytes.now ≡ length lease.old }
    ensures { lease.new ≡ bytes.now }
{
    lease.bytes_mut().copy_from_slice(bytes);
}

/// Whether a value may be sent to a thread and shared with one: where this can be called, it may.
fn may_cross<T: Send + Sync>(_value: &T) -> bool {
    true
}

/// Lends the block of a pool that has one of 4,096 bytes, and asks for another.
fn lend_one(alloc: Global) -> Result<Told, AllocError> {
    let mut pool = Pool::new(alloc);
    if pool.reserve(12, 1).is_err() {
        pool.close();
        return Err(AllocError);
    }
    let mut told = Told {
        may_cross_threads: false,
        class: 0,
        lengths: (0, 0),
        is_lent_twice: false,
        while_lent: (0, 0),
        written: (0, 0),
        after: (0, 0),
    };
    if let Some(mut lease) = pool.lend(4096) {
        told.may_cross_threads = may_cross(&pool) && may_cross(&lease);
        told.class = lease.class();
        told.lengths = (lease.bytes().len(), lease.bytes_mut().len());
        told.while_lent = (pool.lent(), pool.is_home(12));
        if let Some(second) = pool.lend(1) {
            told.is_lent_twice = true;
            pool.home(second);
        }
        pool.home(lease);
    }
    if let Some(mut lease) = pool.lend(2) {
        overwrite(&mut lease, b"ab");
        told.written = (lease.bytes()[0], lease.bytes()[1]);
        pool.home(lease);
    }
    told.after = (pool.lent(), pool.is_home(12));
    pool.close();
    Ok(told)
}

/// Reserves three blocks, and closes the pool.
fn close_three(alloc: Global) -> Result<Freed, AllocError>
    ensures { IfOk result (λ freed. freed ≡ 3) }
{
    let mut pool = Pool::new(alloc);
    let reserved = pool.reserve(12, 3);
    let freed = pool.close();
    reserved?;
    Ok(freed)
}

#[test]
fn the_one_block_of_a_class_is_lent_once(rt: HostRuntime) -> Result<(), Fail> {
    let told = lend_one(rt.alloc())?;
    assert!(rt; told.may_cross_threads);
    assert_eq!(rt; told.class, 12);
    assert_eq!(rt; told.lengths, (4096, 4096));
    assert!(rt; !told.is_lent_twice);
    assert_eq!(rt; told.while_lent, (1, 0));
    assert_eq!(rt; told.written, (b'a', b'b'));
    assert_eq!(rt; told.after, (0, 1));
    Ok(())
}

#[test]
fn closing_frees_the_blocks_that_were_reserved(rt: HostRuntime) -> Result<(), Fail> {
    let _freed = close_three(rt.alloc())?;
    Ok(())
}
