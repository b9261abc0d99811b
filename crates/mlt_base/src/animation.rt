//! Values that change from key to key.

ghost use Rattle.std.specs.Prelude.{◌≡◌, ℕ, ◌+◌, ◌^◌, ◌-◌, ◌*◌, ◌/◌, ◌<◌, ◌≤◌, length, Some, None, IfOk};
ghost use Rattle.std.specs.List.{before_first, after_first, slice_split};
ghost use Rattle.mlt_base.specs.Reading.{number, below};
ghost use Rattle.mlt_base.specs.Try.{Gives};
ghost use Rattle.mlt_base.specs.Try.{TryGives};
ghost use Rattle.mlt_base.specs.Animation.{between, value_from, value_at, Rises, key_mark, in_order, key_at, keys_of, is_semicolon, animation, first_key};

use crate::decimal::decimal_at;
use crate::fault::NumFault;
use crate::reading::{digits_at, held, length_before, number};
use crate::refusal::Try;
use crate::value::Q16;
use std::alloc::{AllocError, Global};
use std::marker::Model;

/// The value of an animation at a frame.
///
/// A discrete key holds its value until the next one.
#[derive(Clone, Copy, Debug, PartialEq, Eq)]
pub struct Key {
    pub frame: u32,
    pub value: Q16,
    pub discrete: bool,
}

/// A value that changes from key to key, seen as its keys, of which there is at least one.
#[derive(Drop)]
pub struct Animation {
    first: Key,
    rest: Vec<Key>,
}

impl Model for Animation {
    ghost use Rattle.std.specs.Prelude.{List, ◌∷◌};
    ghost use Rattle.mlt_base.specs.declared.animation.Key.{Key};

    ghost Value = { List Key };

    ghost view = { λ a. a.first ∷ a.rest.items };
}

/// Which mark stands between a key's frame and its value, and what is behind it.
#[tactic(auto, unfolding(crate::specs::Animation::key_mark))]
fn key_mark(at: usize, bytes: &[u8]) -> Result<(bool, usize, &[u8]), NumFault>
    requires { at + length bytes.now < 2 ^ 63 }
    ensures value { Gives (λ x. (x.0, x.1, x.2.now)) result (key_mark at bytes.now) }
    ensures place { IfOk result (λ x. x.1 + length x.2.now ≡ at + length bytes.now) }
{
    match bytes {
        [b'=', rest @ ..] => Ok((false, at + 1, rest)),
        [b'|', b'=', rest @ ..] => Ok((true, at + 2, rest)),
        [b'~', b'=', ..] => Err(NumFault::Smooth(held(at))),
        _ => Err(NumFault::BadDigit(held(at))),
    }
}

/// Whether a part's frame is behind the last one's.
#[tactic(auto, unfolding(crate::specs::Animation::in_order))]
fn in_order(last: Option<u32>, at: usize, frame: u32) -> Result<(), NumFault>
    ensures { Gives (λ x. tt) result (in_order last at frame) }
{
    match last {
        Some(last) if frame <= last => Err(NumFault::Order(held(at))),
        _ => Ok(()),
    }
}

/// A frame from its digits.
#[tactic(auto, unfolding(crate::specs::Reading::below))]
fn frame_of(digits: &[u8]) -> Result<u32, NumFault>
    ensures { result ≡ below (2 ^ 31) (number digits.now) }
{
    let n = number(digits);
    if n < 1 << 31 {
        Ok(n as u32)
    } else {
        Err(NumFault::TooLarge)
    }
}

/// The key of one part.
#[tactic(auto, unfolding(crate::specs::Animation::key_at))]
fn key_at(last: Option<u32>, at: usize, part: &[u8]) -> Result<Key, NumFault>
    requires { at + length part.now < 2 ^ 63 }
    ensures { result ≡ key_at last at part.now }
{
    let (digits, behind, rest) = digits_at(at, part)?;
    let frame = frame_of(digits)?;
    let (discrete, behind, rest) = key_mark(behind, rest)?;
    in_order(last, at, frame)?;
    let value = decimal_at(behind, rest)?;
    Ok(Key {
        frame,
        value,
        discrete,
    })
}

/// The bytes before the first `;`, and those behind it.
fn first_part(bytes: &[u8]) -> (&[u8], &[u8])
    ensures part { result.0.now ≡ before_first is_semicolon bytes.now }
    ensures rest { result.1.now ≡ after_first is_semicolon bytes.now }
    ensures inside { length result.0.now + length result.1.now ≤ length bytes.now }
    ensures shorter { 0 < length bytes.now → length result.1.now < length bytes.now }
    ensures whole { 0 < length result.1.now → length bytes.now ≡ length result.0.now + length result.1.now + 1 }
{
    let (part, rest) = bytes.split_at(length_before(b';', bytes));
    match rest {
        [] => (part, rest),
        [_, rest @ ..] => (part, rest),
    }
}

/// The key of the first of several parts, and the place and the bytes of those behind it.
#[tactic(auto, unfolding(crate::specs::Animation::first_key))]
fn first_key(last: Option<u32>, at: usize, bytes: &[u8]) -> Result<(Key, usize, &[u8]), NumFault>
    requires { at + length bytes.now < 2 ^ 63 }
    ensures value { Gives (λ x. (x.0, x.1, x.2.now)) result (first_key last at bytes.now) }
    ensures place { IfOk result (λ x. 0 < length x.2.now → x.1 + length x.2.now < 2 ^ 63) }
    ensures shorter { IfOk result (λ x. 0 < length bytes.now → length x.2.now < length bytes.now) }
{
    let (part, rest) = first_part(bytes);
    let key = key_at(last, at, part)?;
    Ok((key, at + part.len() + 1, rest))
}

/// The mean of v and w, of which v weighs a and w weighs b, rounded down.
fn mean(v: u32, w: u32, a: u32, b: u32) -> u32
    requires some { 0 < a + b }
    requires few { a + b < 2 ^ 32 }
    ensures { result ≡ (v * a + w * b) / (a + b) }
{
    let total = u64::from(v) * u64::from(a) + u64::from(w) * u64::from(b);
    (total / (u64::from(a) + u64::from(b))) as u32
}

/// The value at a frame from one key to the next.
fn between(a: Key, b: Key, p: u32) -> u32
    requires from { a.frame ≤ p }
    requires to { p < b.frame }
    ensures { result ≡ between a b p }
{
    if a.discrete {
        a.value.0
    } else {
        mean(a.value.0, b.value.0, b.frame - p, p - a.frame)
    }
}

/// The value at a frame that isn't before the key, with the keys behind it.
fn value_from(first: Key, keys: &[Key], p: u32) -> u32
    requires { first.frame ≤ p }
    ensures { result ≡ value_from first keys.now p }
{
    let mut a = first;
    for b in keys {
        let b = *b;
        if p < b.frame {
            return between(a, b, p);
        }
        a = b;
    }
    a.value.0
}

/// The keys of the parts from a place on, of which the first has to be behind the last key's frame.
fn keys_behind(alloc: Global, last: u32, at: usize, bytes: &[u8]) -> Result<Vec<Key>, Try<NumFault>>
    requires { 0 < length bytes.now → at + length bytes.now < 2 ^ 63 }
    ensures { TryGives (λ keys. keys.items) result (keys_of (Some last) at (slice_split is_semicolon bytes.now)) }
{
    let mut keys = Vec::new(alloc);
    let mut last = last;
    let mut at = at;
    let mut rest = bytes;
    while !rest.is_empty() {
        let (key, behind, after) = first_key(Some(last), at, rest)?;
        keys.push(key)?;
        last = key.frame;
        at = behind;
        rest = after;
    }
    Ok(keys)
}

/// The keys of a text with at least one `=`.
fn keyed(alloc: Global, bytes: &[u8]) -> Result<Animation, Try<NumFault>>
    requires short { length bytes.now < 2 ^ 63 }
    requires some { 0 < length bytes.now }
    ensures value { TryGives (λ keys. keys) result (keys_of None 0 (slice_split is_semicolon bytes.now)) }
    ensures some { IfOk result (λ keys. 0 < length keys) }
{
    let (first, at, after) = first_key(None, 0, bytes)?;
    let rest = keys_behind(alloc, first.frame, at, after)?;
    Ok(Animation { first, rest })
}

/// The animation of a text.
#[tactic(auto, unfolding(crate::specs::Animation::animation))]
fn animation_of(alloc: Global, text: &str) -> Result<Animation, Try<NumFault>>
    ensures value { TryGives (λ keys. keys) result (animation text.now) }
    ensures some { IfOk result (λ keys. 0 < length keys) }
{
    let bytes = text.as_bytes();
    if bytes.contains(&b'=') {
        return keyed(alloc, bytes);
    }
    let value = decimal_at(0, bytes)?;
    Ok(Animation {
        first: Key {
            frame: 0,
            value,
            discrete: false,
        },
        rest: Vec::new(alloc),
    })
}

impl Animation {
    /// Reads an animation.
    ///
    /// A text without `=` is one decimal for all frames. Any other text is parts divided by `;`, each
    /// `frame=value` or, where the value holds until the next key, `frame|=value`; an empty last part
    /// is skipped. The first fault comes part by part: `BadDigit` where a frame or a mark should
    /// stand, `TooLarge` for a frame of 2^31 or more, `Smooth` at a mark `~=`, `Order` at a part whose
    /// frame isn't behind the one before, and then the faults of a decimal.
    pub fn read(alloc: Global, text: &str) -> Result<Animation, Try<NumFault>>
        ensures value { TryGives (λ keys. keys) result (animation text.now) }
        ensures some { IfOk result (λ keys. 0 < length keys) }
        ensures rising { IfOk result (λ keys. Rises None keys) }
    {
        animation_of(alloc, text)
    }

    /// The value at frame p: the first value before the first key, the last value from the last key
    /// on, and between two keys the value on the line between them, rounded down, or the first one's
    /// where it is discrete.
    pub fn at(&self, p: u32) -> Q16
        ensures { result.0 ≡ value_at self.now p }
    {
        if p < self.first.frame {
            return self.first.value;
        }
        Q16(value_from(self.first, &self.rest, p))
    }

    /// A copy, with its own memory.
    pub fn copy(&self) -> Result<Animation, AllocError>
        ensures { IfOk result (λ keys. keys ≡ self.now) }
    {
        let rest = Vec::from_slice(*self.rest.allocator(), self.rest.as_slice())?;
        Ok(Animation {
            first: self.first,
            rest,
        })
    }
}
