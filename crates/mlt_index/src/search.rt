//! The search for a position among the ends, by halving.
//!
//! The search sees no end: it can only ask whether a position stands before one, and each question is
//! counted. So how few questions it asks is how few ends it looks at.

ghost use Rattle.std.specs.Prelude.{◌≡◌, ℕ, ◌+◌, ◌≤◌, ◌<◌, ◌^◌, List, ◌∷◌, length, nat_lt, slice_index};
ghost use Rattle.mlt_index.specs.Digits.{binary_digits};

use mlt_base::Steps;

/// Ends that can be asked about, one question at a time.
pub(crate) trait Ends {
    // Where each entry ends.
    ghost ends: { Self → List ℕ };

    // How many questions were asked.
    ghost asked: { Self → ℕ };

    // Which counter the questions are counted with.
    ghost counter: { Self → ℕ };

    /// How many ends there are. It is no question.
    fn count(&self) -> usize
        ensures { result ≡ length (ends self.now) };

    /// Whether a position stands before the end at an index, where the next entry begins. It is one
    /// question.
    fn is_before(&mut self, at: u32, index: usize) -> bool
        requires range { index < length (ends self.old) }
        requires room { asked self.old < 2 ^ 63 }
        ensures answer { result ≡ nat_lt at (slice_index (ends self.old) index) }
        ensures asked { asked self.new ≡ asked self.old + 1 }
        ensures same { ends self.new ≡ ends self.old }
        ensures counter { counter self.new ≡ counter self.old };
}

/// Ends, and the counter of the caller, with which each question about them is counted as a step.
#[derive(Drop)]
pub(crate) struct Counted<'a> {
    pub ends: &'a [u32],
    pub steps: &'a mut Steps,
}

impl<'a> Ends for Counted<'a> {
    ghost ends = { λ counted. counted.ends.now };

    ghost asked = { λ counted. counted.steps.now };

    ghost counter = { λ counted. counted.steps.ghost_name };

    fn count(&self) -> usize {
        self.ends.len()
    }

    fn is_before(&mut self, at: u32, index: usize) -> bool {
        self.steps.tick();
        at < self.ends[index]
    }
}

/// The index of the entry that a position falls into, or the count where it falls into none.
pub(crate) fn index_of<E: Ends>(ends: &mut E, at: u32) -> usize
    requires { E.asked ends.old < 2 ^ 62 }
    ensures within { result ≤ length (E.ends ends.old) }
    ensures reached { slice_index (0 ∷ E.ends ends.old) result ≤ at }
    ensures before { result < length (E.ends ends.old) → at < slice_index (E.ends ends.old) result }
    ensures counted { E.asked ends.old ≤ E.asked ends.new }
    ensures few { E.asked ends.new ≤ E.asked ends.old + binary_digits (length (E.ends ends.old)) }
    ensures least { E.asked ends.old + binary_digits (length (E.ends ends.old)) ≤ E.asked ends.new + 1 }
    ensures same { E.ends ends.new ≡ E.ends ends.old }
    ensures counter { E.counter ends.new ≡ E.counter ends.old }
{
    let mut low = 0;
    let mut high = ends.count();
    while low < high {
        let middle = low + (high - low) / 2;
        if ends.is_before(at, middle) {
            high = middle;
        } else {
            low = middle + 1;
        }
    }
    low
}
