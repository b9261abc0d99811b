//! Owned values, and where they go when their property ends.

ghost use Rattle.std.specs.Prelude.{◌≡◌, ℕ, ◌+◌, ◌<◌, List, [], ◌∷◌, ◌++◌};

/// A value that a property can own.
///
/// It need not be `Drop`: it leaves a bag only by being handed out or put into a [`Bin`].
pub trait Ends {}

/// Where owned values go when their property ends: the list of those that have ended, with a number of
/// free places.
pub trait Bin<D> {
    // The values that have been put in, the first one first.
    ghost ended: { Self → List D };

    // How many more can be put in.
    ghost free: { Self → ℕ };

    /// Puts a value in, behind the others. It uses up a free place.
    fn put(&mut self, value: D)
        requires { 0 < free self.old }
        ensures ended { ended self.new ≡ ended self.old ++ value ∷ [] }
        ensures free { free self.new + 1 ≡ free self.old };
}
