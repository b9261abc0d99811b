//! How many groups of samples belong to the frames of a profile, at 48,000 groups a second.

ghost use Rattle.std.specs.Prelude.{◌≡◌, ℕ, ◌+◌, ◌^◌, ◌-◌, ◌*◌, ◌/◌, ◌<◌, ◌≤◌};
ghost use Rattle.mlt_base.specs.Samples.{samples_to, samples, most_samples};

use crate::profile::{Profile, Rate};

/// The groups of samples before frame n.
fn groups_to(rate: Rate, n: u32) -> u64
    ensures value { result ≡ samples_to rate.num rate.den n }
    ensures bound { result ≤ 48000 * n }
{
    let num = u64::from(rate.num);
    let groups = 48000 * u64::from(rate.den);
    let n = u64::from(n);
    n * (groups / num) + n * (groups % num) / num
}

/// The most groups of samples that one frame has.
fn most_groups(rate: Rate) -> u32
    ensures value { result ≡ most_samples rate.num rate.den }
    ensures bound { result ≤ 48000 }
{
    let num = u64::from(rate.num);
    ((48000 * u64::from(rate.den) + num - 1) / num) as u32
}

impl Profile {
    /// The groups of samples before frame n: `n*48000*den/num`, rounded down.
    pub fn samples_to(&self, n: u32) -> u64
        ensures value { result ≡ samples_to self.now.rate.num self.now.rate.den n }
        ensures bound { result ≤ 48000 * n }
    {
        groups_to(self.rate, n)
    }

    /// The groups of samples of frame n.
    pub fn samples(&self, n: u32) -> u32
        requires { n < 2 ^ 31 }
        ensures value { result ≡ samples self.now.rate.num self.now.rate.den n }
        ensures most { result ≤ most_samples self.now.rate.num self.now.rate.den }
    {
        (groups_to(self.rate, n + 1) - groups_to(self.rate, n)) as u32
    }

    /// The most groups of samples that a frame can have: `48000*den/num`, rounded up.
    pub fn most_samples(&self) -> u32
        ensures value { result ≡ most_samples self.now.rate.num self.now.rate.den }
        ensures most { (n : ℕ) → samples self.now.rate.num self.now.rate.den n ≤ result }
        ensures range { result ≤ 48000 }
    {
        most_groups(self.rate)
    }
}
