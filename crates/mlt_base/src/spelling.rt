//! Profiles from their names or from their numbers.

ghost use Rattle.std.specs.Prelude.{◌≡◌, Option};
ghost use Rattle.std.specs.Option.{option_map};
ghost use Rattle.mlt_base.specs.Profile.{within, field, pair, spelled, profile_from, profile};
ghost use Rattle.mlt_base.specs.ProfileView.{measures_of};

use crate::limits::{MOST_OF_RATE, MOST_PIXELS, MOST_RATE};
use crate::profile::{Profile, Rate};
use crate::reading::{digit_count, number, split_once};
use crate::table::{NamedProfile, PROFILES, row_named};

/// The profile of these numbers, where they are within the limits.
#[tactic(auto, unfolding(crate::specs::Profile::within))]
fn within(width: u32, height: u32, num: u32, den: u32) -> Option<Profile>
    ensures { option_map measures_of result ≡ within (record { width = width; height = height; num = num; den = den }) }
{
    let has_size = 1 <= width && width <= MOST_PIXELS && 1 <= height && height <= MOST_PIXELS;
    if has_size && 1 <= den && num <= MOST_OF_RATE && den <= num && num <= MOST_RATE * den {
        Some(Profile {
            width,
            height,
            rate: Rate { num, den },
        })
    } else {
        None
    }
}

/// Digits alone, of a number up to a limit.
#[tactic(auto, unfolding(crate::specs::Profile::field))]
fn field(limit: u32, text: &[u8]) -> Option<u32>
    ensures { result ≡ field limit text.now }
{
    let n = number(text);
    if digit_count(text) == text.len() && n <= u64::from(limit) {
        Some(n as u32)
    } else {
        None
    }
}

/// Two fields with a mark between them.
#[tactic(auto, unfolding(crate::specs::Profile::pair))]
fn pair(mark: u8, limit: u32, text: &[u8]) -> Option<(u32, u32)>
    ensures { result ≡ pair mark limit text.now }
{
    let (first, second) = split_once(mark, text)?;
    Some((field(limit, first)?, field(limit, second)?))
}

/// The profile that `WxH@num/den` spells.
#[tactic(auto, unfolding(crate::specs::Profile::spelled))]
fn spelled(text: &[u8]) -> Option<Profile>
    ensures { option_map measures_of result ≡ spelled text.now }
{
    let (size, rate) = split_once(b'@', text)?;
    let (width, height) = pair(b'x', MOST_PIXELS, size)?;
    let (num, den) = pair(b'/', MOST_OF_RATE, rate)?;
    within(width, height, num, den)
}

/// The profile of a row, or the one that the text spells.
fn profile_from(text: &[u8], row: Option<NamedProfile>) -> Option<Profile>
    ensures { option_map measures_of result ≡ profile_from text.now row }
{
    match row {
        Some(row) => within(row.width, row.height, row.num, row.den),
        None => spelled(text),
    }
}

impl Profile {
    /// Reads a profile: a name of [`PROFILES`], or `WxH@num/den` in digits.
    ///
    /// `None` comes where the text is neither, or where a number is out of its limits: width and
    /// height are 1 to 4096, num and den 1 to 100,000, and the rate is 1 to 1000.
    #[tactic(auto, unfolding(crate::specs::Profile::profile))]
    pub fn read(text: &str) -> Option<Profile>
        ensures { option_map measures_of result ≡ profile text.now }
    {
        let bytes = text.as_bytes();
        profile_from(bytes, row_named(&PROFILES, bytes))
    }
}
