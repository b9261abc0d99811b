//! What is played, and where it goes.

ghost use Rattle.std.specs.Prelude.{◌≡◌, ℕ, ◌+◌, ◌-◌, ◌≤◌, ◌<◌, ◌^◌};
ghost use Rattle.mlt_base.specs.ProfileView.{measures_of};
ghost use Rattle.mlt_base.specs.declared.limits.TheConstants.{MOST_WRITTEN};
ghost use Rattle.mlt_tree.specs.declared.services.TheConstants as row;
ghost use Rattle.mlt_tree.specs.Sealing.{pairs_of, unit_of};
ghost use Rattle.mlt_tree.specs.Tree.{len};
ghost use Rattle.mlt_graph.specs.Sealed.{tree};

use crate::sealed::Sealed;
use mlt_base::{Pos, Profile, Text};

/// How the pixels of a picture are written.
#[derive(Clone, Copy, Debug, PartialEq, Eq)]
pub enum Pix {
    /// Laid over black, three bytes a pixel.
    Rgb,
    /// As they are, four bytes a pixel.
    Rgba,
}

impl Pix {
    ghost use Rattle.mlt_graph.specs.Piece.{pixel_bytes};

    /// The bytes of a pixel.
    fn bytes(self) -> u32
        ensures value { result ≡ pixel_bytes self }
        ensures some { 1 ≤ result }
        ensures most { result ≤ 4 }
    {
        match self {
            Pix::Rgb => 3,
            Pix::Rgba => 4,
        }
    }
}

/// How a sample of sound is written.
#[derive(Clone, Copy, Debug, PartialEq, Eq)]
pub enum Format {
    /// In two bytes.
    S16,
    /// In four bytes.
    S32,
}

impl Format {
    ghost use Rattle.mlt_graph.specs.Piece.{sample_bytes};

    /// The bytes of a sample.
    fn bytes(self) -> u32
        ensures value { result ≡ sample_bytes self }
        ensures most { result ≤ 4 }
    {
        match self {
            Format::S16 => 2,
            Format::S32 => 4,
        }
    }
}

/// Where the frames go, which of them, and by how many hands.
#[derive(Drop)]
pub struct Output {
    /// Where the pictures go.
    pub video: Text,
    /// Where the sound goes, if anywhere.
    pub audio: Option<Text>,
    pub pix: Pix,
    pub first: Pos,
    pub last: Pos,
    /// Hands that render besides the one that writes, 0 to 16.
    pub workers: u32,
    /// Frames that may be in work or waiting to be written, 1 to 64.
    pub buffer: u32,
    /// Bands that a frame is worked out in, 1 to 16.
    pub slices: u32,
    /// Fitted pictures that are kept, 0 to 64.
    pub cache: u32,
    /// Channels of the sound, 1 to 8.
    pub channels: u32,
    pub format: Format,
    pub ghost ordered: { first.0 ≤ last.0 },
    pub ghost few: { last.0 + 1 - first.0 ≤ MOST_WRITTEN },
    pub ghost workers_at_most: { workers ≤ row.REAL_TIME.high },
    pub ghost buffer_at_least_one: { row.BUFFER.low ≤ buffer },
    pub ghost buffer_at_most: { buffer ≤ row.BUFFER.high },
    pub ghost slices_at_least_one: { row.SLICES.low ≤ slices },
    pub ghost slices_at_most: { slices ≤ row.SLICES.high },
    pub ghost cache_at_most: { cache ≤ row.CACHE.high },
    pub ghost channels_at_least_one: { 1 ≤ channels },
    pub ghost channels_at_most: { channels ≤ 8 },
}

impl Output {
    ghost use Rattle.mlt_graph.specs.Piece.{piece_of};

    /// The length in bytes of the output buffer of a frame: its picture, 3 bytes a pixel or 4 with
    /// `Rgba`, and the most groups of samples that it can have, 2 bytes a sample or 4 with `S32`.
    pub fn piece(&self, profile: &Profile) -> u32
        ensures value { result ≡ piece_of self.now profile.now }
        ensures some { 1 ≤ result }
        ensures most { result ≤ 2 ^ 28 }
    {
        let picture = profile.width * profile.height * self.pix.bytes();
        let sound = profile.most_samples() * self.channels * self.format.bytes();
        picture + sound
    }
}

/// How many pairs so many channels are, 8 at most; the last pair may have one.
pub fn pairs_of(channels: u32) -> u32
    requires { channels ≤ 8 }
    ensures value { result ≡ pairs_of channels }
    ensures most { result ≤ 4 }
{
    (channels + 1) / 2
}

/// The bytes of one picture, 4 bytes a pixel, or of so many pairs of channels in a frame's sound, 4 bytes for a
/// sample of each, whichever is more. There are 4 pairs at most.
pub fn unit_of(profile: &Profile, pairs: u32) -> u32
    requires { pairs ≤ 4 }
    ensures value { result ≡ unit_of (measures_of profile.now) pairs }
    ensures most { result ≤ 2 ^ 28 }
{
    let picture = profile.width * profile.height * 4;
    let sound = 4 * pairs * profile.most_samples();
    picture.max(sound)
}

/// What is played: frames of a size and rate, a composition, and where they go.
#[derive(Drop)]
pub struct Show {
    pub sealed: Sealed,
    pub profile: Profile,
    pub output: Output,
    pub ghost within: { output.last.0 < len (tree sealed) },
}
