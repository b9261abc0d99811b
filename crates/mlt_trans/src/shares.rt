//! How much of each pixel has turned, by the lightness of its map.
//!
//! It is worked out once for each of the 256 lightnesses.

ghost use Rattle.std.specs.Prelude.{◌≡◌, ◌≤◌};
ghost use Rattle.mlt_tree.specs.Merges.{reached_at, edge, turned};
ghost use Rattle.mlt_tree.specs.Ranges.{IsMergeStep};
ghost use Rattle.mlt_trans.specs.Ready.{HasShares};

use mlt_base::Q16;
use mlt_tree::MergeStep;
use std::marker::Model;

/// The whole of a pixel.
pub(crate) const WHOLE: u32 = 65536;

/// How much has turned of a pixel of each lightness, seen as how wide the edge is and how far it has come.
#[derive(Drop)]
pub struct Shares {
    softness: Q16,
    q: Q16,
    each: [u32; 256],
}

impl Model for Shares {
    ghost use Rattle.mlt_trans.specs.Shares.{Edge, AreShares};

    ghost Value = { Edge };

    ghost view = { λ s. record { softness = s.softness.0; q = s.q.0 } };

    ghost invariant = { λ s. AreShares s.softness.0 s.q.0 s.each };
}

impl Shares {
    /// The shares of an edge that is as wide as `softness` and has come as far as `q`; both are at most 65536.
    pub fn of(softness: Q16, q: Q16) -> Shares
        requires softness { softness.0 ≤ 65536 }
        requires share { q.0 ≤ 65536 }
        ensures { result ≡ record { softness = softness.0; q = q.0 } }
    {
        let come = edge(softness.0, q.0);
        let mut each = [0; 256];
        for lightness in 0..256 {
            let at = lightness as u32 * 65536 / 255;
            each[lightness] = turned(softness.0, come, at);
        }
        Shares { softness, q, each }
    }

    /// The shares that a merge needs at one position; where it takes no map, those of an edge that hasn't started.
    pub fn of_step(step: &MergeStep) -> Shares
        requires { IsMergeStep step.now }
        ensures { HasShares step.now result }
    {
        match step {
            MergeStep::Luma {
                map: Some(_),
                softness,
                q,
            } => Shares::of(*softness, *q),
            _ => Shares::of(Q16(0), Q16(0)),
        }
    }

    /// How much has turned of a pixel of a lightness.
    #[inline(always)]
    pub fn at(&self, lightness: u8) -> u32
        ensures value { result ≡ turned self.now.softness (edge self.now.softness self.now.q) (reached_at lightness) }
        ensures most { result ≤ 65536 }
    {
        self.each[lightness as usize]
    }
}

/// How far the edge has come, which goes on by its softness.
fn edge(softness: u32, q: u32) -> u32
    requires softness { softness ≤ 65536 }
    requires share { q ≤ 65536 }
    ensures value { result ≡ edge softness q }
    ensures most { result ≤ 131072 }
{
    (u64::from(q) * u64::from(65536 + softness) / 65536) as u32
}

/// How much of a pixel has turned that the edge reaches at a place.
fn turned(softness: u32, edge: u32, at: u32) -> u32
    ensures value { result ≡ turned softness edge at }
    ensures most { result ≤ 65536 }
{
    if edge <= at {
        0
    } else {
        let past = edge - at;
        if softness <= past {
            WHOLE
        } else {
            (u64::from(past) * 65536 / u64::from(softness)) as u32
        }
    }
}
