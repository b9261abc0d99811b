//! Filters: what changes a picture or a sound by itself.

ghost use Rattle.std.specs.Prelude.{◌≡◌, IfOk};
ghost use Rattle.mlt_tree.specs.Acting.{filter_step};
ghost use Rattle.mlt_tree.specs.Ranges.{IsFilter, IsFilterStep};

use mlt_base::{Animation, Q16};
use std::alloc::AllocError;

/// A filter as it is asked for, with one variant for each filter that a word may name.
///
/// The filters from `Brightness` to `SwapChannels` are of pictures, and the others of sound; a filter
/// leaves the other medium as it is. The numbers of a filter that a value holds are in the ranges given
/// here, and each call that is handed one asks for it (`IsFilter` in `specs/Ranges`).
#[derive(Drop)]
pub enum FilterSpec {
    /// Multiplies red, green and blue. `level` changes with the frame and is 0 or more, 1 by default.
    Brightness {
        level: Animation,
    },
    /// Leaves only the lightness of a pixel.
    Greyscale,
    /// Turns each of red, green and blue around.
    Invert,
    /// Exchanges left and right, or top and bottom where `vertical`; left and right by default.
    Mirror {
        vertical: bool,
    },
    /// Clears so many pixels from each edge, each 0 to 4096 and 0 by default.
    Crop {
        left: u32,
        right: u32,
        top: u32,
        bottom: u32,
    },
    /// White where a pixel is at least so light, black elsewhere; `midpoint` is 0 to 255, 128 by default.
    Threshold {
        midpoint: u32,
    },
    /// Brown shades.
    Sepia,
    /// Squares of one pixel each, `size` pixels wide, 1 to 4096 and 8 by default.
    Obscure {
        size: u32,
    },
    /// Multiplies alpha. `level` is as that of brightness.
    Opacity {
        level: Animation,
    },
    /// The channels that the new red, green, blue and alpha are taken from, each 0 to 3 for red, green,
    /// blue and alpha; 2, 1, 0, 3 by default.
    SwapChannels {
        order: [u8; 4],
    },
    /// Multiplies samples. `level` is as that of brightness.
    Volume {
        level: Animation,
    },
    /// Both channels become their mean.
    Mono,
    /// Copies the channel `from` to the channel `to`, each 0 or 1; 0 to 1 by default.
    ChannelCopy {
        from: u32,
        to: u32,
    },
    /// Exchanges the two channels.
    ChannelSwap,
    /// Clears all samples.
    Silence,
}

impl FilterSpec {
    /// A copy, with its own memory.
    pub fn copy(&self) -> Result<FilterSpec, AllocError>
        ensures { IfOk result (λ spec. spec ≡ self.now) }
    {
        Ok(match self {
            FilterSpec::Brightness { level } => FilterSpec::Brightness {
                level: level.copy()?,
            },
            FilterSpec::Greyscale => FilterSpec::Greyscale,
            FilterSpec::Invert => FilterSpec::Invert,
            FilterSpec::Mirror { vertical } => FilterSpec::Mirror {
                vertical: *vertical,
            },
            FilterSpec::Crop {
                left,
                right,
                top,
                bottom,
            } => FilterSpec::Crop {
                left: *left,
                right: *right,
                top: *top,
                bottom: *bottom,
            },
            FilterSpec::Threshold { midpoint } => FilterSpec::Threshold {
                midpoint: *midpoint,
            },
            FilterSpec::Sepia => FilterSpec::Sepia,
            FilterSpec::Obscure { size } => FilterSpec::Obscure { size: *size },
            FilterSpec::Opacity { level } => FilterSpec::Opacity {
                level: level.copy()?,
            },
            FilterSpec::SwapChannels { order } => FilterSpec::SwapChannels { order: *order },
            FilterSpec::Volume { level } => FilterSpec::Volume {
                level: level.copy()?,
            },
            FilterSpec::Mono => FilterSpec::Mono,
            FilterSpec::ChannelCopy { from, to } => FilterSpec::ChannelCopy {
                from: *from,
                to: *to,
            },
            FilterSpec::ChannelSwap => FilterSpec::ChannelSwap,
            FilterSpec::Silence => FilterSpec::Silence,
        })
    }

    /// The filter where `p` frames of its span have passed, its animations read there.
    pub fn step(&self, p: u32) -> FilterStep
        ensures value { result ≡ filter_step self.now p }
        ensures range { IsFilter self.now → IsFilterStep result }
    {
        match self {
            FilterSpec::Brightness { level } => FilterStep::Brightness { level: level.at(p) },
            FilterSpec::Greyscale => FilterStep::Greyscale,
            FilterSpec::Invert => FilterStep::Invert,
            FilterSpec::Mirror { vertical } => FilterStep::Mirror {
                vertical: *vertical,
            },
            FilterSpec::Crop {
                left,
                right,
                top,
                bottom,
            } => FilterStep::Crop {
                left: *left,
                right: *right,
                top: *top,
                bottom: *bottom,
            },
            FilterSpec::Threshold { midpoint } => FilterStep::Threshold {
                midpoint: *midpoint,
            },
            FilterSpec::Sepia => FilterStep::Sepia,
            FilterSpec::Obscure { size } => FilterStep::Obscure { size: *size },
            FilterSpec::Opacity { level } => FilterStep::Opacity { level: level.at(p) },
            FilterSpec::SwapChannels { order } => FilterStep::SwapChannels { order: *order },
            FilterSpec::Volume { level } => FilterStep::Volume { level: level.at(p) },
            FilterSpec::Mono => FilterStep::Mono,
            FilterSpec::ChannelCopy { from, to } => FilterStep::ChannelCopy {
                from: *from,
                to: *to,
            },
            FilterSpec::ChannelSwap => FilterStep::ChannelSwap,
            FilterSpec::Silence => FilterStep::Silence,
        }
    }
}

/// A filter at one position, its animations read there. The numbers are in the ranges of [`FilterSpec`].
#[derive(Clone, Copy, Debug, PartialEq, Eq)]
pub enum FilterStep {
    Brightness {
        level: Q16,
    },
    Greyscale,
    Invert,
    Mirror {
        vertical: bool,
    },
    Crop {
        left: u32,
        right: u32,
        top: u32,
        bottom: u32,
    },
    Threshold {
        midpoint: u32,
    },
    Sepia,
    Obscure {
        size: u32,
    },
    Opacity {
        level: Q16,
    },
    SwapChannels {
        order: [u8; 4],
    },
    Volume {
        level: Q16,
    },
    Mono,
    ChannelCopy {
        from: u32,
        to: u32,
    },
    ChannelSwap,
    Silence,
}
