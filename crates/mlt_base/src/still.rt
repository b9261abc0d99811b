//! Pictures that stand still.

ghost use Rattle.std.specs.Prelude.{◌≡◌, ◌*◌, ◌≤◌, length, replicate, IfOk};
ghost use Rattle.std.specs.Borrow.{sem};
ghost use Rattle.mlt_base.specs.StillLends.{LendsPixels};
ghost use Rattle.mlt_base.specs.declared.limits.TheConstants.{MOST_PIXELS};

use std::alloc::{AllocError, Global};
use std::marker::Model;

/// A picture of 1 to 4096 pixels each way, which contracts see as its measures and its bytes.
///
/// There are four bytes a pixel, which are red, green, blue and straight alpha, in rows from the top.
#[derive(Drop)]
pub struct Still {
    width: u32,
    height: u32,
    pixels: Vec<u8>,
}

impl Model for Still {
    ghost use Rattle.mlt_base.specs.Still.{Picture, IsPicture};

    ghost Value = { Picture };

    ghost view = { λ s. record { width = s.width; height = s.height; pixels = s.pixels.items } };

    ghost invariant = { λ s. IsPicture (record { width = s.width; height = s.height; pixels = s.pixels.items }) };
}

impl Still {
    /// A picture on which nothing is drawn: transparent black. Width and height are in pixels.
    pub fn new(alloc: Global, width: u32, height: u32) -> Result<Still, AllocError>
        requires width_from { 1 ≤ width }
        requires width_to { width ≤ MOST_PIXELS }
        requires height_from { 1 ≤ height }
        requires height_to { height ≤ MOST_PIXELS }
        ensures { IfOk result (λ still. still ≡ record { width = width; height = height; pixels = replicate (width * height * 4) 0 }) }
    {
        let bytes = width as usize * height as usize * 4;
        Ok(Still {
            width,
            height,
            pixels: vec![in alloc; 0; bytes]?,
        })
    }

    /// The picture of these bytes, without a copy. Width and height are in pixels.
    pub fn from_pixels(width: u32, height: u32, pixels: Vec<u8>) -> Still
        requires width_from { 1 ≤ width }
        requires width_to { width ≤ MOST_PIXELS }
        requires height_from { 1 ≤ height }
        requires height_to { height ≤ MOST_PIXELS }
        requires sized { length pixels.items ≡ width * height * 4 }
        ensures { result ≡ record { width = width; height = height; pixels = pixels.items } }
    {
        Still {
            width,
            height,
            pixels,
        }
    }

    /// Pixels in a row.
    pub fn width(&self) -> u32
        ensures value { result ≡ self.now.width }
        ensures least { 1 ≤ result }
        ensures most { result ≤ MOST_PIXELS }
    {
        self.width
    }

    /// Rows.
    pub fn height(&self) -> u32
        ensures value { result ≡ self.now.height }
        ensures least { 1 ≤ result }
        ensures most { result ≤ MOST_PIXELS }
    {
        self.height
    }

    /// The bytes of all pixels, rows from the top.
    pub fn pixels(&self) -> &[u8]
        ensures value { result.now ≡ self.now.pixels }
        ensures sized { length result.now ≡ self.now.width * self.now.height * 4 }
    {
        self.pixels.as_slice()
    }

    /// The bytes of all pixels, to write to.
    pub fn pixels_mut(&mut self) -> &mut [u8]
        ensures* writes_back { sem 𝓛 (LendsPixels self.entry result) }
        ensures value { result.now ≡ self.old.pixels }
    {
        self.pixels.as_mut_slice()
    }
}
