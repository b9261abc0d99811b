//! Colours, and the texts that name them.

ghost use Rattle.std.specs.Prelude.{◌≡◌, ◌<◌, IfSome};
ghost use Rattle.std.specs.Option.{option_map};
ghost use Rattle.mlt_base.specs.Colour.{hex, hex_byte, rgba, rgb_or_argb, named, colour_of};
ghost use Rattle.mlt_image.specs.View.{pixel};

/// A colour with straight alpha, each channel 0 to 255.
#[derive(Clone, Copy, Debug, PartialEq, Eq)]
pub struct Colour {
    pub r: u8,
    pub g: u8,
    pub b: u8,
    pub a: u8,
}

impl Colour {
    /// The colour that a text names: `0xRRGGBBAA`, `#RRGGBB`, `#AARRGGBB`, black, white, red, green or
    /// blue. Digits are in either case, and alpha is 255 where none is given. None for any other text.
    pub fn read(text: &str) -> Option<Colour>
        ensures { option_map pixel result ≡ colour_of text.now }
    {
        let bytes = text.as_bytes();
        if bytes.starts_with(b"0x") {
            rgba(&bytes[2..])
        } else if bytes.starts_with(b"#") {
            rgb_or_argb(&bytes[1..])
        } else {
            named(text)
        }
    }
}

/// The value of a hexadecimal digit, in either case.
fn hex(c: u8) -> Option<u8>
    ensures value { result ≡ hex c }
    ensures small { IfSome result (λ digit. digit < 16) }
{
    match c {
        b'0'..=b'9' => Some(c - b'0'),
        b'A'..=b'F' => Some(c - 55),
        b'a'..=b'f' => Some(c - 87),
        _ => None,
    }
}

/// The value of two of them.
fn hex_byte(high: u8, low: u8) -> Option<u8>
    ensures { result ≡ hex_byte high low }
{
    let x = hex(high)?;
    let y = hex(low)?;
    Some(x * 16 + y)
}

/// The colour of RRGGBBAA.
fn rgba(text: &[u8]) -> Option<Colour>
    ensures { option_map pixel result ≡ rgba text.now }
{
    match text {
        [r, r2, g, g2, b, b2, a, a2] => {
            let r = hex_byte(*r, *r2)?;
            let g = hex_byte(*g, *g2)?;
            let b = hex_byte(*b, *b2)?;
            let a = hex_byte(*a, *a2)?;
            Some(Colour { r, g, b, a })
        }
        _ => None,
    }
}

/// The colour of RRGGBB, or of AARRGGBB.
fn rgb_or_argb(text: &[u8]) -> Option<Colour>
    ensures { option_map pixel result ≡ rgb_or_argb text.now }
{
    match text {
        [r, r2, g, g2, b, b2] => {
            let r = hex_byte(*r, *r2)?;
            let g = hex_byte(*g, *g2)?;
            let b = hex_byte(*b, *b2)?;
            Some(Colour { r, g, b, a: 255 })
        }
        [a, a2, r, r2, g, g2, b, b2] => {
            let a = hex_byte(*a, *a2)?;
            let r = hex_byte(*r, *r2)?;
            let g = hex_byte(*g, *g2)?;
            let b = hex_byte(*b, *b2)?;
            Some(Colour { r, g, b, a })
        }
        _ => None,
    }
}

/// A colour that hides what lies under it.
const fn opaque(r: u8, g: u8, b: u8) -> Colour
    ensures { result ≡ record { r = r; g = g; b = b; a = 255 } }
{
    Colour { r, g, b, a: 255 }
}

/// The colour of a name.
fn named(text: &str) -> Option<Colour>
    ensures { option_map pixel result ≡ named text.now }
{
    match text {
        "black" => Some(opaque(0, 0, 0)),
        "white" => Some(opaque(255, 255, 255)),
        "red" => Some(opaque(255, 0, 0)),
        "green" => Some(opaque(0, 255, 0)),
        "blue" => Some(opaque(0, 0, 255)),
        _ => None,
    }
}
