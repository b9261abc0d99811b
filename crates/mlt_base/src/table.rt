//! The profiles that have names.

ghost use Rattle.std.specs.Prelude.{◌≡◌, Option};
ghost use Rattle.std.specs.List.{find};
ghost use Rattle.mlt_base.specs.Profile.{is_named};

use crate::name::Name;

/// A profile with a name.
#[derive(Clone, Copy)]
pub struct NamedProfile {
    pub name: Name,
    pub width: u32,
    pub height: u32,
    pub num: u32,
    pub den: u32,
}

/// PAL, the profile where none is named.
pub const DV_PAL: NamedProfile = NamedProfile {
    name: Name(*b"dv_pal       "),
    width: 720,
    height: 576,
    num: 25,
    den: 1,
};

/// NTSC.
pub const DV_NTSC: NamedProfile = NamedProfile {
    name: Name(*b"dv_ntsc      "),
    width: 720,
    height: 480,
    num: 30000,
    den: 1001,
};

/// High definition, 720 rows.
pub const ATSC_720P: NamedProfile = NamedProfile {
    name: Name(*b"atsc_720p_25 "),
    width: 1280,
    height: 720,
    num: 25,
    den: 1,
};

/// High definition, 1080 rows.
pub const ATSC_1080P: NamedProfile = NamedProfile {
    name: Name(*b"atsc_1080p_25"),
    width: 1920,
    height: 1080,
    num: 25,
    den: 1,
};

/// The profiles that have names, in the order in which they are listed.
pub const PROFILES: [NamedProfile; 4] = [DV_PAL, DV_NTSC, ATSC_720P, ATSC_1080P];

/// The row of a name.
pub(crate) fn row_named(rows: &[NamedProfile], name: &[u8]) -> Option<NamedProfile>
    ensures { result ≡ find (is_named name.now) rows.now }
{
    for row in rows {
        if row.name.as_bytes() == name {
            return Some(*row);
        }
    }
    None
}
