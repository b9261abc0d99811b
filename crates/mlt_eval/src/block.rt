//! A picture in the first bytes of one block.

ghost use Rattle.std.specs.Prelude.{◌≡◌, ◌*◌, ◌<◌, ◌≤◌, true, length, take, slice_get, Some, IfSome, All, option_copied, option_map, unwrap_or};
ghost use Rattle.mlt_base.specs.Picture.{clear};
ghost use Rattle.mlt_base.specs.ProfileView.{measures_of};
ghost use Rattle.mlt_eval.specs.Fitted.{is_fitted};
ghost use Rattle.mlt_eval.specs.Registers.{held, IsThere};
ghost use Rattle.mlt_trans.specs.Maps.{IsMap};
ghost use Rattle.mlt_tree.specs.Filters.{picture_filter};
ghost use Rattle.mlt_tree.specs.Merges.{map_of, picture_merge};
ghost use Rattle.mlt_tree.specs.Ranges.{IsFilterStep, IsMergeStep};
ghost use Rattle.mlt_tree.specs.Show.{pixels_of, picture_of, AreFitted};
ghost use Rattle.mlt_vfilter.specs.Neutral.{is_neutral};

use crate::register::Register;
use crate::scene::{Scene, fitted_bytes};
use mlt_base::{Profile, SourceNo};
use mlt_pool::Lease;
use mlt_slice::Bands;
use mlt_source::SourceTable;
use mlt_trans::{KeptColumns, merge_again, merge_from};
use mlt_tree::{FilterStep, MergeStep};
use mlt_vfilter::{apply, apply_from, leaves};

/// Writes the picture of a source to the first bytes.
fn load_bytes(table: &SourceTable, profile: &Profile, bytes: &mut [u8], no: SourceNo)
    requires there { no.0 < length table.now }
    requires room { pixels_of (measures_of profile.now) * 4 ≤ length bytes.old }
    ensures { take (pixels_of (measures_of profile.now) * 4) bytes.new ≡ picture_of (measures_of profile.now) (slice_get table.now no.0) }
{
    let count = fitted_bytes(profile);
    table.load_into(no, &mut bytes[..count], profile);
}

/// Writes the picture of a source to a block.
fn load_block(table: &SourceTable, profile: &Profile, block: &mut Lease, no: SourceNo)
    requires there { no.0 < length table.now }
    requires room { pixels_of (measures_of profile.now) * 4 ≤ length block.old }
    ensures picture { take (pixels_of (measures_of profile.now) * 4) block.new ≡ picture_of (measures_of profile.now) (slice_get table.now no.0) }
    ensures long { length block.new ≡ length block.old }
{
    load_bytes(table, profile, block.bytes_mut(), no);
}

/// Brings the picture of a source about, and answers where it stands: it is fitted into a block where no fitted one
/// is there.
pub(crate) fn find_or_load(scene: &Scene<'_>, block: &mut Lease, no: SourceNo) -> Register
    requires fitted { AreFitted (measures_of scene.now.profile.now) scene.now.table.now scene.now.fitted.now.fits }
    requires room { pixels_of (measures_of scene.now.profile.now) * 4 ≤ length block.old }
    requires source { no.0 < length scene.now.table.now }
    ensures there { IsThere (length scene.now.fitted.now.fits) result }
    ensures picture { held (pixels_of (measures_of scene.now.profile.now) * 4) scene.now.fitted.now.fits block.new result
        ≡ Some (picture_of (measures_of scene.now.profile.now) (slice_get scene.now.table.now no.0)) }
    ensures long { length block.new ≡ length block.old }
    ensures still { is_fitted scene.now.fitted.now.fits no.0 ≡ true → block.new ≡ block.old }
{
    match scene.fitted.find(no) {
        Some(place) => Register::Lent(place),
        None => {
            load_block(scene.table, scene.profile, block, no);
            Register::Owned
        }
    }
}

/// The picture that a register has: a fitted one, or that in the first bytes of its block.
pub(crate) fn lent<'a>(scene: &'a Scene<'_>, block: &'a Lease, state: Register) -> Option<&'a [u8]>
    requires fitted { AreFitted (measures_of scene.now.profile.now) scene.now.table.now scene.now.fitted.now.fits }
    requires there { IsThere (length scene.now.fitted.now.fits) state }
    requires room { pixels_of (measures_of scene.now.profile.now) * 4 ≤ length block.now }
    ensures value { option_copied result ≡ held (pixels_of (measures_of scene.now.profile.now) * 4) scene.now.fitted.now.fits block.now state }
    ensures sized { IfSome (option_copied result) (λ picture. length picture ≡ pixels_of (measures_of scene.now.profile.now) * 4) }
{
    match state {
        Register::Nothing => None,
        Register::Lent(place) => Some(scene.fitted.pixels(place)),
        Register::Owned => {
            let count = fitted_bytes(scene.profile);
            Some(&block.bytes()[..count])
        }
    }
}

/// Whether a filter leaves what a register has, if it has something.
pub(crate) fn stays(scene: &Scene<'_>, block: &Lease, state: Register, step: &FilterStep) -> bool
    requires fitted { AreFitted (measures_of scene.now.profile.now) scene.now.table.now scene.now.fitted.now.fits }
    requires there { IsThere (length scene.now.fitted.now.fits) state }
    requires room { pixels_of (measures_of scene.now.profile.now) * 4 ≤ length block.now }
    ensures same { let old = held (pixels_of (measures_of scene.now.profile.now) * 4) scene.now.fitted.now.fits block.now state in
        result ≡ true → option_map (picture_filter step.now scene.now.profile.now.width) old ≡ old }
    ensures neutral { is_neutral step.now ≡ true → result ≡ true }
{
    match lent(scene, block, state) {
        None => true,
        Some(picture) => leaves(step, picture, scene.profile.width),
    }
}

/// Filters a picture of a frame's size.
fn filter_picture<B: Bands>(profile: &Profile, bands: &B, picture: &mut [u8], step: &FilterStep)
    requires range { IsFilterStep step.now }
    requires sized { length picture.old ≡ pixels_of (measures_of profile.now) * 4 }
    ensures { picture.new ≡ picture_filter step.now profile.now.width picture.old }
{
    apply(step, picture, profile.width, bands);
}

/// Filters the picture in the first bytes.
fn filter_own<B: Bands>(profile: &Profile, bands: &B, bytes: &mut [u8], step: &FilterStep)
    requires range { IsFilterStep step.now }
    requires room { pixels_of (measures_of profile.now) * 4 ≤ length bytes.old }
    ensures { take (pixels_of (measures_of profile.now) * 4) bytes.new ≡ picture_filter step.now profile.now.width (take (pixels_of (measures_of profile.now) * 4) bytes.old) }
{
    let count = fitted_bytes(profile);
    filter_picture(profile, bands, &mut bytes[..count], step);
}

/// Filters a picture of a frame's size, and writes what it becomes to another one.
fn filter_picture_from<B: Bands>(
    profile: &Profile,
    bands: &B,
    from: &[u8],
    picture: &mut [u8],
    step: &FilterStep,
)
    requires range { IsFilterStep step.now }
    requires from { length from.now ≡ pixels_of (measures_of profile.now) * 4 }
    requires sized { length picture.old ≡ pixels_of (measures_of profile.now) * 4 }
    ensures { picture.new ≡ picture_filter step.now profile.now.width from.now }
{
    apply_from(step, from, picture, profile.width, bands);
}

/// Filters a picture into the first bytes.
fn filter_lent<B: Bands>(
    profile: &Profile,
    bands: &B,
    bytes: &mut [u8],
    picture: &[u8],
    step: &FilterStep,
)
    requires range { IsFilterStep step.now }
    requires sized { length picture.now ≡ pixels_of (measures_of profile.now) * 4 }
    requires room { pixels_of (measures_of profile.now) * 4 ≤ length bytes.old }
    ensures { take (pixels_of (measures_of profile.now) * 4) bytes.new ≡ picture_filter step.now profile.now.width picture.now }
{
    let count = fitted_bytes(profile);
    filter_picture_from(profile, bands, picture, &mut bytes[..count], step);
}

/// Filters what a register has into its block, in place where it is there, and answers where it stands then.
pub(crate) fn filter_block<B: Bands>(
    scene: &Scene<'_>,
    bands: &B,
    block: &mut Lease,
    state: Register,
    step: &FilterStep,
) -> Register
    requires range { IsFilterStep step.now }
    requires fitted { AreFitted (measures_of scene.now.profile.now) scene.now.table.now scene.now.fitted.now.fits }
    requires there { IsThere (length scene.now.fitted.now.fits) state }
    requires room { pixels_of (measures_of scene.now.profile.now) * 4 ≤ length block.old }
    ensures there { IsThere (length scene.now.fitted.now.fits) result }
    ensures picture { let view = held (pixels_of (measures_of scene.now.profile.now) * 4) scene.now.fitted.now.fits in
        view block.new result ≡ option_map (picture_filter step.now scene.now.profile.now.width) (view block.old state) }
    ensures long { length block.new ≡ length block.old }
{
    let profile = scene.profile;
    match state {
        Register::Nothing => Register::Nothing,
        Register::Lent(place) => {
            let picture = scene.fitted.pixels(place);
            filter_lent(profile, bands, block.bytes_mut(), picture, step);
            Register::Owned
        }
        Register::Owned => {
            filter_own(profile, bands, block.bytes_mut(), step);
            Register::Owned
        }
    }
}

/// Makes a picture of a frame's size transparent black.
fn clear_picture(_profile: &Profile, picture: &mut [u8])
    requires { length picture.old ≡ pixels_of (measures_of _profile.now) * 4 }
    ensures { picture.new ≡ clear (pixels_of (measures_of _profile.now)) }
{
    picture.fill(0);
}

/// Makes the picture in the first bytes transparent black.
fn clear_own(profile: &Profile, bytes: &mut [u8])
    requires room { pixels_of (measures_of profile.now) * 4 ≤ length bytes.old }
    ensures { take (pixels_of (measures_of profile.now) * 4) bytes.new ≡ clear (pixels_of (measures_of profile.now)) }
{
    let count = fitted_bytes(profile);
    clear_picture(profile, &mut bytes[..count]);
}

/// Merges a picture into one of a frame's size, by the picture of its map, where the merge takes one.
fn merge_picture<B: Bands>(
    profile: &Profile,
    bands: &B,
    kept: &mut KeptColumns,
    picture: &mut [u8],
    above: &[u8],
    map: Option<&[u8]>,
    step: &MergeStep,
)
    requires range { IsMergeStep step.now }
    requires sized { length picture.old ≡ pixels_of (measures_of profile.now) * 4 }
    requires above { length above.now ≡ pixels_of (measures_of profile.now) * 4 }
    requires map { IsMap (map_of step.now) (pixels_of (measures_of profile.now) * 4) (option_copied map) }
    ensures { picture.new ≡ picture_merge step.now (option_copied map.entry) profile.now.width picture.old above.now }
{
    merge_again(step, picture, above, map, profile.width, kept, bands);
}

/// Merges a picture into the one in the first bytes.
fn merge_own<B: Bands>(
    profile: &Profile,
    bands: &B,
    kept: &mut KeptColumns,
    bytes: &mut [u8],
    above: &[u8],
    map: Option<&[u8]>,
    step: &MergeStep,
)
    requires range { IsMergeStep step.now }
    requires room { pixels_of (measures_of profile.now) * 4 ≤ length bytes.old }
    requires above { length above.now ≡ pixels_of (measures_of profile.now) * 4 }
    requires map { IsMap (map_of step.now) (pixels_of (measures_of profile.now) * 4) (option_copied map) }
    ensures { take (pixels_of (measures_of profile.now) * 4) bytes.new
        ≡ picture_merge step.now (option_copied map.entry) profile.now.width (take (pixels_of (measures_of profile.now) * 4) bytes.old) above.now }
{
    let count = fitted_bytes(profile);
    merge_picture(profile, bands, kept, &mut bytes[..count], above, map, step);
}

/// Merges a picture into another one of a frame's size, and writes what that becomes to a third.
fn merge_picture_from<B: Bands>(
    profile: &Profile,
    bands: &B,
    kept: &mut KeptColumns,
    from: &[u8],
    picture: &mut [u8],
    above: &[u8],
    map: Option<&[u8]>,
    step: &MergeStep,
)
    requires range { IsMergeStep step.now }
    requires from { length from.now ≡ pixels_of (measures_of profile.now) * 4 }
    requires sized { length picture.old ≡ pixels_of (measures_of profile.now) * 4 }
    requires above { length above.now ≡ pixels_of (measures_of profile.now) * 4 }
    requires map { IsMap (map_of step.now) (pixels_of (measures_of profile.now) * 4) (option_copied map) }
    ensures { picture.new ≡ picture_merge step.now (option_copied map.entry) profile.now.width from.now above.now }
{
    merge_from(step, from, picture, above, map, profile.width, kept, bands);
}

/// Merges a picture into another one, and writes what that becomes to the first bytes.
fn merge_lent<B: Bands>(
    profile: &Profile,
    bands: &B,
    kept: &mut KeptColumns,
    bytes: &mut [u8],
    picture: &[u8],
    above: &[u8],
    map: Option<&[u8]>,
    step: &MergeStep,
)
    requires range { IsMergeStep step.now }
    requires sized { length picture.now ≡ pixels_of (measures_of profile.now) * 4 }
    requires room { pixels_of (measures_of profile.now) * 4 ≤ length bytes.old }
    requires above { length above.now ≡ pixels_of (measures_of profile.now) * 4 }
    requires map { IsMap (map_of step.now) (pixels_of (measures_of profile.now) * 4) (option_copied map) }
    ensures { take (pixels_of (measures_of profile.now) * 4) bytes.new
        ≡ picture_merge step.now (option_copied map.entry) profile.now.width picture.now above.now }
{
    let count = fitted_bytes(profile);
    let own = &mut bytes[..count];
    merge_picture_from(profile, bands, kept, picture, own, above, map, step);
}

/// Merges a picture into what a register has, in the register's block.
pub(crate) fn merge_block<B: Bands>(
    scene: &Scene<'_>,
    bands: &B,
    kept: &mut KeptColumns,
    block: &mut Lease,
    state: Register,
    above: &[u8],
    map: Option<&[u8]>,
    step: &MergeStep,
)
    requires range { IsMergeStep step.now }
    requires fitted { AreFitted (measures_of scene.now.profile.now) scene.now.table.now scene.now.fitted.now.fits }
    requires there { IsThere (length scene.now.fitted.now.fits) state }
    requires room { pixels_of (measures_of scene.now.profile.now) * 4 ≤ length block.old }
    requires above { length above.now ≡ pixels_of (measures_of scene.now.profile.now) * 4 }
    requires map { IsMap (map_of step.now) (pixels_of (measures_of scene.now.profile.now) * 4) (option_copied map) }
    ensures picture { take (pixels_of (measures_of scene.now.profile.now) * 4) block.new
        ≡ picture_merge step.now (option_copied map.entry) scene.now.profile.now.width (unwrap_or (held (pixels_of (measures_of scene.now.profile.now) * 4) scene.now.fitted.now.fits block.old state) (clear (pixels_of (measures_of scene.now.profile.now)))) above.now }
    ensures long { length block.new ≡ length block.old }
{
    let profile = scene.profile;
    let bytes = block.bytes_mut();
    match state {
        Register::Nothing => {
            clear_own(profile, bytes);
            merge_own(profile, bands, kept, bytes, above, map, step);
        }
        Register::Lent(place) => {
            let picture = scene.fitted.pixels(place);
            merge_lent(profile, bands, kept, bytes, picture, above, map, step);
        }
        Register::Owned => merge_own(profile, bands, kept, bytes, above, map, step),
    }
}
