//! Words that are not built yet: they are refused before all else that is said of a composition.

ghost use Rattle.std.specs.Prelude.{◌≡◌, find};
ghost use Rattle.std.specs.Option.{option_copied};
ghost use Rattle.mlt_tree.specs.Unbuilt.{is_later_prop, is_picture, producer_built, props_built, is_picture_filter, filter_built, is_picture_merge, merge_built, built, built_step};
ghost use Rattle.mlt_tree.specs.Services.{producer_of, raw_of};
ghost use Rattle.mlt_tree.specs.Refusing.{over};

use crate::service::{called, filter_named, merge_named, producer_of, raw_of};
use mlt_tree::{Cause, FilterKind, Group, GroupKind, MergeKind, Producer, Prop, Refusal};

/// Whether a property of the consumer is not built yet.
fn is_later_prop(prop: &Prop) -> bool
    ensures { result ≡ is_later_prop prop.now }
{
    let name = prop.name.as_str();
    name == "audio" || name == "channels" || name == "format"
}

/// The first property that comes later.
fn later_prop(props: &[Prop]) -> Option<&Prop>
    ensures { option_copied result ≡ find is_later_prop props.now }
{
    for prop in props {
        if is_later_prop(prop) {
            return Some(prop);
        }
    }
    None
}

/// Whether a word names a picture, or nothing that is known.
fn is_picture(word: &str) -> bool
    ensures { result ≡ is_picture (producer_of word.now) }
{
    match producer_of(word) {
        None => true,
        Some(named) => match named.producer {
            Producer::Colour => true,
            Producer::Picture => true,
            Producer::Sound => false,
            Producer::Melt => false,
        },
    }
}

/// A producer of a picture.
fn producer_built(group: &Group) -> Result<(), Refusal>
    ensures { result ≡ producer_built group.now }
{
    if is_picture(group.arg.as_str()) {
        Ok(())
    } else {
        Err(Refusal::at(group.place, Cause::Unsupported))
    }
}

/// A consumer without such a property.
fn props_built(group: &Group) -> Result<(), Refusal>
    ensures { result ≡ props_built group.now (raw_of group.now.arg) }
{
    match raw_of(group.arg.as_str()) {
        None => Ok(()),
        Some(_) => match later_prop(group.props.as_slice()) {
            None => Ok(()),
            Some(prop) => Err(Refusal::at(prop.place, Cause::Unsupported)),
        },
    }
}

/// Whether a filter is one of pictures.
fn is_picture_filter(kind: FilterKind) -> bool
    ensures { result ≡ is_picture_filter kind }
{
    match kind {
        FilterKind::Brightness
        | FilterKind::Greyscale
        | FilterKind::Invert
        | FilterKind::Mirror
        | FilterKind::Crop
        | FilterKind::Threshold
        | FilterKind::Sepia
        | FilterKind::Obscure
        | FilterKind::Opacity
        | FilterKind::SwapChannels => true,
        FilterKind::Volume
        | FilterKind::Mono
        | FilterKind::ChannelCopy
        | FilterKind::ChannelSwap
        | FilterKind::Silence => false,
    }
}

/// A filter of pictures, or of nothing that is known.
fn filter_built(group: &Group) -> Result<(), Refusal>
    ensures { result ≡ filter_built group.now }
{
    match filter_named(called(group.arg.as_str()).id) {
        None => Ok(()),
        Some(row) => {
            if is_picture_filter(row.kind) {
                Ok(())
            } else {
                Err(Refusal::at(group.place, Cause::Unsupported))
            }
        }
    }
}

/// Whether a merge is one of pictures.
fn is_picture_merge(kind: MergeKind) -> bool
    ensures { result ≡ is_picture_merge kind }
{
    match kind {
        MergeKind::Luma | MergeKind::Composite | MergeKind::Matte => true,
        MergeKind::Mix | MergeKind::Sum => false,
    }
}

/// A merge of pictures, or of nothing that is known.
fn merge_built(group: &Group) -> Result<(), Refusal>
    ensures { result ≡ merge_built group.now }
{
    match merge_named(called(group.arg.as_str()).id) {
        None => Ok(()),
        Some(row) => {
            if is_picture_merge(row.kind) {
                Ok(())
            } else {
                Err(Refusal::at(group.place, Cause::Unsupported))
            }
        }
    }
}

/// Whether a group is built.
#[tactic(auto, unfolding(mlt_tree::specs::Unbuilt::built))]
fn built(group: &Group) -> Result<(), Refusal>
    ensures { result ≡ built group.now }
{
    match group.kind {
        GroupKind::Producer => producer_built(group),
        GroupKind::Consumer => props_built(group),
        GroupKind::Attach
        | GroupKind::AttachCut
        | GroupKind::AttachClip
        | GroupKind::AttachTrack
        | GroupKind::Filter => filter_built(group),
        GroupKind::Transition | GroupKind::Mixer => merge_built(group),
        GroupKind::Serialise | GroupKind::Generate => {
            Err(Refusal::at(group.place, Cause::Unsupported))
        }
        GroupKind::Blank
        | GroupKind::Group
        | GroupKind::Join
        | GroupKind::Mix
        | GroupKind::Remove
        | GroupKind::Repeat
        | GroupKind::Split
        | GroupKind::Swap
        | GroupKind::Track
        | GroupKind::HideVideo
        | GroupKind::AudioTrack
        | GroupKind::HideAudio
        | GroupKind::VideoTrack
        | GroupKind::HideTrack
        | GroupKind::NullTrack
        | GroupKind::Profile
        | GroupKind::Query
        | GroupKind::Version
        | GroupKind::Quiet
        | GroupKind::Silent
        | GroupKind::Progress
        | GroupKind::Verbose
        | GroupKind::Debug
        | GroupKind::Getc
        | GroupKind::Timings
        | GroupKind::Abort => Ok(()),
    }
}

/// Whether all groups are built, or the refusal of the first that is not.
pub(crate) fn all_built(groups: &[Group]) -> Result<(), Refusal>
    ensures { result ≡ over built_step tt groups.now }
{
    for group in groups {
        built(group)?;
    }
    Ok(())
}
