//! Filters that words attach: to the last clip, to the unit that it is of, or to the track.

ghost use Rattle.std.specs.Prelude.{◌≡◌, ◌≤◌, ◌<◌, ◌+◌, ◌^◌, Result, length, IfOk, IfSome, OnOk};
ghost use Rattle.std.specs.Option.{option_copied};
ghost use Rattle.mlt_base.specs.ProfileView.{measures_of};
ghost use Rattle.mlt_base.specs.Try.{Gives, TryGives};
ghost use Rattle.mlt_base.specs.declared.value.Span.{Span as SpanOf};
ghost use Rattle.mlt_base.specs.declared.value.UnitId.{UnitId as UnitIdOf};
ghost use Rattle.mlt_tree.specs.Attaching as meaning;
ghost use Rattle.mlt_tree.specs.Attaching.{valued, attached_from as attached_of, on_clip};
ghost use Rattle.mlt_tree.specs.Composition.{State as StateOf};
ghost use Rattle.mlt_tree.specs.Ranges.{IsFilter, IsAttached};
ghost use Rattle.mlt_tree.specs.declared.group.Group.{Group as GroupOf};
ghost use Rattle.mlt_tree.specs.declared.refusal.Refusal.{Refusal as RefusalOf};
ghost use Rattle.melt_build.specs.Attach.{asked_view, IsAsked, acted};
ghost use Rattle.melt_build.specs.Properties.{front_in, props_in};
ghost use Rattle.melt_build.specs.State.{IsComposed, state_view};

use crate::object::Object;
use crate::props::{Front, Properties};
use crate::refused::edited;
use crate::service::{called, filter_named};
use crate::state::State;
use crate::track::no_entry;
use crate::wanted::{Asked, LastClip};
use mlt_base::{Name, Pos, Profile, Span, Try};
use mlt_tree::{Attached, Cause, Entry, FilterKind, FilterSpec, Group, Refusal, services as row};
use std::alloc::Global;

/// A value behind the `:` of a word, as that of its service's first property, if it has one.
pub(crate) fn front_of(place: u32, first: Option<Name>, value: Option<&str>) -> Option<Front<'_>>
    ensures { front_in result ≡ valued place first (option_copied value.entry) }
{
    match first {
        None => None,
        Some(name) => match value {
            None => None,
            Some(value) => Some(Front { place, name, value }),
        },
    }
}

/// A last position that is given is not before the first.
pub(crate) fn ordered(place: u32, first: u32, last: Option<u32>) -> Result<(), Refusal>
    ensures value { result ≡ meaning.ordered place first last }
    ensures range { IfOk result (λ _. IfSome last (λ last. first ≤ last)) }
{
    match last {
        None => Ok(()),
        Some(last) => {
            if first <= last {
                Ok(())
            } else {
                Err(Refusal::at(
                    place,
                    Cause::BadRange {
                        first,
                        last,
                        length: 0,
                    },
                ))
            }
        }
    }
}

impl Properties<'_, '_, '_> {
    /// How many pixels are cut at each edge.
    #[tactic(auto, unfolding(mlt_tree::specs::Attaching::crop_of))]
    fn crop_of(&self) -> Result<FilterSpec, Refusal>
        ensures value { result ≡ meaning.crop_of (props_in self.now) }
        ensures range { IfOk result IsFilter }
    {
        let left = self.count(&row::LEFT)?;
        let right = self.count(&row::RIGHT)?;
        let top = self.count(&row::TOP)?;
        let bottom = self.count(&row::BOTTOM)?;
        Ok(FilterSpec::Crop {
            left,
            right,
            top,
            bottom,
        })
    }

    /// The filter of a kind, with its properties.
    #[tactic(auto, unfolding(mlt_tree::specs::Attaching::spec_of))]
    fn spec_of(
        &self,
        alloc: Global,
        kind: FilterKind,
        place: u32,
    ) -> Result<FilterSpec, Try<Refusal>>
        ensures value { TryGives (λ spec. spec) result (meaning.spec_of kind place (props_in self.now)) }
        ensures range { IfOk result IsFilter }
    {
        Ok(match kind {
            FilterKind::Brightness => FilterSpec::Brightness {
                level: self.animated(alloc, &row::LEVEL)?,
            },
            FilterKind::Greyscale => FilterSpec::Greyscale,
            FilterKind::Invert => FilterSpec::Invert,
            FilterKind::Mirror => FilterSpec::Mirror {
                vertical: self.choice(&row::MIRROR)?,
            },
            FilterKind::Crop => self.crop_of()?,
            FilterKind::Threshold => FilterSpec::Threshold {
                midpoint: self.count(&row::MIDPOINT)?,
            },
            FilterKind::Sepia => FilterSpec::Sepia,
            FilterKind::Obscure => FilterSpec::Obscure {
                size: self.count(&row::SIZE)?,
            },
            FilterKind::Opacity => FilterSpec::Opacity {
                level: self.animated(alloc, &row::LEVEL)?,
            },
            FilterKind::SwapChannels => FilterSpec::SwapChannels {
                order: self.letters(&row::ORDER)?,
            },
            FilterKind::Volume
            | FilterKind::Mono
            | FilterKind::ChannelCopy
            | FilterKind::ChannelSwap
            | FilterKind::Silence => {
                return Err(Try::Fault(Refusal::at(place, Cause::Unsupported)));
            }
        })
    }

    /// The filter of a kind, and where it acts.
    #[tactic(auto, unfolding(mlt_tree::specs::Attaching::asked_by))]
    pub(crate) fn asked_by(
        &self,
        alloc: Global,
        profile: &Profile,
        kind: FilterKind,
        place: u32,
    ) -> Result<Asked, Try<Refusal>>
        ensures value { (s : StateOf) (group : GroupOf) → s.profile ≡ measures_of profile.now → group.place ≡ place →
            TryGives asked_view result (meaning.asked_by s group kind (props_in self.now)) }
        ensures asked { IfOk result IsAsked }
    {
        let first = self.moment_or_first(&row::IN, profile)?;
        let last = self.moment(&row::OUT, profile)?;
        let spec = self.spec_of(alloc, kind, place)?;
        ordered(place, first, last)?;
        Ok(Asked { spec, first, last })
    }
}

/// A filter on so many frames from a start on, counted from there.
fn attached_from(start: u32, frames: u32, asked: Asked) -> Attached
    requires asked { IsAsked asked }
    requires start { start < 2 ^ 31 }
    requires frames { frames ≤ 2 ^ 31 }
    ensures value { result ≡ attached_of start frames (asked_view asked) }
    ensures range { IsAttached result }
{
    let last = asked
        .last
        .unwrap_or(asked.first.max(frames.saturating_sub(1)));
    Attached {
        spec: asked.spec,
        span: Span {
            first: Pos(start + asked.first),
            last: Pos(start + last),
        },
    }
}

impl State<'_> {
    /// The filter that a group's word asks for, with the properties of its own.
    #[tactic(auto, unfolding(mlt_tree::specs::Attaching::asked_filter))]
    fn asked_with(
        &self,
        alloc: Global,
        group: &Group,
        own: &Object<'_>,
    ) -> Result<Asked, Try<Refusal>>
        requires { own.now.words.now ≡ group.now.props }
        ensures value { TryGives asked_view result (meaning.asked_filter (state_view self.now) group.now) }
        ensures asked { IfOk result IsAsked }
    {
        let word = called(group.arg.as_str());
        let Some(row) = filter_named(word.id) else {
            return Err(Try::Fault(Refusal::at(group.place, Cause::UnknownService)));
        };
        let given = Properties {
            front: front_of(group.place, row.first, word.value),
            inherited: &self.inherited,
            own,
        };
        given.asked_by(alloc, &self.profile, row.kind, group.place)
    }

    /// The filter that a group's word asks for.
    fn asked_filter(&self, alloc: Global, group: &Group) -> Result<Asked, Try<Refusal>>
        ensures value { TryGives asked_view result (meaning.asked_filter (state_view self.now) group.now) }
        ensures asked { IfOk result IsAsked }
    {
        let own = Object::read(alloc, group.props.as_slice())?;
        let asked = self.asked_with(alloc, group, &own);
        own.end();
        asked
    }

    /// The clip that stands last, by its index, its unit and its frames; no entry is refused, and a gap.
    fn last_clip(&self, place: u32) -> Result<LastClip, Refusal>
        requires { IsComposed self.now }
        ensures value { (group : GroupOf) (act : UnitIdOf → SpanOf → Result StateOf RefusalOf) → group.place ≡ place →
            on_clip (state_view self.now) group act ≡ acted act result }
        ensures last { IfOk result (λ clip. length self.now.level.current.entries ≡ clip.index + 1) }
        ensures unit { IfOk result (λ clip. clip.unit.0 < length self.now.made.graph) }
        ensures span { IfOk result (λ clip. (clip.span.first.0 ≤ clip.span.last.0) × (clip.span.last.0 < 2 ^ 31)) }
    {
        let list = self.level.last_list();
        let count = list.count();
        let index = count.saturating_sub(1);
        match list.entry(index) {
            None => Err(no_entry(place)),
            Some(Entry::Clip { unit, span, .. }) => Ok(LastClip {
                index,
                unit: *unit,
                span: *span,
            }),
            Some(Entry::Gap { .. }) => Err(Refusal::at(
                place,
                Cause::BadClip {
                    index: index as u32,
                    count: count as u32,
                },
            )),
        }
    }

    /// A filter on the last clip, from its first frame on.
    fn attached_to_clip(&mut self, group: &Group, asked: Asked) -> Result<(), Try<Refusal>>
        requires composed { IsComposed self.old }
        requires asked { IsAsked asked }
        ensures value { TryGives (λ _. state_view self.new) result (meaning.attached_to_clip (state_view self.old) group.now (asked_view asked)) }
        ensures composed { OnOk result (IsComposed self.new) }
    {
        let clip = self.last_clip(group.place)?;
        let frames = (clip.span.last.0 + 1).saturating_sub(clip.span.first.0);
        let filter = attached_from(clip.span.first.0, frames, asked);
        edited(group.place, self.level.last().attach(clip.index, filter))
    }

    /// Attaches a filter to the last clip.
    #[tactic(auto, unfolding(mlt_tree::specs::Attaching::attach))]
    pub(crate) fn attach(&mut self, alloc: Global, group: &Group) -> Result<(), Try<Refusal>>
        requires { IsComposed self.old }
        ensures value { TryGives (λ _. state_view self.new) result (meaning.attach (state_view self.old) group.now) }
        ensures composed { OnOk result (IsComposed self.new) }
    {
        let asked = self.asked_filter(alloc, group)?;
        self.attached_to_clip(group, asked)
    }

    /// A filter on the unit of the last clip.
    fn attached_to_unit(&mut self, group: &Group, asked: Asked) -> Result<(), Try<Refusal>>
        requires composed { IsComposed self.old }
        requires asked { IsAsked asked }
        ensures value { TryGives (λ _. state_view self.new) result (meaning.attached_to_unit (state_view self.old) group.now (asked_view asked)) }
        ensures composed { OnOk result (IsComposed self.new) }
    {
        let clip = self.last_clip(group.place)?;
        let frames = self.made.graph.length_of(clip.unit);
        let filter = attached_from(0, frames, asked);
        self.made.graph.attach(clip.unit, filter)?;
        Ok(())
    }

    /// Attaches a filter to the unit of the last clip.
    #[tactic(auto, unfolding(mlt_tree::specs::Attaching::attach_clip))]
    pub(crate) fn attach_clip(&mut self, alloc: Global, group: &Group) -> Result<(), Try<Refusal>>
        requires { IsComposed self.old }
        ensures value { TryGives (λ _. state_view self.new) result (meaning.attach_clip (state_view self.old) group.now) }
        ensures composed { OnOk result (IsComposed self.new) }
    {
        let asked = self.asked_filter(alloc, group)?;
        self.attached_to_unit(group, asked)
    }

    /// Attaches a filter to the track.
    #[tactic(auto, unfolding(mlt_tree::specs::Attaching::attach_track))]
    pub(crate) fn attach_track(&mut self, alloc: Global, group: &Group) -> Result<(), Try<Refusal>>
        requires { IsComposed self.old }
        ensures value { TryGives (λ _. state_view self.new) result (meaning.attach_track (state_view self.old) group.now) }
        ensures composed { OnOk result (IsComposed self.new) }
    {
        let Asked { spec, first, last } = self.asked_filter(alloc, group)?;
        self.level.attach_track(spec, first, last)?;
        Ok(())
    }
}
