//! From groups to a composition: what is not built first, then the profile, then the groups in word order.

ghost use Rattle.std.specs.Prelude.{◌≡◌, ◌≢◌, IfOk, OnOk};
ghost use Rattle.std.specs.Option.{option_map};
ghost use Rattle.mlt_base.specs.Try.{Gives, TryGives};
ghost use Rattle.mlt_tree.specs.Composing.{no_words, producer as producer_of, effect as effect_of, composed as composed_of};
ghost use Rattle.mlt_tree.specs.Composition.{profile_read as profile_read_of, profile_named as profile_named_of, consumer as consumer_of, inherit as inherit_of, begun as begun_of, default_profile};
ghost use Rattle.mlt_tree.specs.Loading.{Files, through};
ghost use Rattle.mlt_tree.specs.Sealing.{profiled as profiled_of};
ghost use Rattle.mlt_base.specs.ProfileView.{measures_of};
ghost use Rattle.mlt_host.specs.Host.{OnlyLoads};
ghost use Rattle.mlt_tree.specs.declared.group.GroupKind.TheVariants as kind;
ghost use Rattle.melt_build.specs.Loads.{TellsFiles, Goes, CountsBuildLoads};
ghost use Rattle.melt_build.specs.Reads.{ReadGives};
ghost use Rattle.melt_build.specs.State.{IsComposed, state_view};

use crate::built::all_built;
use crate::fault::{BuildFault, lifted};
use crate::groups::first_two;
use crate::object::Object;
use crate::props::Properties;
use crate::state::{Made, State};
use mlt_base::{DV_PAL, Profile, Rate, Try};
use mlt_graph::{Graph, Level};
use mlt_host::Host;
use mlt_source::SourceTable;
use mlt_tree::{Cause, Group, GroupKind, Refusal};
use std::alloc::{AllocError, Global};
use std::mem;

/// `dv_pal`.
fn default_profile() -> Profile
    ensures { measures_of result ≡ default_profile }
{
    Profile {
        width: DV_PAL.width,
        height: DV_PAL.height,
        rate: Rate {
            num: DV_PAL.num,
            den: DV_PAL.den,
        },
    }
}

/// The profile that a group's word names.
fn profile_read(group: &Group) -> Result<Profile, Refusal>
    ensures { Gives measures_of result (profile_read_of group.now) }
{
    match Profile::read(group.arg.as_str()) {
        None => Err(Refusal::at(group.place, Cause::BadValue)),
        Some(profile) => Ok(profile),
    }
}

/// The profile that the groups name, if they name one; a second `-profile` is refused.
fn profile_named(groups: &[Group]) -> Result<Option<Profile>, Refusal>
    ensures { Gives (option_map measures_of) result (profile_named_of groups.now) }
{
    let (first, second) = first_two(groups, GroupKind::Profile);
    let Some(first) = first else {
        return Ok(None);
    };
    let profile = profile_read(first)?;
    match second {
        None => Ok(Some(profile)),
        Some(second) => Err(Refusal::at(second.place, Cause::TooMany { limit: 1 })),
    }
}

/// The profile of the groups, none of which is not built.
#[tactic(auto, unfolding(mlt_tree::specs::Sealing::profiled))]
fn profiled(groups: &[Group]) -> Result<Profile, Refusal>
    ensures { Gives measures_of result (profiled_of groups.now) }
{
    all_built(groups)?;
    Ok(profile_named(groups)?.unwrap_or(default_profile()))
}

impl<'a> State<'a> {
    /// A producer, with the properties that it inherits and its own.
    fn produce<H: Host>(
        &mut self,
        alloc: Global,
        group: &'a Group,
        host: &mut H,
    ) -> Result<(), BuildFault>
        requires { IsComposed self.old }
        ensures goes { (files : Files) → TellsFiles files (producer_of files no_words (state_view self.old) group.now) (H.state host.old) →
            Goes (λ _. state_view self.new) result (producer_of files no_words (state_view self.old) group.now) (H.state host.old) (H.state host.new) }
        ensures composed { OnOk result (IsComposed self.new) }
        ensures counts { CountsBuildLoads result (H.state host.old) (H.state host.new) }
        ensures rest { OnlyLoads (H.state host.old) (H.state host.new) }
    {
        let own = Object::read(alloc, group.props.as_slice())?;
        let done = self.producer(alloc, group, &own, host);
        own.end();
        done
    }

    /// A consumer, with its own properties alone.
    fn consume(&mut self, alloc: Global, group: &'a Group) -> Result<(), Try<Refusal>>
        requires { IsComposed self.old }
        ensures value { TryGives (λ _. state_view self.new) result (consumer_of (state_view self.old) group.now) }
        ensures composed { OnOk result (IsComposed self.new) }
    {
        let own = Object::read(alloc, group.props.as_slice())?;
        let none = Object::none(alloc);
        let given = Properties {
            front: None,
            inherited: &none,
            own: &own,
        };
        let done = self.consumer(group, given);
        none.end();
        own.end();
        Ok(done?)
    }

    /// The properties that later producers inherit.
    #[tactic(auto, unfolding(mlt_tree::specs::Composition::inherit))]
    fn inherit(&mut self, alloc: Global, group: &'a Group) -> Result<(), Try<Refusal>>
        requires { IsComposed self.old }
        ensures value { TryGives (λ _. state_view self.new) result (inherit_of (state_view self.old) group.now) }
        ensures composed { OnOk result (IsComposed self.new) }
    {
        let own = Object::read(alloc, group.props.as_slice())?;
        mem::replace(&mut self.inherited, own).end();
        Ok(())
    }

    /// What a group does to the composition that can name no file.
    #[tactic(auto, unfolding(mlt_tree::specs::Composing::effect))]
    fn change(&mut self, alloc: Global, group: &'a Group) -> Result<(), Try<Refusal>>
        requires composed { IsComposed self.old }
        requires producer { group.now.kind ≢ kind.Producer }
        requires transition { group.now.kind ≢ kind.Transition }
        requires mixer { group.now.kind ≢ kind.Mixer }
        ensures value { (files : Files) → ReadGives (λ _. state_view self.new) result (effect_of files no_words (state_view self.old) group.now) }
        ensures composed { OnOk result (IsComposed self.new) }
    {
        match group.kind {
            GroupKind::Producer | GroupKind::Transition | GroupKind::Mixer => unreachable!(),
            GroupKind::Blank => self.blank(group),
            GroupKind::Group => self.inherit(alloc, group),
            GroupKind::Join => self.join(group),
            GroupKind::Mix => self.mix(group),
            GroupKind::Remove => self.remove(group),
            GroupKind::Repeat => self.repeat(group),
            GroupKind::Split => self.split(group),
            GroupKind::Swap => self.swap(group),
            GroupKind::Consumer => self.consume(alloc, group),
            GroupKind::Attach | GroupKind::AttachCut => self.attach(alloc, group),
            GroupKind::AttachClip => self.attach_clip(alloc, group),
            GroupKind::AttachTrack => self.attach_track(alloc, group),
            GroupKind::Filter => self.plant_filter(alloc, group),
            GroupKind::Track => self.begin_track(group, false, false),
            GroupKind::HideVideo | GroupKind::AudioTrack => self.begin_track(group, true, false),
            GroupKind::HideAudio | GroupKind::VideoTrack => self.begin_track(group, false, true),
            GroupKind::HideTrack | GroupKind::NullTrack => self.begin_track(group, true, true),
            GroupKind::Profile
            | GroupKind::Serialise
            | GroupKind::Query
            | GroupKind::Version
            | GroupKind::Generate
            | GroupKind::Quiet
            | GroupKind::Silent
            | GroupKind::Progress
            | GroupKind::Verbose
            | GroupKind::Debug
            | GroupKind::Getc
            | GroupKind::Timings
            | GroupKind::Abort => Ok(()),
        }
    }

    /// What the group does to the composition.
    fn effect<H: Host>(
        &mut self,
        alloc: Global,
        group: &'a Group,
        host: &mut H,
    ) -> Result<(), BuildFault>
        requires { IsComposed self.old }
        ensures goes { (files : Files) → TellsFiles files (effect_of files no_words (state_view self.old) group.now) (H.state host.old) →
            Goes (λ _. state_view self.new) result (effect_of files no_words (state_view self.old) group.now) (H.state host.old) (H.state host.new) }
        ensures composed { OnOk result (IsComposed self.new) }
        ensures counts { CountsBuildLoads result (H.state host.old) (H.state host.new) }
        ensures rest { OnlyLoads (H.state host.old) (H.state host.new) }
    {
        if group.kind == GroupKind::Producer {
            self.produce(alloc, group, host)
        } else if group.kind == GroupKind::Transition {
            self.transition(alloc, group, host)
        } else if group.kind == GroupKind::Mixer {
            self.mixer(alloc, group, host)
        } else {
            lifted(self.change(alloc, group))
        }
    }

    /// What the groups do to the composition, in order.
    fn effects<H: Host>(
        &mut self,
        alloc: Global,
        groups: &'a [Group],
        host: &mut H,
    ) -> Result<(), BuildFault>
        requires { IsComposed self.old }
        ensures goes { (files : Files) → TellsFiles files (through (effect_of files no_words) (state_view self.old) groups.now) (H.state host.old) →
            Goes (λ _. state_view self.new) result (through (effect_of files no_words) (state_view self.old) groups.now) (H.state host.old) (H.state host.new) }
        ensures composed { OnOk result (IsComposed self.new) }
        ensures counts { CountsBuildLoads result (H.state host.old) (H.state host.new) }
        ensures rest { OnlyLoads (H.state host.old) (H.state host.new) }
    {
        for group in groups {
            self.effect(alloc, group, host)?;
        }
        Ok(())
    }
}

/// Before the first of so many words.
fn begun<'a>(alloc: Global, profile: Profile, count: u32) -> Result<State<'a>, AllocError>
    ensures value { IfOk result (λ s. state_view s ≡ begun_of (measures_of profile) count) }
    ensures composed { IfOk result IsComposed }
{
    let level = Level::new(alloc)?;
    Ok(State {
        profile,
        made: Made {
            graph: Graph::new(alloc),
            table: SourceTable::new(alloc),
            loaded: 0,
            words: count,
        },
        level,
        plant_places: Vec::new(alloc),
        inherited: Object::none(alloc),
        last_mix: None,
        consumer: None,
    })
}

/// The composition of the groups of so many words.
pub(crate) fn composed<'a, H: Host>(
    alloc: Global,
    count: u32,
    groups: &'a [Group],
    host: &mut H,
) -> Result<State<'a>, BuildFault>
    ensures goes { (files : Files) → TellsFiles files (composed_of files count groups.now) (H.state host.old) →
        Goes state_view result (composed_of files count groups.now) (H.state host.old) (H.state host.new) }
    ensures composed { IfOk result IsComposed }
    ensures counts { CountsBuildLoads result (H.state host.old) (H.state host.new) }
    ensures rest { OnlyLoads (H.state host.old) (H.state host.new) }
{
    let profile = profiled(groups)?;
    let mut state = begun(alloc, profile, count)?;
    match state.effects(alloc, groups, host) {
        Ok(()) => Ok(state),
        Err(fault) => {
            state.end();
            Err(fault)
        }
    }
}
