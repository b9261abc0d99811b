//! What words plant: filters and merges on tracks, and merges on the last mix.

ghost use Rattle.std.specs.Prelude.{◌≡◌, ◌<◌, ◌≤◌, ◌^◌, All, IfOk, IfSome, OnOk};
ghost use Rattle.mlt_base.specs.ProfileView.{measures_of};
ghost use Rattle.mlt_base.specs.Try.{Gives, TryGives};
ghost use Rattle.mlt_host.specs.Host.{OnlyLoads};
ghost use Rattle.mlt_tree.specs.Composition.{State as StateOf};
ghost use Rattle.mlt_tree.specs.Loading.{Files};
ghost use Rattle.mlt_tree.specs.Merging as merging;
ghost use Rattle.mlt_tree.specs.Planting as planting;
ghost use Rattle.mlt_tree.specs.Ranges.{IsMerge};
ghost use Rattle.mlt_tree.specs.Refusing.{or_refuse};
ghost use Rattle.mlt_tree.specs.Services.{called as called_of, merge_named as merge_named_of};
ghost use Rattle.mlt_tree.specs.Sources.{HasPicture, maps_of_merge};
ghost use Rattle.mlt_tree.specs.declared.refusal.Cause.TheVariants as cause;
ghost use Rattle.melt_build.specs.Properties.{props_in};
ghost use Rattle.melt_build.specs.Loads.{TellsFiles, Goes, CountsBuildLoads};
ghost use Rattle.melt_build.specs.Plant.{crossing_view, merging_view, crossed_in_order, last_mix_merged};
ghost use Rattle.melt_build.specs.State.{IsComposed, state_view};

use crate::attach::{front_of, ordered};
use crate::fault::BuildFault;
use crate::object::Object;
use crate::props::Properties;
use crate::service::{called, filter_named, merge_named};
use crate::state::State;
use crate::wanted::{Asked, Crossing};
use mlt_base::{Profile, Try};
use mlt_host::Host;
use mlt_tree::services::MergeRow;
use mlt_tree::{Cause, Group, MergeSpec, Refusal, services as row};
use std::alloc::Global;

/// The merge that a group's word names.
fn merge_of(group: &Group) -> Result<MergeRow, Refusal>
    ensures { result ≡ or_refuse group.now.place cause.UnknownService (merge_named_of (called_of group.now.arg).id) }
{
    match merge_named(called(group.arg.as_str()).id) {
        Some(service) => Ok(service),
        None => Err(Refusal::at(group.place, Cause::UnknownService)),
    }
}

impl Properties<'_, '_, '_> {
    /// The two tracks of a merge, and from where to where it goes.
    #[tactic(auto, unfolding(mlt_tree::specs::Planting::crossing))]
    fn crossing(&self, profile: &Profile, current: u32) -> Result<Crossing, Refusal>
        ensures value { (s : StateOf) → s.profile ≡ measures_of profile.now → planting.current s ≡ current →
            Gives crossing_view result (planting.crossing s (props_in self.now)) }
        ensures last { IfOk result (λ tracks. IfSome tracks.last (λ last. last < 2 ^ 31)) }
    {
        let a = self.number(&row::A_TRACK)?;
        let b = self.number(&row::B_TRACK)?;
        let first = self.moment_or_first(&row::IN, profile)?;
        let last = self.moment(&row::OUT, profile)?;
        let b = b.unwrap_or(current);
        Ok(Crossing {
            a: a.unwrap_or(b.saturating_sub(1)),
            b,
            first,
            last,
        })
    }
}

impl State<'_> {
    /// The number of the current track.
    fn current(&self) -> u32
        ensures { result ≡ planting.current (state_view self.now) }
    {
        self.level.tracks() - 1
    }

    // ---- filters

    /// Plants the filter that a group's word asks for, with the properties of its own.
    #[tactic(auto, unfolding(mlt_tree::specs::Planting::plant_filter, mlt_tree::specs::Planting::filter_planted))]
    fn filter_planted(
        &mut self,
        alloc: Global,
        group: &Group,
        own: &Object<'_>,
    ) -> Result<(), Try<Refusal>>
        requires composed { IsComposed self.old }
        requires own { own.now.words.now ≡ group.now.props }
        ensures value { TryGives (λ _. state_view self.new) result (planting.plant_filter (state_view self.old) group.now) }
        ensures composed { OnOk result (IsComposed self.new) }
    {
        let word = called(group.arg.as_str());
        let Some(service) = filter_named(word.id) else {
            return Err(Try::Fault(Refusal::at(group.place, Cause::UnknownService)));
        };
        let given = Properties {
            front: front_of(group.place, service.first, word.value),
            inherited: &self.inherited,
            own,
        };
        let named = given.number(&row::TRACK)?;
        let Asked { spec, first, last } = given.asked_by(
            alloc,
            &self.profile,
            service.kind,
            group.place,
        )?;
        let track = named.unwrap_or(self.current());
        self.level.plant_filter(track, spec, first, last)?;
        self.plant_places.push(group.place)?;
        Ok(())
    }

    /// Plants a filter on a track.
    pub(crate) fn plant_filter(&mut self, alloc: Global, group: &Group) -> Result<(), Try<Refusal>>
        requires { IsComposed self.old }
        ensures value { TryGives (λ _. state_view self.new) result (planting.plant_filter (state_view self.old) group.now) }
        ensures composed { OnOk result (IsComposed self.new) }
    {
        let own = Object::read(alloc, group.props.as_slice())?;
        let done = self.filter_planted(alloc, group, &own);
        own.end();
        done
    }

    // ---- merges of two tracks

    /// Plants a merge on two tracks.
    fn crossed(
        &mut self,
        group: &Group,
        tracks: Crossing,
        spec: MergeSpec,
    ) -> Result<(), Try<Refusal>>
        requires composed { IsComposed self.old }
        requires range { IsMerge spec }
        requires maps { All (HasPicture self.old.made.table) (maps_of_merge spec) }
        requires last { IfSome tracks.last (λ last. last < 2 ^ 31) }
        ensures value { TryGives (λ _. state_view self.new) result (crossed_in_order (state_view self.old) group.now (crossing_view tracks) (merging_view self.old.made spec)) }
        ensures composed { OnOk result (IsComposed self.new) }
    {
        ordered(group.place, tracks.first, tracks.last)?;
        self.level
            .plant_merge(tracks.a, tracks.b, spec, tracks.first, tracks.last)?;
        self.plant_places.push(group.place)?;
        Ok(())
    }

    /// Plants a merge of a service on two tracks.
    fn merge_planted<H: Host>(
        &mut self,
        alloc: Global,
        group: &Group,
        service: MergeRow,
        own: &Object<'_>,
        host: &mut H,
    ) -> Result<(), BuildFault>
        requires composed { IsComposed self.old }
        requires own { own.now.words.now ≡ group.now.props }
        ensures goes { (files : Files) → TellsFiles files (merging.merge_planted files (state_view self.old) group.now service) (H.state host.old) →
            Goes (λ _. state_view self.new) result (merging.merge_planted files (state_view self.old) group.now service) (H.state host.old) (H.state host.new) }
        ensures composed { OnOk result (IsComposed self.new) }
        ensures counts { CountsBuildLoads result (H.state host.old) (H.state host.new) }
        ensures rest { OnlyLoads (H.state host.old) (H.state host.new) }
    {
        let current = self.current();
        let word = called(group.arg.as_str());
        let given = Properties {
            front: front_of(group.place, service.first, word.value),
            inherited: &self.inherited,
            own,
        };
        let tracks = given.crossing(&self.profile, current)?;
        let spec = self.made.merge_made(
            alloc,
            &self.profile,
            service.kind,
            group.place,
            &given,
            host,
        )?;
        Ok(self.crossed(group, tracks, spec)?)
    }

    /// Plants the merge that a group's word asks for on two tracks, with the properties of its own.
    fn crossing_planted<H: Host>(
        &mut self,
        alloc: Global,
        group: &Group,
        own: &Object<'_>,
        host: &mut H,
    ) -> Result<(), BuildFault>
        requires composed { IsComposed self.old }
        requires own { own.now.words.now ≡ group.now.props }
        ensures goes { (files : Files) → TellsFiles files (merging.transition files (state_view self.old) group.now) (H.state host.old) →
            Goes (λ _. state_view self.new) result (merging.transition files (state_view self.old) group.now) (H.state host.old) (H.state host.new) }
        ensures composed { OnOk result (IsComposed self.new) }
        ensures counts { CountsBuildLoads result (H.state host.old) (H.state host.new) }
        ensures rest { OnlyLoads (H.state host.old) (H.state host.new) }
    {
        let service = merge_of(group)?;
        self.merge_planted(alloc, group, service, own, host)
    }

    /// Plants a merge on two tracks.
    pub(crate) fn transition<H: Host>(
        &mut self,
        alloc: Global,
        group: &Group,
        host: &mut H,
    ) -> Result<(), BuildFault>
        requires { IsComposed self.old }
        ensures goes { (files : Files) → TellsFiles files (merging.transition files (state_view self.old) group.now) (H.state host.old) →
            Goes (λ _. state_view self.new) result (merging.transition files (state_view self.old) group.now) (H.state host.old) (H.state host.new) }
        ensures composed { OnOk result (IsComposed self.new) }
        ensures counts { CountsBuildLoads result (H.state host.old) (H.state host.new) }
        ensures rest { OnlyLoads (H.state host.old) (H.state host.new) }
    {
        let own = Object::read(alloc, group.props.as_slice())?;
        let done = self.crossing_planted(alloc, group, &own, host);
        own.end();
        done
    }

    // ---- merges of the last mix

    /// Adds a merge to the last mix.
    fn mix_merged(&mut self, place: u32, spec: MergeSpec) -> Result<(), Try<Refusal>>
        requires composed { IsComposed self.old }
        requires range { IsMerge spec }
        requires maps { All (HasPicture self.old.made.table) (maps_of_merge spec) }
        ensures value { TryGives (λ _. state_view self.new) result (last_mix_merged (state_view self.old) place (merging_view self.old.made spec)) }
        ensures composed { OnOk result (IsComposed self.new) }
    {
        let Some(unit) = self.last_mix else {
            return Err(Try::Fault(Refusal::at(place, Cause::NoMix)));
        };
        self.made.graph.add_mixer(unit, spec)?;
        Ok(())
    }

    /// Adds a merge of a service to the last mix.
    fn merge_mixed<H: Host>(
        &mut self,
        alloc: Global,
        group: &Group,
        service: MergeRow,
        own: &Object<'_>,
        host: &mut H,
    ) -> Result<(), BuildFault>
        requires composed { IsComposed self.old }
        requires own { own.now.words.now ≡ group.now.props }
        ensures goes { (files : Files) → TellsFiles files (merging.merge_mixed files (state_view self.old) group.now service) (H.state host.old) →
            Goes (λ _. state_view self.new) result (merging.merge_mixed files (state_view self.old) group.now service) (H.state host.old) (H.state host.new) }
        ensures composed { OnOk result (IsComposed self.new) }
        ensures counts { CountsBuildLoads result (H.state host.old) (H.state host.new) }
        ensures rest { OnlyLoads (H.state host.old) (H.state host.new) }
    {
        let word = called(group.arg.as_str());
        let given = Properties {
            front: front_of(group.place, service.first, word.value),
            inherited: &self.inherited,
            own,
        };
        let spec = self.made.merge_made(
            alloc,
            &self.profile,
            service.kind,
            group.place,
            &given,
            host,
        )?;
        Ok(self.mix_merged(group.place, spec)?)
    }

    /// Adds the merge that a group's word asks for to the last mix, with the properties of its own.
    fn mixer_added<H: Host>(
        &mut self,
        alloc: Global,
        group: &Group,
        own: &Object<'_>,
        host: &mut H,
    ) -> Result<(), BuildFault>
        requires composed { IsComposed self.old }
        requires own { own.now.words.now ≡ group.now.props }
        ensures goes { (files : Files) → TellsFiles files (merging.mixer files (state_view self.old) group.now) (H.state host.old) →
            Goes (λ _. state_view self.new) result (merging.mixer files (state_view self.old) group.now) (H.state host.old) (H.state host.new) }
        ensures composed { OnOk result (IsComposed self.new) }
        ensures counts { CountsBuildLoads result (H.state host.old) (H.state host.new) }
        ensures rest { OnlyLoads (H.state host.old) (H.state host.new) }
    {
        let service = merge_of(group)?;
        self.merge_mixed(alloc, group, service, own, host)
    }

    /// Adds a merge to the last mix of the track.
    pub(crate) fn mixer<H: Host>(
        &mut self,
        alloc: Global,
        group: &Group,
        host: &mut H,
    ) -> Result<(), BuildFault>
        requires { IsComposed self.old }
        ensures goes { (files : Files) → TellsFiles files (merging.mixer files (state_view self.old) group.now) (H.state host.old) →
            Goes (λ _. state_view self.new) result (merging.mixer files (state_view self.old) group.now) (H.state host.old) (H.state host.new) }
        ensures composed { OnOk result (IsComposed self.new) }
        ensures counts { CountsBuildLoads result (H.state host.old) (H.state host.new) }
        ensures rest { OnlyLoads (H.state host.old) (H.state host.new) }
    {
        let own = Object::read(alloc, group.props.as_slice())?;
        let done = self.mixer_added(alloc, group, &own, host);
        own.end();
        done
    }
}
