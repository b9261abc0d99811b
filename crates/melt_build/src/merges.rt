//! What a merge's word asks for; its map is loaded.

ghost use Rattle.std.specs.Prelude.{◌≡◌, ◌≢◌, [], All, IfOk, OnOk};
ghost use Rattle.mlt_base.specs.ProfileView.{measures_of};
ghost use Rattle.mlt_host.specs.Host.{OnlyLoads};
ghost use Rattle.mlt_tree.specs.Composition.{State as StateOf};
ghost use Rattle.mlt_tree.specs.Loading.{Files};
ghost use Rattle.mlt_tree.specs.Merging as meaning;
ghost use Rattle.mlt_tree.specs.Ranges.{IsMerge};
ghost use Rattle.mlt_tree.specs.Sources.{HasPicture, maps_of_merge};
ghost use Rattle.mlt_tree.specs.declared.group.Group.{Group as GroupOf};
ghost use Rattle.mlt_tree.specs.declared.services.MergeKind.TheVariants as merge;
ghost use Rattle.melt_build.specs.Properties.{props_in};
ghost use Rattle.melt_build.specs.Loads.{TellsFiles, Goes, CountsBuildLoads};
ghost use Rattle.melt_build.specs.Plant.{merging_view};
ghost use Rattle.melt_build.specs.Reads.{ReadGives};
ghost use Rattle.melt_build.specs.State.{IsMade, IsMore, made_view};

use crate::fault::{BuildFault, lifted};
use crate::props::Properties;
use crate::state::Made;
use mlt_base::{Profile, Q16, Try};
use mlt_host::Host;
use mlt_tree::{Cause, MergeKind, MergeSpec, Refusal, services as row};
use std::alloc::Global;

impl Made {
    /// A merge from one picture to the other, by its map where one is named.
    fn luma_made<H: Host>(
        &mut self,
        alloc: Global,
        place: u32,
        given: &Properties<'_, '_, '_>,
        host: &mut H,
    ) -> Result<MergeSpec, BuildFault>
        requires { IsMade self.old }
        ensures goes { (files : Files) (s : StateOf) (group : GroupOf) → s.made ≡ made_view self.old → group.place ≡ place →
            TellsFiles files (meaning.luma_made files s group (props_in given.now)) (H.state host.old) →
            Goes (merging_view self.new) result (meaning.luma_made files s group (props_in given.now)) (H.state host.old) (H.state host.new) }
        ensures made { OnOk result (IsMade self.new) }
        ensures more { OnOk result (IsMore self.old self.new) }
        ensures range { IfOk result IsMerge }
        ensures maps { IfOk result (λ spec. All (HasPicture self.new.table) (maps_of_merge spec)) }
        ensures counts { CountsBuildLoads result (H.state host.old) (H.state host.new) }
        ensures rest { OnlyLoads (H.state host.old) (H.state host.new) }
    {
        let softness = given.share(&row::SOFTNESS)?;
        let map = self.map_made(alloc, place, given.file_name(&row::RESOURCE), host)?;
        Ok(MergeSpec::Luma {
            map,
            softness: Q16(softness),
        })
    }

    /// The merge of a kind, with its properties, for the word at a place.
    pub(crate) fn merge_made<H: Host>(
        &mut self,
        alloc: Global,
        profile: &Profile,
        kind: MergeKind,
        place: u32,
        given: &Properties<'_, '_, '_>,
        host: &mut H,
    ) -> Result<MergeSpec, BuildFault>
        requires { IsMade self.old }
        ensures goes { (files : Files) (s : StateOf) (group : GroupOf) → s.made ≡ made_view self.old → s.profile ≡ measures_of profile.now → group.place ≡ place →
            TellsFiles files (meaning.merge_made files s group kind (props_in given.now)) (H.state host.old) →
            Goes (merging_view self.new) result (meaning.merge_made files s group kind (props_in given.now)) (H.state host.old) (H.state host.new) }
        ensures made { OnOk result (IsMade self.new) }
        ensures more { OnOk result (IsMore self.old self.new) }
        ensures range { IfOk result IsMerge }
        ensures maps { IfOk result (λ spec. All (HasPicture self.new.table) (maps_of_merge spec)) }
        ensures counts { CountsBuildLoads result (H.state host.old) (H.state host.new) }
        ensures rest { OnlyLoads (H.state host.old) (H.state host.new) }
    {
        if kind == MergeKind::Luma {
            self.luma_made(alloc, place, given, host)
        } else {
            lifted(merge_read(profile, kind, place, given))
        }
    }
}

/// The merge of a kind that looks up no file, with its properties, for the word at a place.
#[tactic(auto, unfolding(mlt_tree::specs::Merging::merge_made))]
fn merge_read(
    profile: &Profile,
    kind: MergeKind,
    place: u32,
    given: &Properties<'_, '_, '_>,
) -> Result<MergeSpec, Try<Refusal>>
    requires { kind ≢ merge.Luma }
    ensures value { (files : Files) (s : StateOf) (group : GroupOf) → s.profile ≡ measures_of profile.now → group.place ≡ place →
        ReadGives (λ spec. record { made = s.made; spec = spec }) result (meaning.merge_made files s group kind (props_in given.now)) }
    ensures range { IfOk result IsMerge }
    ensures maps { IfOk result (λ spec. maps_of_merge spec ≡ []) }
{
    match kind {
        MergeKind::Luma => unreachable!(),
        MergeKind::Composite => Ok(MergeSpec::Composite {
            geometry: given.area(&row::GEOMETRY, profile)?,
        }),
        MergeKind::Matte => Ok(MergeSpec::Matte),
        MergeKind::Mix | MergeKind::Sum => {
            Err(Try::Fault(Refusal::at(place, Cause::Unsupported)))
        }
    }
}
