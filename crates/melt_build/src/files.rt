//! The files that words name, and the sources that are made of them.

ghost use Rattle.std.specs.Prelude.{◌≡◌, ◌≤◌, ◌<◌, ◌-◌, ◌^◌, length, All, IfOk, OnOk};
ghost use Rattle.std.specs.Option.{option_copied};
ghost use Rattle.mlt_base.specs.ProfileView.{measures_of};
ghost use Rattle.mlt_base.specs.Ppm.{ppm};
ghost use Rattle.mlt_base.specs.Try.{TryGives};
ghost use Rattle.mlt_host.specs.Host.{OnlyLoads};
ghost use Rattle.mlt_tree.specs.Loaded.{load_limit, file_within, picture_in, picture_loaded as picture_loaded_of, picture_made as picture_made_of};
ghost use Rattle.mlt_tree.specs.Loading.{Files};
ghost use Rattle.mlt_tree.specs.Merging.{map_made as map_made_of};
ghost use Rattle.mlt_tree.specs.Sources.{HasPicture, numbered};
ghost use Rattle.melt_build.specs.Clips.{wanted_view, product_view};
ghost use Rattle.melt_build.specs.Loads.{TellsFiles, Goes, CountsBuildLoads};
ghost use Rattle.melt_build.specs.State.{IsMade, IsMore, made_view};

use crate::fault::BuildFault;
use crate::state::Made;
use crate::wanted::{Product, Wanted};
use mlt_base::{Profile, SourceNo, Still, Try};
use mlt_host::{Host, LoadFault};
use mlt_source::Source;
use mlt_tree::limits::{MOST_LOADED, MOST_OF_FILE};
use mlt_tree::{Cause, Refusal};
use std::alloc::Global;

/// How many bytes the next file may have, where so many bytes are loaded.
fn load_limit(loaded: u64) -> u64
    requires { loaded ≤ MOST_LOADED }
    ensures value { result ≡ load_limit loaded }
    ensures left { result ≤ MOST_LOADED - loaded }
{
    MOST_OF_FILE.min(MOST_LOADED - loaded)
}

/// The file of a name, for the word at a place; it is refused where it is longer than a limit.
fn load<H: Host>(
    alloc: Global,
    place: u32,
    name: &str,
    limit: u64,
    host: &mut H,
) -> Result<Vec<u8>, BuildFault>
    ensures goes { (files : Files) → TellsFiles files (file_within files place name.now limit) (H.state host.old) →
        Goes (λ bytes. bytes.items) result (file_within files place name.now limit) (H.state host.old) (H.state host.new) }
    ensures within { IfOk result (λ bytes. length bytes.items ≤ limit) }
    ensures counts { CountsBuildLoads result (H.state host.old) (H.state host.new) }
    ensures rest { OnlyLoads (H.state host.old) (H.state host.new) }
{
    match host.load(alloc, name, limit) {
        Ok(bytes) => Ok(bytes),
        Err(LoadFault::Missing) => Err(BuildFault::SourceFault(place)),
        Err(LoadFault::Failed) => Err(BuildFault::SourceFault(place)),
        Err(LoadFault::TooLarge(_)) => Err(BuildFault::Refused(Refusal::at(
            place,
            Cause::FileTooLarge { limit },
        ))),
        Err(LoadFault::Memory) => Err(BuildFault::Memory),
    }
}

/// What a picture's file holds, for the word at a place.
fn picture_in(alloc: Global, place: u32, bytes: &[u8]) -> Result<Still, Try<Refusal>>
    ensures { TryGives (λ still. still) result (picture_in place (ppm bytes.now)) }
{
    match mlt_ppm::read(alloc, bytes) {
        Ok(still) => Ok(still),
        Err(Try::Fault(fault)) => Err(Try::Fault(Refusal::at(place, Cause::from(fault)))),
        Err(Try::Memory) => Err(Try::Memory),
    }
}

impl Made {
    /// The picture of a file, for the word at a place; its bytes are counted.
    fn picture_loaded<H: Host>(
        &mut self,
        alloc: Global,
        place: u32,
        name: &str,
        host: &mut H,
    ) -> Result<Still, BuildFault>
        requires { IsMade self.old }
        ensures goes { (files : Files) → TellsFiles files (picture_loaded_of files (made_view self.old) place name.now) (H.state host.old) →
            Goes (λ picture. (made_view self.new, picture)) result (picture_loaded_of files (made_view self.old) place name.now) (H.state host.old) (H.state host.new) }
        ensures made { OnOk result (IsMade self.new) }
        ensures graph { OnOk result (self.new.graph ≡ self.old.graph) }
        ensures table { OnOk result (self.new.table ≡ self.old.table) }
        ensures counts { CountsBuildLoads result (H.state host.old) (H.state host.new) }
        ensures rest { OnlyLoads (H.state host.old) (H.state host.new) }
    {
        let bytes = load(alloc, place, name, load_limit(self.loaded), host)?;
        let picture = picture_in(alloc, place, bytes.as_slice())?;
        self.loaded += bytes.len() as u64;
        Ok(picture)
    }

    /// The source of a picture's file, for the word at a place.
    pub(crate) fn picture_made<H: Host>(
        &mut self,
        alloc: Global,
        profile: &Profile,
        place: u32,
        name: &str,
        asked: Wanted,
        host: &mut H,
    ) -> Result<Product, BuildFault>
        requires { IsMade self.old }
        ensures goes { (files : Files) → TellsFiles files (picture_made_of files (measures_of profile.now) (made_view self.old) place name.now (wanted_view asked)) (H.state host.old) →
            Goes (product_view self.new) result (picture_made_of files (measures_of profile.now) (made_view self.old) place name.now (wanted_view asked)) (H.state host.old) (H.state host.new) }
        ensures made { OnOk result (IsMade self.new) }
        ensures more { OnOk result (IsMore self.old self.new) }
        ensures there { IfOk result (λ product. product.unit.0 < length self.new.graph) }
        ensures frames { IfOk result (λ product. (1 ≤ product.frames) × (product.frames < 2 ^ 31)) }
        ensures counts { CountsBuildLoads result (H.state host.old) (H.state host.new) }
        ensures rest { OnlyLoads (H.state host.old) (H.state host.new) }
    {
        let picture = self.picture_loaded(alloc, place, name, host)?;
        Ok(self.source_made(profile, Source::Still(picture), asked)?)
    }

    /// The source of a map, for the word at a place, where a file is named.
    pub(crate) fn map_made<H: Host>(
        &mut self,
        alloc: Global,
        place: u32,
        name: Option<&str>,
        host: &mut H,
    ) -> Result<Option<SourceNo>, BuildFault>
        requires { IsMade self.old }
        ensures goes { (files : Files) → TellsFiles files (map_made_of files (made_view self.old) place (option_copied name.entry)) (H.state host.old) →
            Goes (λ map. (made_view self.new, map)) result (map_made_of files (made_view self.old) place (option_copied name.entry)) (H.state host.old) (H.state host.new) }
        ensures made { OnOk result (IsMade self.new) }
        ensures more { OnOk result (IsMore self.old self.new) }
        ensures there { IfOk result (λ map. All (HasPicture self.new.table) (numbered map)) }
        ensures counts { CountsBuildLoads result (H.state host.old) (H.state host.new) }
        ensures rest { OnlyLoads (H.state host.old) (H.state host.new) }
    {
        match name {
            None => Ok(None),
            Some(name) => {
                let picture = self.picture_loaded(alloc, place, name, host)?;
                Ok(Some(self.table.add_still(picture)?))
            }
        }
    }
}
