//! The tracks of a tractor that is not made yet.

ghost use Rattle.std.specs.Prelude.{◌≡◌, ◌≤◌, [], length, All, IfOk, OnOk, OnErr};
ghost use Rattle.std.specs.Borrow.{sem};
ghost use Rattle.mlt_base.specs.declared.limits.TheConstants.{MOST_TRACKS};
ghost use Rattle.mlt_playlist.specs.Playlist.{IsList};
ghost use Rattle.mlt_graph.specs.Drafts.{IsOpenSpan, IsPlanned, Begins};
ghost use Rattle.mlt_graph.specs.Graph.{tractor_fault};
ghost use Rattle.mlt_graph.specs.LevelLends.{LendsLast};
ghost use Rattle.mlt_graph.specs.Lists.{starts_in};
ghost use Rattle.mlt_graph.specs.Sizes.{drafts_size};
ghost use Rattle.mlt_tree.specs.Ranges.{IsFilter, IsMerge};
ghost use Rattle.mlt_tree.specs.Units.{empty_level, new_track, drafts_of, tractor_of, with_plant, with_track_filter, AreEntriesBelow};
ghost use Rattle.mlt_tree.specs.declared.draft.PendingPlant.TheVariants.{OnTrack, Between};

use crate::closed::{Closed, longest};
use crate::fault::GraphFault;
use crate::misplaced::first_fault;
use crate::pending::planted_all;
use crate::size::Size;
use mlt_base::limits::MOST_TRACKS;
use mlt_base::{PlayFault, Try};
use mlt_index::Starts;
use mlt_playlist::Playlist;
use mlt_tree::{Body, FilterSpec, Hide, ItemList, MergeSpec, Pending, PendingPlant};
use std::alloc::{AllocError, Global};
use std::marker::Model;
use std::mem;

/// The tracks of a tractor that is not made yet: at least one and at most 256, of which entries are added
/// to the last, and what is planted on them. Contracts see a level as `specs/Units` of `mlt_tree` does, by
/// the same fields.
///
/// A level has fewer than 2^32 plants, and a call that would make it more answers want of memory. A plant
/// may be on tracks that aren't there yet; whether they are is looked at when the tractor is made.
#[derive(Drop)]
pub struct Level {
    // the tracks below the last one, to which nothing is added any more
    closed: Vec<Closed>,
    // the last one, by its entries, filters and hide
    list: Playlist,
    filters: ItemList<Pending>,
    hide: Hide,
    plants: ItemList<PendingPlant>,
}

impl Model for Level {
    ghost use Rattle.mlt_tree.specs.Units.{Level};
    ghost use Rattle.mlt_graph.specs.Drafts.{IsLevel};

    ghost Value = { Level };

    ghost view = { λ l. record { closed = l.closed.items; current = record { entries = l.list; filters = l.filters; hide = l.hide }; plants = l.plants } };

    ghost invariant = { λ l. IsLevel (record { closed = l.closed.items; current = record { entries = l.list; filters = l.filters; hide = l.hide }; plants = l.plants }) };
}

impl Level {
    /// One track with no entry, which gives both media. Its place among the tracks of the tractor is
    /// taken at once.
    pub fn new(alloc: Global) -> Result<Level, AllocError>
        ensures { IfOk result (λ level. level ≡ empty_level) }
    {
        Ok(Level {
            closed: Vec::with_capacity(alloc, 1)?,
            list: Playlist::new(alloc),
            filters: ItemList::new(alloc),
            hide: Hide {
                video: false,
                audio: false,
            },
            plants: ItemList::new(alloc),
        })
    }

    /// How many tracks there are.
    pub fn tracks(&self) -> u32
        ensures value { result ≡ length (drafts_of self.now) }
        ensures some { 1 ≤ result }
        ensures few { result ≤ MOST_TRACKS }
        ensures lists { All (λ draft. IsList draft.entries) (drafts_of self.now) }
    {
        // its list is a playlist's, as those of the others are
        let _ = self.list.count();
        self.closed.len() as u32 + 1
    }

    /// Why no tractor is made of the tracks, which have so many frames at most.
    pub(crate) fn fault(&self, frames: u32) -> Option<GraphFault>
        ensures { result ≡ tractor_fault self.now frames }
    {
        let misplaced = first_fault(self.plants.as_slice(), self.tracks());
        if misplaced.is_some() {
            return misplaced;
        }
        if frames == 0 {
            return Some(GraphFault::NoProducer);
        }
        None
    }

    /// The size of the tracks, whose units are in the table.
    pub(crate) fn size(&self, table: &[Size]) -> Size
        requires { All (λ draft. AreEntriesBelow (length table.now) draft.entries) (drafts_of self.now) }
        ensures { result ≡ drafts_size table.now (drafts_of self.now) }
    {
        let closed = Size::of_drafts(table, self.closed.as_slice());
        closed.under(Size::of_entries(table, self.list.as_slice()))
    }

    /// The tractor, and where the entries of each of its tracks begin.
    pub(crate) fn into_body(self, alloc: Global) -> Result<(Body, ItemList<Starts>), AllocError>
        ensures body { IfOk result (λ made. made.0 ≡ (tractor_of self).body) }
        ensures starts { IfOk result (λ made. made.1 ≡ starts_in (tractor_of self).body) }
    {
        let Level {
            mut closed,
            list,
            filters,
            hide,
            plants,
        } = self;
        closed.push(Closed {
            list,
            filters,
            hide,
        })?;
        let plants = planted_all(alloc, longest(closed.as_slice()), plants)?;
        let mut tracks = Vec::with_capacity(alloc, closed.len())?;
        let mut starts = Vec::with_capacity(alloc, closed.len())?;
        for draft in closed {
            let (track, begins) = draft.into_track(alloc)?;
            tracks.push(track)?;
            starts.push(begins)?;
        }
        let body = Body::Tractor {
            tracks: ItemList::from_vec(tracks),
            plants,
        };
        Ok((body, ItemList::from_vec(starts)))
    }

    /// Begins a track above the others, which entries are added to from now on; it gives nothing for the media
    /// that are hidden. Where the last track has no entry it stays the last, with its filters, and gets the hide.
    ///
    /// Refused is a track above 256 (`TooMany`). After a refusal, or want of memory, the level is as it was.
    pub fn new_track(&mut self, hide: Hide) -> Result<(), Try<PlayFault>>
        ensures { Begins (new_track self.old hide) self.old self.new result }
    {
        if self.list.count() == 0 {
            self.hide = hide;
            return Ok(());
        }
        if self.tracks() >= MOST_TRACKS {
            return Err(Try::Fault(PlayFault::TooMany { limit: MOST_TRACKS }));
        }
        self.closed.reserve(1)?;
        let alloc = *self.closed.allocator();
        let track = Closed {
            list: mem::replace(&mut self.list, Playlist::new(alloc)),
            filters: mem::replace(&mut self.filters, ItemList::new(alloc)),
            hide: mem::replace(&mut self.hide, hide),
        };
        self.closed.push(track)?;
        Ok(())
    }

    /// Plants a filter on a track, by its number from 0, behind what is planted already, from its first position
    /// to its last; where no last is given it acts to the end of the finished tractor. Both are positions of the
    /// tractor, which may not have them yet, nor the track. After want of memory the level is as it was.
    pub fn plant_filter(
        &mut self,
        track: u32,
        spec: FilterSpec,
        first: u32,
        last: Option<u32>,
    ) -> Result<(), AllocError>
        requires filter { IsFilter spec }
        requires span { IsOpenSpan first last }
        ensures ok { OnOk result (self.new ≡ with_plant self.old (OnTrack track spec first last)) }
        ensures err { OnErr result (self.new ≡ self.old) }
    {
        self.plant(PendingPlant::OnTrack {
            track,
            spec,
            first,
            last,
        })
    }

    /// Plants a merge of two tracks, by their numbers from 0, behind what is planted already, from its first
    /// position to its last; where no last is given it acts to the end of the finished tractor. Both are positions
    /// of the tractor, which may not have them yet, nor the tracks. After want of memory the level is as it was.
    pub fn plant_merge(
        &mut self,
        a: u32,
        b: u32,
        spec: MergeSpec,
        first: u32,
        last: Option<u32>,
    ) -> Result<(), AllocError>
        requires merge { IsMerge spec }
        requires span { IsOpenSpan first last }
        ensures ok { OnOk result (self.new ≡ with_plant self.old (Between a b spec first last)) }
        ensures err { OnErr result (self.new ≡ self.old) }
    {
        self.plant(PendingPlant::Between {
            a,
            b,
            spec,
            first,
            last,
        })
    }

    /// Puts a plant behind those that there are.
    fn plant(&mut self, plant: PendingPlant) -> Result<(), AllocError>
        requires { IsPlanned plant }
        ensures ok { OnOk result (self.new ≡ with_plant self.old plant) }
        ensures err { OnErr result (self.new ≡ self.old) }
    {
        if self.plants.count() >= u32::MAX as usize {
            return Err(AllocError);
        }
        match self.plants.push(plant) {
            Ok(()) => Ok(()),
            Err(_) => Err(AllocError),
        }
    }

    /// Adds a filter to the last track, which acts after those that it has, from its first position to its
    /// last; where no last is given it acts to the end of the finished track. Both are positions of the track,
    /// which may not have them yet. After want of memory the level is as it was.
    pub fn attach_track(
        &mut self,
        spec: FilterSpec,
        first: u32,
        last: Option<u32>,
    ) -> Result<(), AllocError>
        requires filter { IsFilter spec }
        requires span { IsOpenSpan first last }
        ensures ok { OnOk result (self.new ≡ with_track_filter self.old (record { spec = spec; first = first; last = last })) }
        ensures err { OnErr result (self.new ≡ self.old) }
    {
        match self.filters.push(Pending { spec, first, last }) {
            Ok(()) => Ok(()),
            Err(_) => Err(AllocError),
        }
    }

    /// The entries of the last track.
    pub fn last_list(&self) -> &Playlist
        ensures { result.now ≡ self.now.current.entries }
    {
        &self.list
    }

    /// The entries of the last track, to be changed.
    pub fn last(&mut self) -> &mut Playlist
        ensures* lends { sem 𝓛 (LendsLast self.entry result) }
        ensures list { result.now ≡ self.old.current.entries }
    {
        &mut self.list
    }
}
