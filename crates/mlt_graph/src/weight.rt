//! How much there is in units, which is worked out when they are sealed.

ghost use Rattle.std.specs.Prelude.{◌≡◌, ◌<◌, length, All};
ghost use Rattle.mlt_tree.specs.Units.{entries_of, AreEntriesBelow, IsBodyBelow, IsEntryBelow, IsGraph, IsTrackBelow, tree_of};
ghost use Rattle.mlt_graph.specs.Sizes.{kept};
ghost use Rattle.mlt_graph.specs.Weights.{weightless, single, with_filters, entry_weight, heavier, entries_weight, together, track_weight, tracks_weight, choosing, body_weight, node_weight, weight_of, Weighs};

use mlt_tree::{Body, Entry, Node, Track};

/// How much there is in a unit, and the operations that a frame of it takes at most, each number held to
/// 2^32 - 1.
#[derive(Clone, Copy, Debug)]
pub(crate) struct Weight {
    pub weight: u32,
    pub ops: u32,
}

impl Weight {
    /// Nothing at all.
    pub fn none() -> Weight
        ensures { result ≡ weightless }
    {
        Weight { weight: 0, ops: 0 }
    }

    /// A source, or a blank.
    fn single() -> Weight
        ensures { result ≡ single }
    {
        Weight { weight: 1, ops: 1 }
    }

    /// This, with so many filters on it.
    fn with_filters(self, filters: usize) -> Weight
        ensures { result ≡ with_filters filters self }
    {
        let filters = held(filters);
        Weight {
            weight: self.weight.saturating_add(filters),
            ops: self.ops.saturating_add(filters),
        }
    }

    /// The heavier of two.
    fn heavier(self, other: Weight) -> Weight
        ensures { result ≡ heavier self other }
    {
        Weight {
            weight: self.weight.max(other.weight),
            ops: self.ops.max(other.ops),
        }
    }

    /// Both.
    fn together(self, other: Weight) -> Weight
        ensures { result ≡ together self other }
    {
        Weight {
            weight: self.weight.saturating_add(other.weight),
            ops: self.ops.saturating_add(other.ops),
        }
    }

    /// One of so many tracks is chosen.
    fn choosing(self, tracks: usize) -> Weight
        ensures { result ≡ choosing tracks self }
    {
        Weight {
            weight: self.weight,
            ops: self.ops.saturating_add(u32::from(tracks > 1)),
        }
    }

    /// An entry, whose unit is in the table.
    fn of_entry(table: &[Weight], entry: &Entry) -> Weight
        requires { IsEntryBelow (length table.now) entry.now }
        ensures { result ≡ entry_weight table.now entry.now }
    {
        match entry {
            Entry::Clip { unit, filters, .. } => {
                table[unit.0 as usize].with_filters(filters.count())
            }
            Entry::Gap { .. } => Weight::single(),
        }
    }

    /// Entries, one after another.
    fn of_entries(table: &[Weight], entries: &[Entry]) -> Weight
        requires { All (IsEntryBelow (length table.now)) entries.now }
        ensures { result ≡ entries_weight table.now entries.now }
    {
        let mut weight = Weight::single();
        for entry in entries {
            weight = weight.heavier(Weight::of_entry(table, entry));
        }
        weight
    }

    /// A track, whose units are in the table.
    fn of_track(table: &[Weight], track: &Track) -> Weight
        requires { All (IsEntryBelow (length table.now)) (entries_of track.now) }
        ensures { result ≡ track_weight table.now track.now }
    {
        match track {
            Track::Playlist {
                entries,
                filters,
                ..
            } => Weight::of_entries(table, entries.as_slice()).with_filters(filters.count()),
            Track::Half { entry, .. } => Weight::of_entry(table, entry),
        }
    }

    /// Tracks, over each other.
    fn of_tracks(table: &[Weight], tracks: &[Track]) -> Weight
        requires { All (λ track. All (IsEntryBelow (length table.now)) (entries_of track)) tracks.now }
        ensures { result ≡ tracks_weight table.now tracks.now }
    {
        let mut weight = Weight::none();
        for track in tracks {
            weight = weight.together(Weight::of_track(table, track));
        }
        weight
    }

    /// What a unit is made of, all of whose units are in the table.
    fn of_body(table: &[Weight], body: &Body) -> Weight
        requires { IsBodyBelow (length table.now) body.now }
        ensures { result ≡ body_weight table.now body.now }
    {
        match body {
            Body::Source { .. } => Weight::single(),
            Body::Entries { entries } => Weight::of_entries(table, entries.as_slice()),
            Body::Tractor { tracks, plants } => {
                Weight::of_tracks(table, tracks.as_slice())
                    .with_filters(plants.count())
                    .choosing(tracks.count())
            }
        }
    }

    /// A unit, all of whose units are in the table.
    fn of_node(table: &[Weight], node: &Node) -> Weight
        requires { IsBodyBelow (length table.now) node.now.body }
        ensures { result ≡ node_weight table.now node.now }
    {
        Weight::of_body(table, &node.body).with_filters(node.filters.count())
    }
}

/// The least of a number and 2^32 - 1.
fn held(count: usize) -> u32
    ensures { result ≡ kept count }
{
    count.min(u32::MAX as usize) as u32
}

/// Fills the weight of each unit into the table, in the order of the units: each is made of lower ones.
fn weigh(nodes: &[Node], table: &mut [Weight])
    requires graph { IsGraph nodes.now }
    requires long { length table.old ≡ length nodes.now }
    ensures long { length table.new ≡ length nodes.now }
    ensures told { Weighs table.new (tree_of nodes.now) (length nodes.now) }
{
    for unit in 0..nodes.len() {
        table[unit] = Weight::of_node(table, &nodes[unit]);
    }
}

/// The weight of a unit, by a table that has room for one weight of each.
pub(crate) fn weight_of(nodes: &[Node], table: Vec<Weight>, unit: usize) -> Weight
    requires graph { IsGraph nodes.now }
    requires long { length table.items ≡ length nodes.now }
    requires there { unit < length nodes.now }
    ensures { result ≡ weight_of (tree_of nodes.now unit) }
{
    let mut table = table;
    weigh(nodes, table.as_mut_slice());
    table[unit]
}
