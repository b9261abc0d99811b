//! Units that refer to each other.

ghost use Rattle.std.specs.Prelude.{◌≡◌, ◌≤◌, ◌<◌, ◌^◌, [], ◌∷◌, ◌++◌, length, All, IfOk, OnOk, OnErr};
ghost use Rattle.mlt_tree.specs.Edits.{frames_in};
ghost use Rattle.mlt_tree.specs.Ranges.{IsAttached, IsMerge, frames};
ghost use Rattle.mlt_tree.specs.Tree.{len};
ghost use Rattle.mlt_tree.specs.Units.{source_unit, list_unit, mix_unit, node_tree, drafts_of, tractor_of, with_filter, with_unit_filter, with_mixer, tree_of, body_depth, depth_of, IsEntryBelow, AreEntriesBelow, IsBodyBelow, IsMix};
ghost use Rattle.mlt_graph.specs.Graph.{HasLength, HasFewTracks, tractor_fault, FailsBy};
ghost use Rattle.mlt_graph.specs.Lists.{starts_in};
ghost use Rattle.mlt_graph.specs.Seal.{sealed_within};
ghost use Rattle.mlt_graph.specs.Sizes.{size_of};

use crate::fault::GraphFault;
use crate::level::Level;
use crate::mix::{both_starts, halves, push_mixer, size_of_mix};
use crate::sealed::Sealed;
use crate::size::Size;
use crate::weight::{Weight, weight_of};
use mlt_base::limits::{MOST_DEPTH, MOST_WEIGHT};
use mlt_base::{SourceNo, UnitId};
use mlt_index::Starts;
use mlt_playlist::{EntryList, MixParts, starts_of};
use mlt_tree::{Attached, Body, FilterList, ItemList, MergeSpec, Node, SourceKind};
use std::alloc::{AllocError, Global};
use std::marker::Model;

/// Units, each of which refers to lower-numbered ones alone. Contracts see a graph as their list.
///
/// Each unit has 1 to 2^31 - 1 frames. A graph has fewer than 2^32 units, and a call that would make it
/// more answers want of memory.
#[derive(Drop)]
pub struct Graph {
    nodes: Vec<Node>,
    // the size of each unit, so that none is walked again
    sizes: Vec<Size>,
    // the weight of each unit, once they are sealed
    weights: Vec<Weight>,
    // where the entries of each list of each unit begin
    starts: Vec<ItemList<Starts>>,
}

impl Model for Graph {
    ghost use Rattle.std.specs.Prelude.{List};
    ghost use Rattle.mlt_tree.specs.declared.node.Node.{Node};
    ghost use Rattle.mlt_graph.specs.Graph.{IsBuilt};

    ghost Value = { List Node };

    ghost view = { λ g. g.nodes.items };

    ghost invariant = { λ g. IsBuilt g.nodes.items g.sizes.items g.weights.items g.starts.items };
}

impl Graph {
    /// A graph with no unit. It takes no memory.
    pub fn new(alloc: Global) -> Graph
        ensures { result ≡ [] }
    {
        Graph {
            nodes: Vec::new(alloc),
            sizes: Vec::new(alloc),
            weights: Vec::new(alloc),
            starts: Vec::new(alloc),
        }
    }

    /// The number of the unit that is added next.
    pub fn next_id(&self) -> UnitId
        ensures { result.0 ≡ length self.now }
    {
        UnitId(self.nodes.len() as u32)
    }

    /// How many frames a unit has.
    pub fn length_of(&self, unit: UnitId) -> u32
        requires { unit.0 < length self.now }
        ensures value { result ≡ len (tree_of self.now unit.0) }
        ensures some { 1 ≤ result }
        ensures short { result < 2 ^ 31 }
    {
        self.sizes[unit.0 as usize].length
    }

    /// Adds the unit of a source of so many frames. After want of memory the graph is as it was.
    pub fn add_source(
        &mut self,
        no: SourceNo,
        kind: SourceKind,
        frames: u32,
    ) -> Result<UnitId, AllocError>
        requires some { 1 ≤ frames }
        requires short { frames < 2 ^ 31 }
        ensures ok { OnOk result (self.new ≡ self.old ++ source_unit no kind frames ∷ []) }
        ensures id { IfOk result (λ id. id.0 ≡ length self.old) }
        ensures err { OnErr result (self.new ≡ self.old) }
    {
        let starts = ItemList::new(*self.nodes.allocator());
        self.add(
            Body::Source { no, kind, frames },
            Size::plain(frames),
            starts,
        )
    }

    /// Adds the unit of these entries, one after another. After want of memory the graph is as it was.
    pub fn add_list(&mut self, entries: EntryList) -> Result<UnitId, AllocError>
        requires below { AreEntriesBelow (length self.old) entries }
        requires some { 1 ≤ frames_in entries }
        requires short { frames_in entries < 2 ^ 31 }
        ensures ok { OnOk result (self.new ≡ self.old ++ list_unit entries ∷ []) }
        ensures id { IfOk result (λ id. id.0 ≡ length self.old) }
        ensures err { OnErr result (self.new ≡ self.old) }
    {
        let size = Size::of_entries(&self.sizes, entries.as_slice()).list();
        let alloc = *self.nodes.allocator();
        let starts = only(alloc, starts_of(alloc, entries.as_slice())?)?;
        self.add(Body::Entries { entries }, size, starts)
    }

    /// Adds the tractor of a level's tracks, which drops the level where it is refused. After a refusal
    /// the graph is as it was.
    ///
    /// The plants are looked at in their order: `BadTrack` comes where the track of one isn't there, or the
    /// first or the second of a merge, and `SameTrack` where both are one track. `NoProducer` comes next,
    /// where no track has a frame, else `Memory` may.
    pub fn add_tractor(&mut self, level: Level) -> Result<UnitId, GraphFault>
        requires { All (λ draft. All (IsEntryBelow (length self.old)) draft.entries) (drafts_of level) }
        ensures ok { OnOk result (self.new ≡ self.old ++ tractor_of level ∷ []) }
        ensures id { IfOk result (λ id. id.0 ≡ length self.old) }
        ensures err { OnErr result (self.new ≡ self.old) }
        ensures fault { FailsBy (tractor_fault level (len (node_tree (tree_of self.old) (tractor_of level)))) result }
    {
        let count = level.tracks();
        let size = level.size(&self.sizes);
        if let Some(fault) = level.fault(size.length) {
            return Err(fault);
        }
        let alloc = *self.nodes.allocator();
        let Ok((body, starts)) = level.into_body(alloc) else {
            return Err(GraphFault::Memory);
        };
        match self.add(body, size.tractor(count), starts) {
            Ok(id) => Ok(id),
            Err(_) => Err(GraphFault::Memory),
        }
    }

    /// Adds the unit of a mix over so many frames: its two parts over each other, each with its own frames, of
    /// which no merge makes one yet. After want of memory the graph is as it was.
    pub fn add_mix(&mut self, parts: MixParts) -> Result<UnitId, AllocError>
        requires below { AreEntriesBelow (length self.old) (parts.a ∷ parts.b ∷ []) }
        requires some { 1 ≤ parts.frames }
        requires short { parts.frames < 2 ^ 31 }
        requires halves { (frames parts.a < 2 ^ 31) × (frames parts.b < 2 ^ 31) }
        ensures ok { OnOk result (self.new ≡ self.old ++ mix_unit parts.a parts.b parts.frames ∷ []) }
        ensures id { IfOk result (λ id. id.0 ≡ length self.old) }
        ensures err { OnErr result (self.new ≡ self.old) }
    {
        let MixParts { a, b, frames } = parts;
        let size = size_of_mix(&self.sizes, &a, &b);
        let alloc = *self.nodes.allocator();
        let starts = both_starts(alloc, &a, &b)?;
        let body = Body::Tractor {
            tracks: halves(alloc, a, b, frames)?,
            plants: ItemList::new(alloc),
        };
        self.add(body, size, starts)
    }

    /// Adds a merge to a mix, over as many frames as the mix was added with, which acts after those that it has.
    /// After want of memory the graph is as it was.
    pub fn add_mixer(&mut self, unit: UnitId, spec: MergeSpec) -> Result<(), AllocError>
        requires mix { IsMix self.old unit.0 }
        requires range { IsMerge spec }
        ensures ok { OnOk result (self.new ≡ with_mixer self.old unit.0 spec) }
        ensures err { OnErr result (self.new ≡ self.old) }
    {
        push_mixer(&mut self.nodes[unit.0 as usize], spec)?;
        Ok(())
    }

    /// Adds a filter to a unit, which acts after those that it has, in the unit's own positions. After want
    /// of memory the graph is as it was.
    pub fn attach(&mut self, unit: UnitId, filter: Attached) -> Result<(), AllocError>
        requires there { unit.0 < length self.old }
        requires range { IsAttached filter }
        ensures ok { OnOk result (self.new ≡ with_unit_filter self.old unit.0 filter) }
        ensures err { OnErr result (self.new ≡ self.old) }
    {
        push_filter(&mut self.nodes[unit.0 as usize], filter)?;
        Ok(())
    }

    /// Ends the graph: `top` is what is played. It takes no memory.
    ///
    /// `TooDeep` comes where `top` is nested deeper than 16, and then `TooMany` where its weight is above
    /// 65,536; the graph is dropped.
    pub fn seal(self, top: UnitId) -> Result<Sealed, GraphFault>
        requires { top.0 < length self }
        ensures { result ≡ sealed_within self top.0 }
    {
        let Graph {
            nodes,
            sizes,
            weights,
            starts,
        } = self;
        let size = sizes[top.0 as usize];
        if size.depth > MOST_DEPTH {
            return Err(GraphFault::TooDeep { depth: size.depth });
        }
        let weight = weight_of(&nodes, weights, top.0 as usize);
        if weight.weight > MOST_WEIGHT {
            return Err(GraphFault::TooMany { limit: MOST_WEIGHT });
        }
        Ok(Sealed::new(nodes, starts, top, size.length, size.need, weight.ops))
    }

    /// Puts a unit with no filter behind the others.
    fn add(
        &mut self,
        body: Body,
        size: Size,
        starts: ItemList<Starts>,
    ) -> Result<UnitId, AllocError>
        requires below { IsBodyBelow (length self.old) body }
        requires tracks { HasFewTracks body }
        requires frames { HasLength (node_tree (tree_of self.old) (record { body = body; filters = [] })) }
        requires size { size ≡ size_of (node_tree (tree_of self.old) (record { body = body; filters = [] })) (body_depth (depth_of self.old) body) }
        requires starts { starts ≡ starts_in body }
        ensures ok { OnOk result (self.new ≡ self.old ++ record { body = body; filters = [] } ∷ []) }
        ensures id { IfOk result (λ id. id.0 ≡ length self.old) }
        ensures err { OnErr result (self.new ≡ self.old) }
    {
        let id = self.next_id();
        if id.0 == u32::MAX {
            return Err(AllocError);
        }
        let filters = FilterList::new(*self.nodes.allocator());
        // all of them grow, or none does
        self.sizes.reserve(1)?;
        self.weights.reserve(1)?;
        self.starts.reserve(1)?;
        self.nodes.push(Node { body, filters })?;
        self.sizes.push(size)?;
        self.weights.push(Weight::none())?;
        self.starts.push(starts)?;
        Ok(id)
    }
}

/// Puts a filter behind those of a unit.
fn push_filter(node: &mut Node, filter: Attached) -> Result<(), AllocError>
    ensures ok { OnOk result (node.new ≡ with_filter node.old filter) }
    ensures err { OnErr result (node.new ≡ node.old) }
{
    match node.filters.push(filter) {
        Ok(()) => Ok(()),
        Err(_) => Err(AllocError),
    }
}

/// Where the entries of a list begin, as those of a unit that has no other list.
fn only(alloc: Global, starts: Starts) -> Result<ItemList<Starts>, AllocError>
    ensures { IfOk result (λ list. list ≡ starts ∷ []) }
{
    let mut list = Vec::with_capacity(alloc, 1)?;
    list.push(starts)?;
    Ok(ItemList::from_vec(list))
}
