//! What is played in the end.

ghost use Rattle.std.specs.Prelude.{◌≡◌, ◌≤◌, ◌<◌, ◌^◌, length, map};
ghost use Rattle.mlt_tree.specs.Edits.{clip_at};
ghost use Rattle.mlt_tree.specs.Ranges.{frames};
ghost use Rattle.mlt_tree.specs.Sizes.{need, ops};
ghost use Rattle.mlt_tree.specs.Tree.{len};
ghost use Rattle.mlt_graph.specs.Lists.{lists_of, list_of, HaveStarts};
ghost use Rattle.mlt_graph.specs.Sealed.{tree, IsSealed, IsKept};

use mlt_base::{Pos, Steps, UnitId};
use mlt_index::Starts;
use mlt_tree::{ItemList, Node};
use std::marker::Model;

/// Units of a graph, to which no more are added, and the one of them that is played.
///
/// Contracts see it as [`Shown`], the list of the units and the number of that one; it stands for the tree
/// of that unit. The unit has 1 to 2^31 - 1 frames, is nested 16 deep at most and has a weight of 65,536 at most.
#[derive(Drop)]
pub struct Sealed {
    nodes: Vec<Node>,
    // where the entries of each list of each unit begin
    starts: Vec<ItemList<Starts>>,
    top: UnitId,
    length: u32,
    need: u32,
    ops: u32,
}

impl Model for Sealed {
    ghost use Rattle.mlt_graph.specs.Lists.{HaveStarts};
    ghost use Rattle.mlt_graph.specs.Sealed.{Shown, IsKept};

    ghost Value = { Shown };

    ghost view = { λ s. record { units = s.nodes.items; top = s.top.0 } };

    ghost invariant = { λ s. IsKept (record { units = s.nodes.items; top = s.top.0 }) s.length s.need s.ops × HaveStarts s.nodes.items s.starts.items };
}

impl Sealed {
    /// The unit `top` of these, with its numbers.
    pub(crate) fn new(
        nodes: Vec<Node>,
        starts: Vec<ItemList<Starts>>,
        top: UnitId,
        length: u32,
        need: u32,
        ops: u32,
    ) -> Sealed
        requires kept { IsKept (record { units = nodes.items; top = top.0 }) length need ops }
        requires starts { HaveStarts nodes.items starts.items }
        ensures { result ≡ record { units = nodes.items; top = top.0 } }
    {
        Sealed {
            nodes,
            starts,
            top,
            length,
            need,
            ops,
        }
    }

    /// How many frames are played at most.
    pub fn length(&self) -> u32
        ensures value { result ≡ len (tree self.now) }
        ensures some { 1 ≤ result }
        ensures short { result < 2 ^ 31 }
    {
        self.length
    }

    /// How many picture buffers it takes to work a frame out.
    pub fn need(&self) -> u32
        ensures value { result ≡ need (tree self.now) }
        ensures few { result ≤ 4369 }
    {
        self.need
    }

    /// How many operations it takes at most to work a frame out.
    pub fn ops(&self) -> u32
        ensures value { result ≡ ops (tree self.now) }
        ensures few { result ≤ 131072 }
    {
        self.ops
    }

    /// The number of the unit that is played.
    pub fn top(&self) -> UnitId
        ensures number { result.0 ≡ self.now.top }
        ensures there { result.0 < length self.now.units }
    {
        self.top
    }

    /// All units, by their numbers.
    pub fn units(&self) -> &[Node]
        ensures units { result.now ≡ self.now.units }
        ensures sealed { IsSealed self.now }
    {
        self.nodes.as_slice()
    }

    /// Where the entries of a list of a unit begin.
    fn starts(&self, unit: usize, list: usize) -> &Starts
        requires { list < length (lists_of self.now.units unit) }
        ensures { result.now ≡ map frames (list_of self.now.units unit list) }
    {
        &self.starts[unit].as_slice()[list]
    }

    /// The index of the entry of a list that has a position, and the place in that entry; `None` exactly where
    /// the position isn't below the length of the list. A unit of entries has list 0, a tractor has one list
    /// a track, by the number of the track, and a source has none.
    pub fn find(&self, unit: usize, list: usize, at: u32) -> Option<(usize, u32)>
        requires { list < length (lists_of self.now.units unit) }
        ensures { result ≡ clip_at (list_of self.now.units unit list) at }
    {
        let (entry, place) = self.starts(unit, list).find(Pos(at), &mut Steps::new())?;
        Some((entry, place.0))
    }
}
