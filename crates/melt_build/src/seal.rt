//! The end of a composition: whether there is something to play, and not too much of it.

ghost use Rattle.std.specs.Prelude.{◌≡◌, ◌≤◌, ◌<◌, ◌+◌, ◌-◌, ◌^◌, ◌++◌, [], ◌∷◌, length, get_or, All, IfOk, None, unwrap_or};
ghost use Rattle.std.specs.Option.{option_map};
ghost use Rattle.mlt_base.specs.declared.limits.TheConstants.{MOST_WRITTEN};
ghost use Rattle.mlt_base.specs.ProfileView.{measures_of};
ghost use Rattle.mlt_base.specs.Try.{Gives, TryGives};
ghost use Rattle.mlt_tree.specs.Composition.{State as StateOf};
ghost use Rattle.mlt_tree.specs.Sealing.{bytes_of, few_frames as few_frames_of, few_bytes as few_bytes_of, ranged as ranged_of, show_of_tree as show_of_tree_of, seal as seal_of, settings_of, default_consumer as default_of};
ghost use Rattle.mlt_tree.specs.Sources.{Fits};
ghost use Rattle.mlt_tree.specs.Tree.{len};
ghost use Rattle.mlt_tree.specs.Unbuilt.{IsPlayed};
ghost use Rattle.mlt_tree.specs.Units.{IsEntryBelow, drafts_of, tractor_of};
ghost use Rattle.mlt_graph.specs.Sealed.{tree};
ghost use Rattle.mlt_graph.specs.Show.{output_view, meant};
ghost use Rattle.melt_build.specs.Built.{checked, refusal_of};
ghost use Rattle.melt_build.specs.State.{IsComposed, consumer_view, cut_view, state_view};

use crate::clips::cut_of;
use crate::consumer::Consumer;
use crate::state::{Made, State};
use crate::wanted::Cut;
use mlt_base::limits::{MOST_BYTES, MOST_WRITTEN};
use mlt_base::{Pos, Profile, Text, Try};
use mlt_graph::{Format, Graph, GraphFault, Level, Output, Pix, Sealed, Show, pairs_of, unit_of};
use mlt_source::SourceTable;
use mlt_tree::{Cause, Refusal, services as row};
use std::alloc::{AllocError, Global};

/// The channels of a consumer's sound.
const CHANNELS: u32 = 2;

/// The bytes that a run holds at most, where one evaluation holds so many buffers.
fn bytes_of(profile: &Profile, c: &Consumer<'_>, need: u32) -> u64
    requires { need ≤ 4369 }
    ensures { result ≡ bytes_of (measures_of profile.now) (consumer_view c.now) need }
{
    let hands = u64::from(c.workers) + 1;
    u64::from(unit_of(profile, pairs_of(CHANNELS)))
        * (u64::from(c.buffer) + hands * u64::from(need) + u64::from(c.cache))
}

/// A range of not too many frames.
fn few_frames(count: u32, range: Cut) -> Result<Cut, Refusal>
    requires { range.last < 2 ^ 31 }
    ensures value { Gives cut_view result (few_frames_of count (cut_view range)) }
    ensures same { IfOk result (λ c. c ≡ range) }
    ensures few { IfOk result (λ c. c.last + 1 - c.first ≤ MOST_WRITTEN) }
{
    let frames = (range.last + 1).saturating_sub(range.first);
    if frames <= MOST_WRITTEN {
        Ok(range)
    } else {
        Err(Refusal::at(
            count,
            Cause::TooLong {
                frames: u64::from(frames),
            },
        ))
    }
}

/// The range, where a run of it holds not too many bytes.
fn few_bytes(count: u32, bytes: u64, range: Cut) -> Result<Cut, Refusal>
    ensures value { Gives cut_view result (few_bytes_of count bytes (cut_view range)) }
    ensures same { IfOk result (λ c. c ≡ range) }
{
    if bytes <= MOST_BYTES {
        Ok(range)
    } else {
        Err(Refusal::at(count, Cause::TooLarge { bytes }))
    }
}

/// The positions that are written.
#[tactic(auto, unfolding(mlt_tree::specs::Sealing::ranged))]
fn ranged(count: u32, profile: &Profile, c: &Consumer<'_>, sealed: &Sealed) -> Result<Cut, Refusal>
    requires { 1 ≤ len (tree sealed.now) }
    ensures value { Gives cut_view result (ranged_of count (measures_of profile.now) (consumer_view c.now) (tree sealed.now)) }
    ensures ordered { IfOk result (λ range. (range.first ≤ range.last) × (range.last < len (tree sealed.now))) }
    ensures few { IfOk result (λ range. range.last + 1 - range.first ≤ MOST_WRITTEN) }
{
    let range = cut_of(c.place, sealed.length(), c.first.unwrap_or(0), c.last)?;
    let range = few_frames(count, range)?;
    few_bytes(count, bytes_of(profile, c, sealed.need()), range)
}

/// `raw:-` with the defaults.
fn default_consumer() -> Consumer<'static>
    ensures { consumer_view result ≡ default_of }
{
    Consumer {
        place: 0,
        video: "-",
        pix: Pix::Rgb,
        workers: 0,
        buffer: row::BUFFER.default,
        slices: row::SLICES.default,
        cache: row::CACHE.default,
        first: None,
        last: None,
    }
}

/// The settings of the consumer, on a range of positions.
fn settings_of(alloc: Global, c: &Consumer<'_>, range: Cut) -> Result<Output, AllocError>
    requires ordered { range.first ≤ range.last }
    requires few { range.last + 1 - range.first ≤ MOST_WRITTEN }
    ensures value { IfOk result (λ output. output_view output ≡ settings_of (consumer_view c.now) (cut_view range)) }
    ensures last { IfOk result (λ output. output.last.0 ≡ range.last) }
    ensures silent { IfOk result (λ output. output.audio ≡ None) }
{
    Ok(Output {
        video: Text::new(alloc, c.video)?,
        audio: None,
        pix: c.pix,
        first: Pos(range.first),
        last: Pos(range.last),
        workers: c.workers,
        buffer: c.buffer,
        slices: c.slices,
        cache: c.cache,
        channels: CHANNELS,
        format: Format::S16,
    })
}

/// The place of the group of a plant, by its number.
fn place_of(places: &[u32], plant: u32) -> u32
    ensures { result ≡ get_or places.now plant 0 }
{
    match places.get(plant as usize) {
        Some(place) => *place,
        None => 0,
    }
}

/// The refusal of a graph, at the end of so many words, or at the place of a plant's group.
fn graph_refusal(count: u32, places: &[u32], fault: GraphFault) -> Try<Refusal>
    ensures { result ≡ refusal_of count places.now fault }
{
    match fault {
        GraphFault::BadTrack { plant, no, tracks } => Try::Fault(Refusal::at(
            place_of(places, plant),
            Cause::BadTrack { no, tracks },
        )),
        GraphFault::SameTrack { plant, no } => Try::Fault(Refusal::at(
            place_of(places, plant),
            Cause::SameTrack { no },
        )),
        GraphFault::NoProducer => Try::Fault(Refusal::at(count, Cause::NoProducer)),
        GraphFault::TooDeep { depth } => Try::Fault(Refusal::at(count, Cause::TooDeep { depth })),
        GraphFault::TooMany { limit } => Try::Fault(Refusal::at(count, Cause::TooMany { limit })),
        GraphFault::Memory => Try::Memory,
    }
}

/// The graph with a tractor of the tracks as its top, sealed; the places are those of the plants' groups.
#[tactic(auto, unfolding(mlt_tree::specs::Sealing::sealable))]
fn sealed(
    count: u32,
    places: &[u32],
    mut graph: Graph,
    level: Level,
) -> Result<Sealed, Try<Refusal>>
    requires below { All (λ draft. All (IsEntryBelow (length graph)) draft.entries) (drafts_of level) }
    requires placed { length places.now ≡ length level.plants }
    ensures value { TryGives (λ _. tt) result (checked count places.now level (graph ++ tractor_of level ∷ []) (length graph)) }
    ensures sealed { IfOk result (λ sealed. sealed ≡ record { units = graph ++ tractor_of level ∷ []; top = length graph }) }
{
    let top = match graph.add_tractor(level) {
        Ok(top) => top,
        Err(fault) => return Err(graph_refusal(count, places, fault)),
    };
    match graph.seal(top) {
        Ok(sealed) => Ok(sealed),
        Err(fault) => Err(graph_refusal(count, places, fault)),
    }
}

/// The show of a tree, on the positions that the consumer writes.
#[tactic(auto, unfolding(mlt_tree::specs::Sealing::show_of_tree))]
fn show_of_tree(
    alloc: Global,
    count: u32,
    profile: Profile,
    consumer: Option<Consumer<'_>>,
    sealed: Sealed,
) -> Result<Show, Try<Refusal>>
    ensures show { (s : StateOf) → s.profile ≡ measures_of profile → s.consumer ≡ option_map consumer_view consumer.entry →
        TryGives (λ show. meant show s.made.sources) result (show_of_tree_of count s (tree sealed)) }
    ensures tree { IfOk result (λ show. tree show.sealed ≡ tree sealed) }
    ensures silent { IfOk result (λ show. show.output.audio ≡ None) }
{
    let c = consumer.unwrap_or(default_consumer());
    let range = ranged(count, &profile, &c, &sealed)?;
    let output = settings_of(alloc, &c, range)?;
    Ok(Show {
        sealed,
        profile,
        output,
    })
}

/// The composition at the end of so many words.
#[tactic(auto, unfolding(mlt_tree::specs::Sealing::seal))]
pub(crate) fn seal(
    alloc: Global,
    count: u32,
    state: State<'_>,
) -> Result<(Show, SourceTable), Try<Refusal>>
    requires { IsComposed state }
    ensures show { TryGives (λ made. meant made.0 made.1) result (seal_of count (state_view state.entry)) }
    ensures fits { IfOk result (λ made. Fits made.1 (tree made.0.sealed)) }
    ensures played { IfOk result (λ made. IsPlayed (meant made.0 made.1)) }
{
    let State {
        profile,
        made,
        level,
        plant_places,
        inherited,
        last_mix: _,
        consumer,
    } = state;
    let Made {
        graph,
        table,
        loaded: _,
        words: _,
    } = made;
    inherited.end();
    let sealed = sealed(count, plant_places.as_slice(), graph, level)?;
    Ok((
        show_of_tree(alloc, count, profile, consumer, sealed)?,
        table,
    ))
}
