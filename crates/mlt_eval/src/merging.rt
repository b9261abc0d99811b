//! Merges of two registers.

ghost use Rattle.std.specs.Prelude.{◌≡◌, ◌≢◌, ℕ, ◌*◌, ◌<◌, ◌≤◌, [], length, take, slice_index_or, All, IfSome, option_copied};
ghost use Rattle.mlt_base.specs.ProfileView.{measures_of};
ghost use Rattle.mlt_eval.specs.Blocks.{AreBlocks};
ghost use Rattle.mlt_eval.specs.Down.{IsMerged};
ghost use Rattle.mlt_eval.specs.Pictures.{merge_of};
ghost use Rattle.mlt_eval.specs.Registers.{held, register, IsThere};
ghost use Rattle.mlt_tree.specs.Merges.{map_of};
ghost use Rattle.mlt_tree.specs.Ranges.{IsMergeStep};
ghost use Rattle.mlt_tree.specs.Show.{pixels_of, map_picture, AreFitted};
ghost use Rattle.mlt_tree.specs.Sources.{numbered};

use crate::block::{find_or_load, lent, merge_block};
use crate::register::Register;
use crate::scene::Scene;
use mlt_base::SourceNo;
use mlt_pool::Lease;
use mlt_slice::Bands;
use mlt_trans::KeptColumns;
use mlt_tree::MergeStep;

/// The source that a merge takes as its map, where it takes one.
fn map_of(step: &MergeStep) -> Option<SourceNo>
    ensures { result ≡ map_of step.now }
{
    match step {
        MergeStep::Luma {
            map,
            softness: _,
            q: _,
        } => *map,
        MergeStep::Composite { .. } => None,
        MergeStep::Matte => None,
        MergeStep::Mix { .. } => None,
        MergeStep::Sum => None,
    }
}

/// Brings the picture of a merge's map about, where the merge takes one: it is fitted into a block where no
/// fitted one is there. It answers where it stands.
fn fit_map(scene: &Scene<'_>, block: &mut Lease, step: &MergeStep) -> Register
    requires fitted { AreFitted (measures_of scene.now.profile.now) scene.now.table.now scene.now.fitted.now.fits }
    requires room { pixels_of (measures_of scene.now.profile.now) * 4 ≤ length block.old }
    requires source { All (λ source. source < length scene.now.table.now) (numbered (map_of step.now)) }
    ensures there { IsThere (length scene.now.fitted.now.fits) result }
    ensures map { held (pixels_of (measures_of scene.now.profile.now) * 4) scene.now.fitted.now.fits block.new result
        ≡ map_picture (measures_of scene.now.profile.now) scene.now.table.now step.now }
    ensures long { length block.new ≡ length block.old }
{
    match map_of(step) {
        None => Register::Nothing,
        Some(no) => find_or_load(scene, block, no),
    }
}

/// Merges what a register has, where it has something, into what another one has, in the block of the latter. The
/// picture of the merge's map stands in a place of its own.
fn merge_blocks<B: Bands>(
    scene: &Scene<'_>,
    bands: &B,
    kept: &mut KeptColumns,
    block: &mut Lease,
    state: Register,
    above: &Lease,
    above_state: Register,
    map: &Lease,
    map_state: Register,
    step: &MergeStep,
)
    requires range { IsMergeStep step.now }
    requires fitted { AreFitted (measures_of scene.now.profile.now) scene.now.table.now scene.now.fitted.now.fits }
    requires there { let count = length scene.now.fitted.now.fits in IsThere count state × IsThere count above_state × IsThere count map_state }
    requires room { let bytes = pixels_of (measures_of scene.now.profile.now) * 4 in (bytes ≤ length block.old) × (bytes ≤ length above.now) × (bytes ≤ length map.now) }
    requires map { held (pixels_of (measures_of scene.now.profile.now) * 4) scene.now.fitted.now.fits map.now map_state
        ≡ map_picture (measures_of scene.now.profile.now) scene.now.table.now step.now }
    ensures picture { let bytes = pixels_of (measures_of scene.now.profile.now) * 4 in
        IfSome (held bytes scene.now.fitted.now.fits above.now above_state) (λ picture. take bytes block.new
        ≡ merge_of (measures_of scene.now.profile.now) scene.now.table.now step.now (held bytes scene.now.fitted.now.fits block.old state) picture) }
    ensures long { length block.new ≡ length block.old }
{
    if let Some(picture) = lent(scene, above, above_state) {
        let map = lent(scene, map, map_state);
        merge_block(scene, bands, kept, block, state, picture, map, step);
    }
}

/// Merges what register `b` has into what register `a` has, in the block of `a`, which is written to alone.
fn merge_pair<B: Bands>(
    scene: &Scene<'_>,
    bands: &B,
    kept: &mut KeptColumns,
    blocks: &mut [Lease],
    states: &[Register],
    _size: usize,
    a: usize,
    b: usize,
    map: &Lease,
    map_state: Register,
    step: &MergeStep,
)
    requires range { IsMergeStep step.now }
    requires fitted { AreFitted (measures_of scene.now.profile.now) scene.now.table.now scene.now.fitted.now.fits }
    requires there { All (IsThere (length scene.now.fitted.now.fits)) states.now }
    requires map_there { IsThere (length scene.now.fitted.now.fits) map_state }
    requires room { pixels_of (measures_of scene.now.profile.now) * 4 ≤ _size }
    requires sizes { All (λ block. length block ≡ _size) blocks.old }
    requires map_size { length map.now ≡ _size }
    requires long { length blocks.old ≤ length states.now }
    requires inside { (a < length blocks.old) × (b < length blocks.old) × (a ≢ b) }
    requires map { held (pixels_of (measures_of scene.now.profile.now) * 4) scene.now.fitted.now.fits map.now map_state
        ≡ map_picture (measures_of scene.now.profile.now) scene.now.table.now step.now }
    ensures sizes { All (λ block. length block ≡ _size) blocks.new }
    ensures into { let bytes = pixels_of (measures_of scene.now.profile.now) * 4 in
        let old = register bytes scene.now.fitted.now.fits blocks.old states.now in
        IfSome (old b) (λ picture. take bytes (slice_index_or blocks.new a []) ≡ merge_of (measures_of scene.now.profile.now) scene.now.table.now step.now (old a) picture) }
    ensures others { (j : ℕ) → j ≢ a → slice_index_or blocks.new j [] ≡ slice_index_or blocks.old j [] }
{
    if a < b {
        let (below, above) = blocks.split_at_mut(b);
        merge_blocks(
            scene,
            bands,
            kept,
            &mut below[a],
            states[a],
            &above[0],
            states[b],
            map,
            map_state,
            step,
        );
    } else {
        let (below, above) = blocks.split_at_mut(a);
        merge_blocks(
            scene,
            bands,
            kept,
            &mut above[0],
            states[a],
            &below[b],
            states[b],
            map,
            map_state,
            step,
        );
    }
}

/// The same by the picture of the map, for which the block above the registers, of which there are `count`, has room.
fn merge_mapped<B: Bands>(
    scene: &Scene<'_>,
    bands: &B,
    kept: &mut KeptColumns,
    blocks: &mut [Lease],
    states: &[Register],
    _size: usize,
    count: usize,
    a: usize,
    b: usize,
    step: &MergeStep,
)
    requires blocks { AreBlocks _size blocks.old states.now }
    requires range { IsMergeStep step.now }
    requires source { All (λ source. source < length scene.now.table.now) (numbered (map_of step.now)) }
    requires fitted { AreFitted (measures_of scene.now.profile.now) scene.now.table.now scene.now.fitted.now.fits }
    requires there { All (IsThere (length scene.now.fitted.now.fits)) states.now }
    requires room { pixels_of (measures_of scene.now.profile.now) * 4 ≤ _size }
    requires inside { (a < count) × (b < count) × (a ≢ b) }
    requires spare { count < length blocks.old }
    ensures blocks { AreBlocks _size blocks.new states.now }
    ensures into { let bytes = pixels_of (measures_of scene.now.profile.now) * 4 in
        let old = register bytes scene.now.fitted.now.fits blocks.old states.now in
        IfSome (old b) (λ picture. take bytes (slice_index_or blocks.new a []) ≡ merge_of (measures_of scene.now.profile.now) scene.now.table.now step.now (old a) picture) }
    ensures others { (j : ℕ) → j < count → j ≢ a → slice_index_or blocks.new j [] ≡ slice_index_or blocks.old j [] }
{
    let (below, above) = blocks.split_at_mut(count);
    let spare = &mut above[0];
    let place = fit_map(scene, spare, step);
    merge_pair(
        scene, bands, kept, below, states, _size, a, b, spare, place, step,
    );
}

/// Puts what register `b` has, where it has something, into register `a` by a merge; `b` has nothing then. There are
/// `count` registers, and the block above them is free.
pub(crate) fn merge<B: Bands>(
    scene: &Scene<'_>,
    bands: &B,
    kept: &mut KeptColumns,
    blocks: &mut [Lease],
    states: &mut [Register],
    _size: usize,
    count: usize,
    a: usize,
    b: usize,
    step: &MergeStep,
)
    requires blocks { AreBlocks _size blocks.old states.old }
    requires range { IsMergeStep step.now }
    requires source { All (λ source. source < length scene.now.table.now) (numbered (map_of step.now)) }
    requires fitted { AreFitted (measures_of scene.now.profile.now) scene.now.table.now scene.now.fitted.now.fits }
    requires there { All (IsThere (length scene.now.fitted.now.fits)) states.old }
    requires room { pixels_of (measures_of scene.now.profile.now) * 4 ≤ _size }
    requires inside { (a < count) × (b < count) × (a ≢ b) }
    requires spare { count < length blocks.old }
    ensures blocks { AreBlocks _size blocks.new states.new }
    ensures there { All (IsThere (length scene.now.fitted.now.fits)) states.new }
    ensures merged { let bytes = pixels_of (measures_of scene.now.profile.now) * 4 in
        let old = register bytes scene.now.fitted.now.fits blocks.old states.old in
        IsMerged count (merge_of (measures_of scene.now.profile.now) scene.now.table.now step.now) old (register bytes scene.now.fitted.now.fits blocks.new states.new) a b (old b) }
{
    if let Register::Nothing = states[b] {
        return;
    }
    merge_mapped(scene, bands, kept, blocks, states, _size, count, a, b, step);
    states[a] = Register::Owned;
    states[b] = Register::Nothing;
}
