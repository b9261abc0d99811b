//! Operations on the registers of a rack.

ghost use Rattle.std.specs.Prelude.{◌≡◌, ℕ, ◌*◌, ◌<◌, ◌≤◌, [], true, length, List, slice_get, All, Some, option_map};
ghost use Rattle.mlt_base.specs.ProfileView.{measures_of};
ghost use Rattle.mlt_eval.specs.Blocks.{AreBlocks};
ghost use Rattle.mlt_eval.specs.Down.{IsPut};
ghost use Rattle.mlt_eval.specs.Fitted.{is_fitted};
ghost use Rattle.mlt_eval.specs.Registers.{register, registers, IsThere};
ghost use Rattle.mlt_eval.specs.Still.{IsStill};
ghost use Rattle.mlt_frame.specs.Fits.{Finds, HasRoom, FitsRegisters, after};
ghost use Rattle.mlt_frame.specs.Loads.{load, loads, map, maps};
ghost use Rattle.mlt_frame.specs.Ranges.{IsInRange};
ghost use Rattle.mlt_frame.specs.Registers.{apply, regs};
ghost use Rattle.mlt_tree.specs.Filters.{picture_filter};
ghost use Rattle.mlt_tree.specs.Ranges.{IsFilterStep};
ghost use Rattle.mlt_tree.specs.Show.{pixels_of, picture_of, pictures_of, Fit, AreFitted};
ghost use Rattle.mlt_vfilter.specs.Neutral.{is_neutral};

use crate::block::{filter_block, find_or_load, stays};
use crate::merging::merge;
use crate::register::Register;
use crate::scene::Scene;
use mlt_base::SourceNo;
use mlt_frame::Op;
use mlt_pool::Lease;
use mlt_slice::Bands;
use mlt_trans::KeptColumns;
use mlt_tree::FilterStep;

/// Gives a register the picture of a source: the fitted one, where there is one, else in its block.
fn load(
    scene: &Scene<'_>,
    blocks: &mut [Lease],
    states: &mut [Register],
    _size: usize,
    k: usize,
    no: SourceNo,
)
    requires blocks { AreBlocks _size blocks.old states.old }
    requires there { All (IsThere (length scene.now.fitted.now.fits)) states.old }
    requires fitted { AreFitted (measures_of scene.now.profile.now) scene.now.table.now scene.now.fitted.now.fits }
    requires room { pixels_of (measures_of scene.now.profile.now) * 4 ≤ _size }
    requires source { no.0 < length scene.now.table.now }
    requires inside { k < length blocks.old }
    ensures blocks { AreBlocks _size blocks.new states.new }
    ensures there { All (IsThere (length scene.now.fitted.now.fits)) states.new }
    ensures put { let bytes = pixels_of (measures_of scene.now.profile.now) * 4 in
        IsPut (register bytes scene.now.fitted.now.fits blocks.old states.old) (register bytes scene.now.fitted.now.fits blocks.new states.new) k
        (Some (picture_of (measures_of scene.now.profile.now) (slice_get scene.now.table.now no.0))) }
    ensures still { is_fitted scene.now.fitted.now.fits no.0 ≡ true → blocks.new ≡ blocks.old }
{
    states[k] = find_or_load(scene, &mut blocks[k], no);
}

/// Filters what a register has, where it has something that isn't left as it is.
fn filter<B: Bands>(
    scene: &Scene<'_>,
    bands: &B,
    blocks: &mut [Lease],
    states: &mut [Register],
    _size: usize,
    k: usize,
    step: &FilterStep,
)
    requires blocks { AreBlocks _size blocks.old states.old }
    requires there { All (IsThere (length scene.now.fitted.now.fits)) states.old }
    requires fitted { AreFitted (measures_of scene.now.profile.now) scene.now.table.now scene.now.fitted.now.fits }
    requires room { pixels_of (measures_of scene.now.profile.now) * 4 ≤ _size }
    requires range { IsFilterStep step.now }
    requires inside { k < length blocks.old }
    ensures blocks { AreBlocks _size blocks.new states.new }
    ensures there { All (IsThere (length scene.now.fitted.now.fits)) states.new }
    ensures put { let bytes = pixels_of (measures_of scene.now.profile.now) * 4 in
        let old = register bytes scene.now.fitted.now.fits blocks.old states.old in
        IsPut old (register bytes scene.now.fitted.now.fits blocks.new states.new) k (option_map (picture_filter step.now scene.now.profile.now.width) (old k)) }
    ensures still { is_neutral step.now ≡ true → blocks.new ≡ blocks.old }
{
    let state = states[k];
    if stays(scene, &blocks[k], state, step) {
        return;
    }
    states[k] = filter_block(scene, bands, &mut blocks[k], state, step);
}

/// Gives a register what another one has, which gets its block.
fn keep(blocks: &mut [Lease], states: &mut [Register], _size: usize, base: usize, kept: usize)
    requires blocks { AreBlocks _size blocks.old states.old }
    requires order { base ≤ kept }
    requires inside { kept < length blocks.old }
    ensures blocks { AreBlocks _size blocks.new states.new }
    ensures there { (n : ℕ) → All (IsThere n) states.old → All (IsThere n) states.new }
    ensures kept { (bytes : ℕ) (fits : List Fit) → register bytes fits blocks.new states.new base ≡ register bytes fits blocks.old states.old kept }
    ensures below { (bytes : ℕ) (fits : List Fit) (j : ℕ) → j < base → register bytes fits blocks.new states.new j ≡ register bytes fits blocks.old states.old j }
{
    blocks.swap(base, kept);
    states[base] = states[kept];
}

/// Does an operation, where there are `count` registers, and answers how many there are then.
fn apply<B: Bands>(
    scene: &Scene<'_>,
    bands: &B,
    kept: &mut KeptColumns,
    blocks: &mut [Lease],
    states: &mut [Register],
    _size: usize,
    count: usize,
    op: &Op,
) -> usize
    requires blocks { AreBlocks _size blocks.old states.old }
    requires there { All (IsThere (length scene.now.fitted.now.fits)) states.old }
    requires fitted { AreFitted (measures_of scene.now.profile.now) scene.now.table.now scene.now.fitted.now.fits }
    requires room { pixels_of (measures_of scene.now.profile.now) * 4 ≤ _size }
    requires range { IsInRange op.now }
    requires sources { All (λ source. source < length scene.now.table.now) (load op.now) }
    requires maps { All (λ source. source < length scene.now.table.now) (map op.now) }
    requires finds { Finds count op.now }
    requires space { HasRoom (length blocks.old) count op.now }
    requires more { after count op.now ≤ length blocks.old }
    ensures blocks { AreBlocks _size blocks.new states.new }
    ensures there { All (IsThere (length scene.now.fitted.now.fits)) states.new }
    ensures registers { let bytes = pixels_of (measures_of scene.now.profile.now) * 4 in
        registers bytes scene.now.fitted.now.fits blocks.new states.new result
        ≡ apply (pictures_of (measures_of scene.now.profile.now) scene.now.table.now) (registers bytes scene.now.fitted.now.fits blocks.old states.old count) op.now }
    ensures count { result ≡ after count op.now }
    ensures still { IsStill scene.now.fitted.now.fits op.now → blocks.new ≡ blocks.old }
{
    match op {
        Op::Load { source, at: _ } => {
            load(scene, blocks, states, _size, count, *source);
            count + 1
        }
        Op::Absent => {
            states[count] = Register::Nothing;
            count + 1
        }
        Op::Filter { depth, step } => {
            let k = count - 1 - *depth as usize;
            filter(scene, bands, blocks, states, _size, k, step);
            count
        }
        Op::Merge { a, b, step } => {
            let into = count - 1 - *a as usize;
            let from = count - 1 - *b as usize;
            merge(
                scene, bands, kept, blocks, states, _size, count, into, from, step,
            );
            count
        }
        Op::Keep { row, count: over } => {
            let base = count - *over as usize;
            keep(blocks, states, _size, base, base + *row as usize);
            base + 1
        }
    }
}

/// Does operations, which leave one register.
pub(crate) fn run<B: Bands>(
    scene: &Scene<'_>,
    bands: &B,
    kept: &mut KeptColumns,
    blocks: &mut [Lease],
    states: &mut [Register],
    _size: usize,
    ops: &[Op],
)
    requires blocks { AreBlocks _size blocks.old states.old }
    requires there { All (IsThere (length scene.now.fitted.now.fits)) states.old }
    requires fitted { AreFitted (measures_of scene.now.profile.now) scene.now.table.now scene.now.fitted.now.fits }
    requires room { pixels_of (measures_of scene.now.profile.now) * 4 ≤ _size }
    requires ranges { All IsInRange ops.now }
    requires sources { All (λ source. source < length scene.now.table.now) (loads ops.now) }
    requires maps { All (λ source. source < length scene.now.table.now) (maps ops.now) }
    requires fits { FitsRegisters (length blocks.old) 0 ops.now }
    ensures blocks { AreBlocks _size blocks.new states.new }
    ensures there { All (IsThere (length scene.now.fitted.now.fits)) states.new }
    ensures registers { registers (pixels_of (measures_of scene.now.profile.now) * 4) scene.now.fitted.now.fits blocks.new states.new 1
        ≡ regs (pictures_of (measures_of scene.now.profile.now) scene.now.table.now) [] ops.now }
    ensures some { 1 ≤ length blocks.old }
    ensures still { All (IsStill scene.now.fitted.now.fits) ops.now → blocks.new ≡ blocks.old }
{
    let mut count = 0;
    for op in ops {
        count = apply(scene, bands, kept, blocks, states, _size, count, op);
    }
}
