//! The blocks that pictures are made in.

ghost use Rattle.std.specs.Prelude.{◌≡◌, ◌*◌, ◌^◌, ◌<◌, ◌≤◌, [], length, All, IfOk, IfNone, IfSome, OnErr, vec_len, vec_capacity};
ghost use Rattle.mlt_base.specs.ProfileView.{measures_of};
ghost use Rattle.mlt_eval.specs.Lending.{AreLent};
ghost use Rattle.mlt_eval.specs.Pictures.{top_picture};
ghost use Rattle.mlt_eval.specs.Still.{IsStill};
ghost use Rattle.mlt_frame.specs.Fits.{FitsRegisters};
ghost use Rattle.mlt_frame.specs.Loads.{loads, maps};
ghost use Rattle.mlt_frame.specs.Ranges.{IsInRange};
ghost use Rattle.mlt_frame.specs.Registers.{regs};
ghost use Rattle.mlt_graph.specs.Piece.{pixel_bytes};
ghost use Rattle.mlt_graph.specs.Show.{pix_of};
ghost use Rattle.mlt_pool.specs.Class.{class_of};
ghost use Rattle.mlt_pool.specs.Counts.{home_of, lent_of, lent_out, brought};
ghost use Rattle.mlt_tree.specs.Show.{pixels_of, pictures_of, packed, AreFitted};

use crate::operation::run;
use crate::packing::pack_register;
use crate::register::Register;
use crate::scene::Scene;
use mlt_frame::Op;
use mlt_graph::Pix;
use mlt_pool::{Lease, Pool, class};
use mlt_slice::Bands;
use mlt_trans::KeptColumns;
use std::alloc::{AllocError, Global};
use std::marker::Model;

/// Blocks of one size, one for each register of a frame, seen as that size and the bytes of each block. The places of
/// stretched columns are kept beside them, from one frame to the next.
///
/// A rack can't be dropped, since its leases can't: it is spent by [`Rack::end`].
pub struct Rack {
    size: usize,
    blocks: Vec<Lease>,
    registers: Vec<Register>,
    columns: KeptColumns,
}

impl Model for Rack {
    ghost use Rattle.mlt_eval.specs.Blocks.{Blocks, AreBlocks};

    ghost Value = { Blocks };

    ghost view = { λ r. record { size = r.size; blocks = r.blocks.items } };

    ghost invariant = { λ r. AreBlocks r.size r.blocks.items r.registers.items };
}

impl Rack {
    /// A rack of `count` blocks of `len` bytes each, at most 2^28. `None` exactly where the pool has fewer
    /// blocks of that class home. After that, and where memory is wanting, the pool is as before.
    pub fn new(
        alloc: Global,
        pool: &mut Pool,
        count: u32,
        len: usize,
    ) -> Result<Option<Rack>, AllocError>
        requires { len ≤ 2 ^ 28 }
        ensures none { IfOk result (λ rack. IfNone rack ((home_of pool.old (class_of len) < count) × (pool.new ≡ pool.old))) }
        ensures some { IfOk result (λ rack. IfSome rack (λ r. (r.size ≡ len) × (length r.blocks ≡ count))) }
        ensures pool { IfOk result (λ rack. IfSome rack (λ r. pool.new ≡ lent_out (class_of len) count pool.old)) }
        ensures counts { IfOk result (λ rack. IfSome rack (λ r. AreLent (class_of len) count pool.old pool.new)) }
        ensures err { OnErr result (pool.new ≡ pool.old) }
    {
        let registers = vec![in alloc; Register::Nothing; count as usize]?;
        let columns = KeptColumns::new(alloc)?;
        let mut blocks = Vec::with_capacity(alloc, count as usize)?;
        if pool.is_home(class::of_length(len)) < count {
            blocks.destroy_empty();
            return Ok(None);
        }
        lend_blocks(pool, &mut blocks, count, len);
        Ok(Some(Rack {
            size: len,
            blocks,
            registers,
            columns,
        }))
    }

    /// Does operations, which leave one picture, and writes that picture.
    pub(crate) fn draw<B: Bands>(
        &mut self,
        scene: &Scene<'_>,
        bands: &B,
        ops: &[Op],
        pix: Pix,
        out: &mut [u8],
    )
        requires fitted { AreFitted (measures_of scene.now.profile.now) scene.now.table.now scene.now.fitted.now.fits }
        requires size { pixels_of (measures_of scene.now.profile.now) * 4 ≤ self.old.size }
        requires ranges { All IsInRange ops.now }
        requires sources { All (λ source. source < length scene.now.table.now) (loads ops.now) }
        requires maps { All (λ source. source < length scene.now.table.now) (maps ops.now) }
        requires fits { FitsRegisters (length self.old.blocks) 0 ops.now }
        requires out { length out.old ≡ pixels_of (measures_of scene.now.profile.now) * pixel_bytes pix }
        ensures video { out.new ≡ packed (pix_of pix) (top_picture (measures_of scene.now.profile.now) (regs (pictures_of (measures_of scene.now.profile.now) scene.now.table.now) [] ops.now)) }
        ensures blocks { (self.new.size ≡ self.old.size) × (length self.new.blocks ≡ length self.old.blocks) }
        ensures still { All (IsStill scene.now.fitted.now.fits) ops.now → self.new.blocks ≡ self.old.blocks }
    {
        let size = self.size;
        let states = self.registers.as_mut_slice();
        states.fill(Register::Nothing);
        let kept = &mut self.columns;
        let blocks = self.blocks.as_mut_slice();
        run(scene, bands, kept, blocks, states, size, ops);
        pack_register(scene, &self.blocks[0], self.registers[0], pix, out);
    }

    /// Brings the blocks home. It takes no memory.
    pub fn end(self, pool: &mut Pool)
        requires { length self.blocks ≤ lent_of pool.old (class_of self.size) }
        ensures pool { pool.new ≡ brought (class_of self.size) (length self.blocks) pool.old }
        ensures counts { AreLent (class_of self.size) (length self.blocks) pool.new pool.old }
    {
        let Rack {
            size,
            mut blocks,
            registers: _,
            columns: _,
        } = self;
        bring_blocks(pool, &mut blocks, size);
        blocks.destroy_empty();
    }
}

/// Lends `count` blocks of `len` bytes, as many of which are home.
fn lend_blocks(pool: &mut Pool, blocks: &mut Vec<Lease>, count: u32, len: usize)
    requires len { len ≤ 2 ^ 28 }
    requires home { count ≤ home_of pool.old (class_of len) }
    requires empty { blocks.old.items ≡ [] }
    requires room { count ≤ vec_capacity blocks.old }
    ensures count { length blocks.new.items ≡ count }
    ensures sizes { All (λ block. length block ≡ len) blocks.new.items }
    ensures pool { pool.new ≡ lent_out (class_of len) count pool.old }
    ensures counts { AreLent (class_of len) count pool.old pool.new }
{
    for _place in 0..count {
        match pool.lend(len) {
            Some(lease) => blocks.push_reserved(lease),
            None => unreachable!(),
        }
    }
}

/// Brings all blocks home, each of which has `_size` bytes.
fn bring_blocks(pool: &mut Pool, blocks: &mut Vec<Lease>, _size: usize)
    requires sizes { All (λ block. length block ≡ _size) blocks.old.items }
    requires lent { length blocks.old.items ≤ lent_of pool.old (class_of _size) }
    ensures empty { blocks.new.items ≡ [] }
    ensures pool { pool.new ≡ brought (class_of _size) (length blocks.old.items) pool.old }
    ensures counts { AreLent (class_of _size) (length blocks.old.items) pool.new pool.old }
{
    for _place in 0..blocks.len() {
        pool.home(blocks.take_last());
    }
}
