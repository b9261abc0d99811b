//! From a started frame to its bytes.

ghost use Rattle.std.specs.Prelude.{◌≡◌, ◌*◌, ◌^◌, ◌<◌, ◌≤◌, [], None, length, take, All};
ghost use Rattle.mlt_base.specs.ProfileView.{measures_of};
ghost use Rattle.mlt_eval.specs.Pictures.{top_picture};
ghost use Rattle.mlt_eval.specs.Still.{IsStill};
ghost use Rattle.mlt_frame.specs.Fits.{FitsRegisters};
ghost use Rattle.mlt_frame.specs.Loads.{loads, maps};
ghost use Rattle.mlt_frame.specs.Ranges.{IsInRange};
ghost use Rattle.mlt_frame.specs.Started.{CanRun};
ghost use Rattle.mlt_frame.specs.Registers.{regs};
ghost use Rattle.mlt_frame.specs.Stack.{emptied};
ghost use Rattle.mlt_graph.specs.Piece.{piece_of, pixel_bytes};
ghost use Rattle.mlt_graph.specs.Show.{pix_of};
ghost use Rattle.mlt_tree.specs.Show.{pixels_of, pictures_of, packed, AreFitted};

use crate::rendered::Rendered;
use crate::scene::{Scene, packed_bytes};
use crate::{Fitted, Rack};
use mlt_base::Profile;
use mlt_frame::{Frame, Op, Ops};
use mlt_graph::{Output, Pix};
use mlt_pool::Lease;
use mlt_slice::Bands;
use mlt_source::SourceTable;

/// Does operations, which leave one picture, and writes that picture to the first bytes.
fn draw_bytes<B: Bands>(
    rack: &mut Rack,
    scene: &Scene<'_>,
    bands: &B,
    ops: &[Op],
    pix: Pix,
    bytes: &mut [u8],
)
    requires fitted { AreFitted (measures_of scene.now.profile.now) scene.now.table.now scene.now.fitted.now.fits }
    requires size { pixels_of (measures_of scene.now.profile.now) * 4 ≤ rack.old.size }
    requires ranges { All IsInRange ops.now }
    requires sources { All (λ source. source < length scene.now.table.now) (loads ops.now) }
    requires maps { All (λ source. source < length scene.now.table.now) (maps ops.now) }
    requires fits { FitsRegisters (length rack.old.blocks) 0 ops.now }
    requires room { pixels_of (measures_of scene.now.profile.now) * pixel_bytes pix ≤ length bytes.old }
    ensures video { take (pixels_of (measures_of scene.now.profile.now) * pixel_bytes pix) bytes.new
        ≡ packed (pix_of pix) (top_picture (measures_of scene.now.profile.now) (regs (pictures_of (measures_of scene.now.profile.now) scene.now.table.now) [] ops.now)) }
    ensures blocks { (rack.new.size ≡ rack.old.size) × (length rack.new.blocks ≡ length rack.old.blocks) }
    ensures still { All (IsStill scene.now.fitted.now.fits) ops.now → rack.new.blocks ≡ rack.old.blocks }
{
    let count = packed_bytes(scene.profile, pix);
    rack.draw(scene, bands, ops, pix, &mut bytes[..count]);
}

/// Does operations, which leave one picture, and writes that picture to the first bytes of a lease.
fn draw_lease<B: Bands>(
    rack: &mut Rack,
    scene: &Scene<'_>,
    bands: &B,
    ops: &[Op],
    pix: Pix,
    out: &mut Lease,
)
    requires fitted { AreFitted (measures_of scene.now.profile.now) scene.now.table.now scene.now.fitted.now.fits }
    requires size { pixels_of (measures_of scene.now.profile.now) * 4 ≤ rack.old.size }
    requires ranges { All IsInRange ops.now }
    requires sources { All (λ source. source < length scene.now.table.now) (loads ops.now) }
    requires maps { All (λ source. source < length scene.now.table.now) (maps ops.now) }
    requires fits { FitsRegisters (length rack.old.blocks) 0 ops.now }
    requires room { pixels_of (measures_of scene.now.profile.now) * pixel_bytes pix ≤ length out.old }
    ensures video { take (pixels_of (measures_of scene.now.profile.now) * pixel_bytes pix) out.new
        ≡ packed (pix_of pix) (top_picture (measures_of scene.now.profile.now) (regs (pictures_of (measures_of scene.now.profile.now) scene.now.table.now) [] ops.now)) }
    ensures long { length out.new ≡ length out.old }
    ensures blocks { (rack.new.size ≡ rack.old.size) × (length rack.new.blocks ≡ length rack.old.blocks) }
    ensures still { All (IsStill scene.now.fitted.now.fits) ops.now → rack.new.blocks ≡ rack.old.blocks }
{
    draw_bytes(rack, scene, bands, ops, pix, out.bytes_mut());
}

/// Renders a frame: does the operations of its picture in the blocks of the rack, and writes the picture
/// that they leave, transparent black where they leave none, to the first bytes of the frame's lease.
///
/// The picture is laid over black, three bytes a pixel, or written as it is, four bytes a pixel, as the
/// output asks. The frame has operations for at most as many registers as the rack has blocks, each of
/// which has at least the bytes of a picture of the profile, four a pixel; at a merge one block is free,
/// for the picture of its map. The lease has at least the bytes that the output asks for. The operations
/// load sources of the table and take sources of it as maps, and each picture in `fitted` is that of its
/// source. A picture that isn't there is fitted straight into the rack, and one that is there is never
/// written to. `bands` goes through the rows of what is filtered and merged. The stacks come back empty,
/// with their room. The output has no sound. It takes no memory and never refuses.
pub fn render<B: Bands>(
    frame: Frame,
    table: &SourceTable,
    fitted: &Fitted,
    rack: &mut Rack,
    bands: &B,
    profile: &Profile,
    output: &Output,
) -> Rendered
    requires runs { CanRun (length rack.old.blocks) (length table.now) frame.image.ops }
    requires size { pixels_of (measures_of profile.now) * 4 ≤ rack.old.size }
    requires piece { piece_of output.now profile.now ≤ length frame.out }
    requires fitted { AreFitted (measures_of profile.now) table.now fitted.now.fits }
    requires audio { output.now.audio ≡ None }
    requires at { frame.at.0 < 2 ^ 31 }
    ensures video { result.video ≡ packed (pix_of output.now.pix) (top_picture (measures_of profile.now) (regs (pictures_of (measures_of profile.now) table.now) [] frame.image.ops)) }
    ensures sound { result.sound ≡ [] }
    ensures loads { result.loads ≡ length (loads frame.image.ops) }
    ensures at { result.at ≡ frame.at }
    ensures lease { length result.out ≡ length frame.out }
    ensures image { result.ops.image ≡ emptied frame.image }
    ensures sound_ops { result.ops.sound ≡ emptied frame.sound }
    ensures blocks { (rack.new.size ≡ rack.old.size) × (length rack.new.blocks ≡ length rack.old.blocks) }
    ensures still { All (IsStill fitted.now.fits) frame.image.ops → rack.new.blocks ≡ rack.old.blocks }
{
    let loads = frame.loads();
    let (at, mut image, mut sound, mut out) = frame.parts();
    let scene = Scene {
        profile,
        table,
        fitted,
    };
    draw_lease(rack, &scene, bands, image.as_slice(), output.pix, &mut out);
    image.clear();
    sound.clear();
    let video = packed_bytes(profile, output.pix);
    Rendered::silent(at, loads, video, Ops { image, sound }, out)
}
