//! Operations of sources and filters, pushed where there is room.

ghost use Rattle.std.specs.Prelude.{◌≡◌, ◌≤◌, length};
ghost use Rattle.std.specs.List.{flat_map};
ghost use Rattle.mlt_tree.specs.Acting.{holds};
ghost use Rattle.mlt_tree.specs.Tree.{Src};
ghost use Rattle.mlt_start.specs.Asked.{medium_of};
ghost use Rattle.mlt_start.specs.Code.{code, filter_ops};
ghost use Rattle.mlt_start.specs.Pushed.{IsAbove, IsPushed};

use crate::asked::{Asked, gives};
use mlt_base::{Pos, SourceNo, Span};
use mlt_frame::{Op, OpStack};
use mlt_tree::{Attached, SourceKind};

/// Pushes the load of a source, where it has something at a position, and tells whether it has.
pub(crate) fn put_source(
    asked: Asked,
    no: SourceNo,
    kind: SourceKind,
    frames: u32,
    at: u32,
    ops: &mut OpStack,
) -> bool
    requires { 1 ≤ ops.old.spare }
    ensures { IsPushed (code (medium_of asked) (Src no.0 kind frames) at) ops.old ops.new result }
{
    if gives(asked, kind) && at < frames {
        ops.push_reserved(Op::Load {
            source: no,
            at: Pos(at),
        });
        true
    } else {
        false
    }
}

/// Whether a position lies in a span.
pub(crate) fn is_in(span: Span, at: u32) -> bool
    ensures { result ≡ holds span at }
{
    span.first.0 <= at && at <= span.last.0
}

/// Pushes a filter on the top register, where its span has the position.
fn put_filter(filter: &Attached, at: u32, ops: &mut OpStack)
    requires { 1 ≤ ops.old.spare }
    ensures { IsAbove (filter_ops at filter.now) ops.old ops.new }
{
    if is_in(filter.span, at) {
        ops.push_reserved(Op::Filter {
            depth: 0,
            step: filter.spec.step(at - filter.span.first.0),
        });
    }
}

/// Pushes the filters on the top register whose span has the position, in their order.
pub(crate) fn put_filters(filters: &[Attached], at: u32, ops: &mut OpStack)
    requires { length filters.now ≤ ops.old.spare }
    ensures { IsAbove (flat_map (filter_ops at) filters.now) ops.old ops.new }
{
    for index in 0..filters.len() {
        put_filter(&filters[index], at, ops);
    }
}
