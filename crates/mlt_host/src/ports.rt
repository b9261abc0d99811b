//! Arrays that have one item for each port, as the counts of faults and of creates.

ghost use Rattle.std.specs.Prelude.{◌≡◌, ◌≢◌, ◌<◌, ◌≤◌, slice_index};
ghost use Rattle.mlt_base.specs.declared.port.Port.{Port};
ghost use Rattle.mlt_host.specs.Host.{Rose};
ghost use Rattle.mlt_host.specs.Count.{next};
ghost use Rattle.mlt_host.specs.Ports.{index_of};

use crate::Port;

/// How many ports there are.
pub(crate) const PORTS: usize = 4;

/// The place of the port, below `PORTS`.
pub(crate) fn index_of(port: Port) -> usize
    ensures place { result ≡ index_of port }
    ensures within { result < 4 }
{
    match port {
        Port::Video => 0,
        Port::Audio => 1,
        Port::Script => 2,
        Port::Text => 3,
    }
}

/// Counts one more of the port, but for a count that stands at its last value.
pub(crate) fn count_up(counts: &mut [u64; PORTS], port: Port)
    ensures counted { slice_index counts.new (index_of port) ≡ next (slice_index counts.old (index_of port)) }
    ensures never_falls { slice_index counts.old (index_of port) ≤ slice_index counts.new (index_of port) }
    ensures rose { Rose (slice_index counts.old (index_of port)) (slice_index counts.new (index_of port)) }
    ensures others { (other : Port) → other ≢ port → slice_index counts.new (index_of other) ≡ slice_index counts.old (index_of other) }
{
    let place = index_of(port);
    counts[place] = counts[place].saturating_add(1);
}
