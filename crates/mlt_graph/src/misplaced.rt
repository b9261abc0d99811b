//! Plants on tracks that aren't there.

ghost use Rattle.std.specs.Prelude.{◌≡◌, ◌<◌, ◌^◌, length};
ghost use Rattle.std.specs.Option.{option_map};
ghost use Rattle.mlt_tree.specs.Units.{misplaced, first_misplaced};
ghost use Rattle.mlt_graph.specs.Graph.{misplaced_fault};

use crate::fault::GraphFault;
use mlt_tree::PendingPlant;

/// What is wrong with the tracks of a numbered plant, among so many: `a` isn't there, then `b` isn't, then
/// both are the same.
fn fault_of(plant: u32, what: &PendingPlant, tracks: u32) -> Option<GraphFault>
    ensures { result ≡ option_map (λ wrong. misplaced_fault tracks (plant, wrong)) (misplaced tracks what.now) }
{
    match what {
        PendingPlant::OnTrack { track, .. } => {
            if *track < tracks {
                None
            } else {
                Some(GraphFault::BadTrack {
                    plant,
                    no: *track,
                    tracks,
                })
            }
        }
        PendingPlant::Between { a, b, .. } => {
            if *a >= tracks {
                Some(GraphFault::BadTrack {
                    plant,
                    no: *a,
                    tracks,
                })
            } else if *b >= tracks {
                Some(GraphFault::BadTrack {
                    plant,
                    no: *b,
                    tracks,
                })
            } else if *a == *b {
                Some(GraphFault::SameTrack { plant, no: *a })
            } else {
                None
            }
        }
    }
}

/// The fault of the first plant that is misplaced, among so many tracks.
pub(crate) fn first_fault(plants: &[PendingPlant], tracks: u32) -> Option<GraphFault>
    requires { length plants.now < 2 ^ 32 }
    ensures { result ≡ option_map (misplaced_fault tracks) (first_misplaced tracks 0 plants.now) }
{
    for plant in 0..plants.len() {
        let fault = fault_of(plant as u32, &plants[plant], tracks);
        if fault.is_some() {
            return fault;
        }
    }
    None
}
