//! What each lane's worker prints.

ghost use Rattle.std.specs.Prelude.{◌≡◌, ◌*◌, ◌<◌, ◌≤◌, All, map, IfOk, OnOk};
ghost use Rattle.std.specs.List.{flat_map};
ghost use Rattle.edge_io.specs.Planned.{planned_output};
ghost use Rattle.packet_codec.specs.Canonical.{canonical};
ghost use Rattle.drawn_lanes.specs.Draws.{state_after};
ghost use Rattle.drawn_lanes.specs.Outputs.{lane_events, outputs_of};

use crate::draws::Draws;
use crate::packets::put_test;
use edge_io::{Finish, Plan};
use std::alloc::Global;
use sub_number::{Bytes, NoMemory};

/// How many bytes come at once.
const PIECE: usize = 65_536;

/// A plan for each lane's worker, in order: it prints the packets of its tests, and ends with 0. How the tests end is drawn
/// from the seed, one draw for each, lane by lane. There are 1 to 64 lanes of as many tests each, 1,000,000 in all at most.
pub fn drawn_plans(alloc: Global, seed: u32, lanes: u32, tests: u32) -> Result<Vec<Plan>, NoMemory>
    requires some { 1 ≤ lanes }
    requires few { lanes ≤ 64 }
    requires most { lanes * tests ≤ 1_000_000 }
    ensures outputs { IfOk result (λ plans. map planned_output plans.items ≡ outputs_of seed lanes tests) }
    ensures pieces { IfOk result (λ plans. All (λ plan. plan.piece ≡ 65_536) plans.items) }
{
    let mut draws = Draws::new(seed);
    let mut plans = Vec::with_capacity(alloc, lanes as usize)?;
    for lane in 0..lanes {
        let output = lane_output(alloc, &mut draws, lane, tests)?;
        plans.push(Plan {
            output,
            piece: PIECE,
            finish: Finish::Exit(0),
        })?;
    }
    Ok(plans)
}

// The packets of the lane's tests, for each of which the next number is drawn.
fn lane_output(alloc: Global, draws: &mut Draws, lane: u32, tests: u32) -> Result<Bytes, NoMemory>
    requires lane { lane < 64 }
    requires tests { tests ≤ 1_000_000 }
    ensures output { IfOk result (λ output. output ≡ flat_map canonical (lane_events lane tests draws.old)) }
    ensures state { OnOk result (draws.new ≡ state_after tests draws.old) }
{
    let mut out = Vec::new(alloc);
    let mut spare = Vec::new(alloc);
    for test in 0..tests {
        let number = draws.next();
        put_test(lane, test, number, &mut spare, &mut out)?;
    }
    Ok(Bytes::from_vec(out))
}
