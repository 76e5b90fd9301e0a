//! What the bodies of a board are doing.
ghost use Rattle.std.specs.Prelude.{◌≡◌, ◌≤◌, length, unwrap_or};
ghost use Rattle.pram_words.specs.Ways.{first_leaf_in};
ghost use Rattle.page_core.specs.Findings.{IsKeptBehind};
ghost use Rattle.page_core.specs.Scenes.{ActivityFits, AreBodies, PhaseFits, active_row};
ghost use Rattle.page_core.specs.Scenes.{body_in, lost as lost_row, pass_of, standing_row};

use pram_words::{Kind, Layout, kind_of, step_of};
use pram_world::{Standing, World};
use walkx::{Activity, Ended};

/// What a body is doing: 0 it is lost, 1 it comes back, 2 it begins, 3 it makes a turn, 4 it is
/// over and all is done, 5 it is over by a conflict. In a turn `phase` is its phase, `step` the
/// step of the machine and `pass` 1 (compute), 2 (apply) or 3 (verify); over by a conflict `step`
/// is its step. `node` is 0 where it is lost or comes back. It has made so many atomic steps of
/// its script.
#[repr(C)]
#[derive(Clone, Copy)]
pub struct BodyRow {
    pub phase: u64,
    pub worker: u32,
    pub doing: u32,
    pub node: u32,
    pub heard: u32,
    pub step: u32,
    pub pass: u32,
}

/// What each body is doing is written to the front of the rows.
pub(crate) fn write_bodies(world: &World, rows: &mut [BodyRow])
    requires { length world.now.bodies ≤ length rows.old }
    ensures bodies { AreBodies world.now rows.new }
    ensures behind { IsKeptBehind (length world.now.bodies) rows.old rows.new }
{
    for b in 0..world.count() {
        rows[b] = body_row(world, b);
    }
}

/// What body b is doing.
pub(crate) fn body_row(world: &World, b: usize) -> BodyRow
    ensures { result ≡ body_in world.now b }
{
    world.facts();
    match world.standing(b) {
        Some(standing) => row_of(world.layout(), standing),
        None => lost(0),
    }
}

fn row_of(layout: &Layout, standing: Standing) -> BodyRow
    requires { PhaseFits standing }
    ensures { result ≡ standing_row layout.now standing }
{
    match standing {
        Standing::Stopped { worker } => lost(worker),
        Standing::Walks {
            worker,
            node,
            activity,
            heard,
        } => walking_row(activity, lost(worker), node_of(layout, worker, node), heard),
    }
}

fn walking_row(activity: Activity, nothing: BodyRow, node: u32, heard: u32) -> BodyRow
    requires { ActivityFits activity }
    ensures { result ≡ active_row activity nothing node heard }
{
    let at = BodyRow {
        node,
        heard,
        ..nothing
    };
    match activity {
        Activity::Back => BodyRow {
            doing: 1,
            node: 0,
            ..at
        },
        Activity::Begin => BodyRow { doing: 2, ..at },
        Activity::Turn(phase) | Activity::Part(phase, _) => BodyRow {
            phase,
            doing: 3,
            step: step_of(phase),
            pass: number_of_pass(kind_of(phase)),
            ..at
        },
        Activity::Over(Ended::Done) => BodyRow { doing: 4, ..at },
        Activity::Over(Ended::Conflict(step)) => BodyRow {
            doing: 5,
            step,
            ..at
        },
    }
}

// The node of a worker, or its first leaf.
fn node_of(layout: &Layout, worker: u32, node: Option<u32>) -> u32
    ensures { result ≡ unwrap_or node (first_leaf_in layout.now worker) }
{
    match node {
        Some(node) => node,
        None => layout.first_leaf(worker),
    }
}

fn number_of_pass(kind: Kind) -> u32
    ensures { result ≡ pass_of kind }
{
    match kind {
        Kind::Compute => 1,
        Kind::Apply => 2,
        Kind::Verify => 3,
    }
}

fn lost(worker: u32) -> BodyRow
    ensures { result ≡ lost_row worker }
{
    BodyRow {
        phase: 0,
        worker,
        doing: 0,
        node: 0,
        heard: 0,
        step: 0,
        pass: 0,
    }
}
