//! The whole run: from a machine, a scene and a file of G-code to the report's lines.
ghost use Rattle.std.specs.Prelude.{◌≡◌, ◌+◌, ◌≤◌, ◌++◌, List, length, OnOk, IfOk, IfSome, IfNone};
ghost use Rattle.link_work.specs.Stands.{SeenLink};
ghost use Rattle.plan_types.specs.Machines.{IsValidMachine};
ghost use Rattle.session_run.specs.Runs.{AreFirstLinks, RunsOver};
ghost use Rattle.wire_scene.specs.Scenes.{NumbersRise, SwitchesRise};
ghost use Rattle.wire_scene.specs.Valid.{IsValidScene};

use crate::link::BoardLink;
use crate::motion::Planning;
use crate::reactor::Host;
use crate::{Job, Kept, run_with};
use io_core::{Files, Gate, Sink};
use plan_types::{BoardDef, Machine};
use session_lanes::{Machines, Told};
use session_work::Runtime;
use std::alloc::{AllocError, Global};
use std::sync::Wait;
use std::thread::Threads;
use wire_scene::Scene;

/// Adds a link for each of these boards, of which the first has this number in the scene.
fn add_links(
    alloc: Global,
    boards: &[BoardDef],
    scene: &Scene,
    index: u8,
    links: &mut Vec<BoardLink>,
) -> Result<(), AllocError>
    requires few { index + length boards.now ≤ 8 }
    requires numbers { NumbersRise scene.now.entries }
    requires ticks { SwitchesRise scene.now.switches }
    ensures { OnOk result ((more : List SeenLink) × (links.new.items ≡ links.old.items ++ more)
        × AreFirstLinks scene.now index boards.now more) }
{
    match boards {
        [] => Ok(()),
        [board, rest @ ..] => {
            links.push(BoardLink::new(alloc, board, scene, index)?)?;
            add_links(alloc, rest, scene, index + 1, links)
        }
    }
}

/// A link for each board, on which nothing has happened.
fn first_links(
    alloc: Global,
    boards: &[BoardDef],
    scene: &Scene,
) -> Result<Vec<BoardLink>, AllocError>
    requires few { length boards.now ≤ 8 }
    requires numbers { NumbersRise scene.now.entries }
    requires ticks { SwitchesRise scene.now.switches }
    ensures { IfOk result (λ links. AreFirstLinks scene.now 0 boards.now links.items) }
{
    let mut links = Vec::new(alloc);
    add_links(alloc, boards, scene, 0, &mut links)?;
    Ok(links)
}

/// Runs a file of G-code on a machine in a scene, over borrowed files and a borrowed output: the planner and
/// each link in a thread of its own beside the reactor, or all on the calling thread where one can't be
/// started. What there is to tell of it, nothing where memory was wanted before the first turn.
pub fn run_file<'a, R: Threads + Wait + Sync, G: Gate + Sync, F: Files, S: Sink>(
    rt: &Runtime<'_, R, G>,
    job: &Job<'a>,
    files: &mut F,
    out: &mut S,
    kept: &mut Kept,
) -> Option<Told<Host<'a>>>
    requires machine { IsValidMachine job.now.machine.now }
    requires scene { IsValidScene job.now.machine.now job.now.scene.now }
    ensures ran { IfSome result (λ t. RunsOver F.Files S.Sink job.now.machine.now job.now.scene.now job.now.name.now
        files.old out.old kept.old t files.new out.new kept.new) }
    ensures none { IfNone result ((files.new ≡ files.old) × (out.new ≡ out.old) × (kept.new ≡ kept.old)) }
{
    let alloc = rt.alloc;
    let machine = job.machine;
    let scene = job.scene;
    let Ok(links) = first_links(alloc, machine.boards.as_slice(), scene) else {
        return None;
    };
    let motion = Planning::new(alloc, machine);
    let reactor = Host::new(alloc, machine, scene);
    let machines = Machines {
        motion,
        links,
        reactor,
    };
    run_with(rt, job, machines, files, out, kept)
}
