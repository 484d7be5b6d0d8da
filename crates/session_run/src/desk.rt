//! Borrowed files and a borrowed output as what a run reaches outside.
ghost use Rattle.std.specs.Prelude.{◌≡◌, ◌≤◌, ℕ, List, [], Some, None, false, vec_len, IfSome, IfOk, IfErr, IfNone, OnOk};
ghost use Rattle.session_run.specs.Desks.{IsToldRun, cause_of};
ghost use Rattle.session_run.specs.Reads.{CountsReads, IsNextPiece};

use crate::read::{ReadStop, read_piece};
use crate::tell::{Kept, tell_lines};
use io_core::{Files, Gate, Sink};
use plan_types::{Cause, Listed, Machine};
use report_text::{LinePrinter, ReportLine};
use session_lanes::{Machines, Told, run_back};
use session_work::{LinkMachine, MotionMachine, Outside, Piece, ReactorMachine, Runtime};
use std::alloc::Global;
use std::sync::Wait;
use std::thread::Threads;
use wire_scene::Scene;

/// Borrowed files and a borrowed output, and what is kept of the run. All that the caller wants to know of
/// afterwards is behind a reference.
pub struct Desk<'a, 'm, F, S> {
    pub files: &'a mut F,
    pub out: &'a mut S,
    pub kept: &'a mut Kept,
    /// The machine whose names the report has.
    pub machine: &'a LinePrinter<'m>,
    /// The file of the text.
    pub name: &'a str,
    pub alloc: Global,
}

impl<'a, 'm, F, S> Drop for Desk<'a, 'm, F, S> {
    fn drop(self)
        ensures files { self.exit.0.now ≡ self.entry.files.now }
        ensures out { self.exit.1.0.now ≡ self.entry.out.now }
        ensures kept { self.exit.1.1.0.now ≡ self.entry.kept.now }
    {
        let Desk {
            files: _,
            out: _,
            kept: _,
            machine: _,
            name: _,
            alloc: _,
        } = self;
    }
}

/// The cause that ends a run whose text can't be read.
fn cause_of(stop: ReadStop) -> Cause
    ensures { result ≡ cause_of stop }
{
    match stop {
        ReadStop::Memory => Cause::Memory,
        ReadStop::Failed => Cause::ReadFault,
    }
}

// The next piece, unless the reading stopped before.
fn next_piece<F: Files>(
    files: &mut F,
    kept: &mut Kept,
    alloc: Global,
    name: &str,
    number: u64,
    turn: u64,
) -> Result<Piece, ReadStop>
    ensures next { IfOk result (λ p. IsNextPiece F.Files name.now files.old kept.old.at p kept.new.at) }
    ensures number { IfOk result (λ p. (p.number ≡ number) × (p.turn ≡ turn) × (p.stop ≡ false)) }
    ensures unread { OnOk result (kept.new.unread ≡ kept.old.unread) }
    ensures stopped { IfErr result (λ stop. (kept.new.unread ≡ Some stop) × (kept.new.at ≡ kept.old.at)) }
    ensures counts { CountsReads kept.old.unread (F.faults files.old) kept.new.unread (F.faults files.new) }
    ensures never_fall { F.faults files.old ≤ F.faults files.new }
    ensures told { (other : List ℕ) → F.told files.new other ≡ F.told files.old other }
    ensures lines { kept.new.lines ≡ kept.old.lines }
    ensures counts_same { kept.new.counts ≡ kept.old.counts }
    ensures unwritten { kept.new.unwritten ≡ kept.old.unwritten }
{
    if let Some(stop) = kept.unread {
        return Err(stop);
    }
    match read_piece(files, alloc, name, number, turn, &mut kept.at) {
        Ok(piece) => Ok(piece),
        Err(stop) => {
            kept.unread = Some(stop);
            Err(stop)
        }
    }
}

impl<'a, 'm, F: Files, S: Sink> Outside for Desk<'a, 'm, F, S> {
    ghost use Rattle.std.specs.Prelude.{◌≡◌, []};
    ghost use Rattle.session_run.specs.Desks.{Desked, Serves, Writes};

    ghost writes = { λ x lines y ok. Desked F.Files S.Sink x lines y × Writes x y ok };

    ghost serves = { λ x number r y.
        Desked F.Files S.Sink x [] y × Serves F.Files x r y × (y.kept.now.unwritten ≡ x.kept.now.unwritten) };

    fn write(&mut self, lines: Listed<ReportLine>) -> bool {
        tell_lines(self.kept, self.machine, lines.as_slice(), self.out);
        self.kept.unwritten.is_none()
    }

    fn piece(&mut self, number: u64, turn: u64) -> Result<Piece, Cause> {
        match next_piece(self.files, self.kept, self.alloc, self.name, number, turn) {
            Ok(piece) => Ok(piece),
            Err(stop) => Err(cause_of(stop)),
        }
    }
}

/// What is run: the file of a name, on a machine in a scene.
#[derive(Clone, Copy)]
pub struct Job<'a> {
    pub machine: &'a Machine,
    pub scene: &'a Scene,
    pub name: &'a str,
}

/// Runs machines over a borrowed file and a borrowed output, in threads or, where one can't be started, on
/// the calling one: what there is to tell of it, nothing where memory was wanted before the first turn.
pub fn run_with<
    R: Threads + Wait + Sync,
    G: Gate + Sync,
    M: MotionMachine + Send,
    L: LinkMachine + Send,
    A: ReactorMachine,
    F: Files,
    S: Sink,
>(
    rt: &Runtime<'_, R, G>,
    job: &Job<'_>,
    machines: Machines<M, L, A>,
    files: &mut F,
    out: &mut S,
    kept: &mut Kept,
) -> Option<Told<A>>
    requires boards { (M.boards machines.motion ≡ vec_len machines.links)
        × (A.boards machines.reactor ≡ vec_len machines.links) }
    requires wants { M.wants machines.motion 0 ≡ Some 0 }
    ensures ran { IfSome result (λ t. IsToldRun M.MotionMachine L.LinkMachine A.ReactorMachine F.Files S.Sink
        job.now.machine.now job.now.name.now machines.motion machines.links.items machines.reactor files.old out.old
        kept.old t files.new out.new kept.new) }
    ensures none { IfNone result ((files.new ≡ files.old) × (out.new ≡ out.old) × (kept.new ≡ kept.old)) }
{
    let Ok(printer) = LinePrinter::new(rt.alloc, job.machine) else {
        return None;
    };
    let mut told = None;
    let desk = Desk {
        files,
        out,
        kept,
        machine: &printer,
        name: job.name,
        alloc: rt.alloc,
    };
    let desk = run_back(rt, machines, desk, &mut told);
    drop(desk);
    told
}
