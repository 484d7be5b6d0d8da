//! The top call: a command from its words to the end of its report.

ghost use Rattle.std.specs.Prelude.{◌≡◌, None, map, string_bytes};
ghost use Rattle.command_words.specs.Forms.{asked};
ghost use Rattle.host_cli.specs.Asks.{Answers, CountsFaults};
ghost use Rattle.session_run.specs.Ends.{status_of};

use crate::check::run_check;
use crate::fan::run_fan;
use crate::load::run_load;
use crate::mesh::{MeshWords, run_mesh};
use crate::scene::{refuse, run_plain, run_scene};
use crate::traffic::{Task, TrafficWords, run_traffic};
use command_words::{Words, WordsFault, read_words};
use generated_load::LoadFiles;
use io_core::{Files, Gate, Sink, SureSink};
use plan_types::Cause;
use session_run::{Ended, Runtime};
use std::alloc::Global;
use std::sync::Wait;
use std::thread::Threads;

/// Runs the words of a command: reads the files that they name, and writes the report to an output as it stands. The
/// runtime and the gate are for the workers of a run over links, which go on threads.
///
/// # Errors
///
/// None: how the run ended, its cause among it, is the answer.
pub fn host_main<R: Threads + Wait + Sync, F: Files, S: Sink, G: Gate + Sync>(
    rt: &R,
    alloc: Global,
    words: &[String],
    files: &mut F,
    out: &mut S,
    gate: &G,
) -> Ended
    ensures answers { Answers F.Files S.Sink ⟦<LoadFiles as Files>⟧ ⟦<SureSink as Sink>⟧
        files.old files.new out.old out.new result (asked (map string_bytes words.now)) }
    ensures usage_only { result.cause ≡ Cause.Usage → asked (map string_bytes words.now) ≡ None }
    ensures faults { CountsFaults (F.faults files.old) (F.faults files.new) (S.faults out.old) (S.faults out.new)
        result.cause }
    ensures status { result.status ≡ status_of result.cause }
{
    let rt = Runtime {
        threads: rt,
        alloc,
        gate,
    };
    match read_words(alloc, words) {
        Ok(Words::Run { config, gcode }) => run_plain(&rt, config, gcode, files, out),
        Ok(
            Words::Scene {
                config,
                gcode,
                scene,
            },
        ) => run_scene(&rt, config, gcode, scene, files, out),
        Ok(Words::Make { seed, moves }) => run_load(&rt, seed, moves, out),
        Ok(Words::Fan { config, gcode }) => run_fan(alloc, config, gcode, files, out),
        Ok(
            Words::Check {
                config,
                gcode,
                report,
            },
        ) => run_check(alloc, config, gcode, report, files, out),
        Ok(
            Words::Dump {
                config,
                board,
                trace,
            },
        ) => {
            let task = TrafficWords {
                task: Task::Dump,
                config,
                board,
                trace,
            };
            run_traffic(alloc, &task, files, out)
        }
        Ok(
            Words::Replay {
                config,
                board,
                trace,
            },
        ) => {
            let task = TrafficWords {
                task: Task::Replay,
                config,
                board,
                trace,
            };
            run_traffic(alloc, &task, files, out)
        }
        Ok(
            Words::Mesh {
                config,
                gcode,
                table,
            },
        ) => {
            let bed = MeshWords {
                config,
                gcode,
                table,
            };
            run_mesh(alloc, &bed, files, out)
        }
        Err(WordsFault::Usage) => refuse(alloc, Cause::Usage, out),
        Err(WordsFault::Memory) => refuse(alloc, Cause::Memory, out),
    }
}
