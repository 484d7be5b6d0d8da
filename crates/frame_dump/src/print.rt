//! The text of a dump and of a replay.

ghost use Rattle.std.specs.Prelude.{◌≡◌, ◌++◌, ◌<◌, ◌≤◌, OnOk, IfOk};
ghost use Rattle.std.specs.Fmt.{signed_decimal};
ghost use Rattle.report_text.specs.Text.{direction_word};
ghost use Rattle.frame_dump.specs.Text as specs;
ghost use Rattle.msg_code.specs.Table.{params_of};
ghost use Rattle.frame_dump.specs.Text.{arguments_text, command_text, steps_text, dump_text, hex_digit, hex_text, kind_word, line_text, param_text, params_text, pulse_text, replay_text, state_text, taken_word};

use crate::line::DumpLine;
use crate::playing::Replayed;
use msg_code::{Cmd, CodeFault, Param};
use plan_types::{BoardState, Pulse};
use report_text::Piece::{Number, Text};
use report_text::put_pieces;
use std::alloc::{AllocError, Global};
use text_core::cut;

/// A hexadecimal digit, in capitals.
fn hex_digit(value: u8) -> u8
    requires { value < 16 }
    ensures { result ≡ hex_digit value }
{
    if value < 10 { b'0' + value } else { 55 + value }
}

/// Adds bytes, each as two hexadecimal digits.
fn put_hex(out: &mut Vec<u8>, bytes: &[u8]) -> Result<(), AllocError>
    ensures { OnOk result (out.new.items ≡ out.old.items ++ hex_text bytes.now) }
{
    let mut rest = bytes;
    while let [byte, others @ ..] = rest {
        out.push(hex_digit(*byte / 16))?;
        out.push(hex_digit(*byte % 16))?;
        rest = others;
    }
    Ok(())
}

/// Adds a parameter.
fn put_param(out: &mut Vec<u8>, param: &Param) -> Result<(), AllocError>
    ensures { OnOk result (out.new.items ≡ out.old.items ++ param_text param.now) }
{
    match param {
        Param::Number(number) => put_pieces(out, &[Number(u64::from(*number))]),
        Param::Bytes(bytes) => put_hex(out, bytes.as_slice()),
    }
}

/// Adds parameters, each behind a blank.
fn put_params(out: &mut Vec<u8>, params: &[Param]) -> Result<(), AllocError>
    ensures { OnOk result (out.new.items ≡ out.old.items ++ params_text params.now) }
{
    let mut rest = params;
    while let [param, others @ ..] = rest {
        out.push(b' ')?;
        put_param(out, param)?;
        rest = others;
    }
    Ok(())
}

/// Adds a signed number.
fn put_signed(out: &mut Vec<u8>, number: i16) -> Result<(), AllocError>
    ensures { OnOk result (out.new.items ≡ out.old.items ++ signed_decimal number) }
{
    let size = Number(u64::from(number.unsigned_abs()));
    if number < 0 {
        put_pieces(out, &[Text(b"-"), size])
    } else {
        put_pieces(out, &[size])
    }
}

/// Adds the parameters of steps.
fn put_steps(
    out: &mut Vec<u8>,
    oid: u8,
    interval: u32,
    count: u16,
    add: i16,
) -> Result<(), AllocError>
    ensures { OnOk result (out.new.items ≡ out.old.items ++ steps_text oid interval count add) }
{
    put_pieces(
        out,
        &[
            Text(b" "),
            Number(u64::from(oid)),
            Text(b" "),
            Number(u64::from(interval)),
            Text(b" "),
            Number(u64::from(count)),
            Text(b" "),
        ],
    )?;
    put_signed(out, add)
}

/// Adds the parameters of a command.
fn put_arguments(out: &mut Vec<u8>, command: &Cmd, params: &[Param]) -> Result<(), AllocError>
    requires { params.now ≡ params_of command.now }
    ensures { OnOk result (out.new.items ≡ out.old.items ++ arguments_text command.now) }
{
    match command {
        Cmd::QueueStep {
            oid,
            interval,
            count,
            add,
        } => put_steps(out, *oid, *interval, *count, *add),
        _ => put_params(out, params),
    }
}

/// Adds the line of a command.
fn put_command(out: &mut Vec<u8>, command: &Cmd) -> Result<(), AllocError>
    ensures { OnOk result (out.new.items ≡ out.old.items ++ command_text command.now) }
{
    let (row, params) = command.parts();
    let name = cut(row.format().as_bytes(), b' ');
    put_pieces(out, &[Text(b"cmd "), Text(name)])?;
    put_arguments(out, command, params.as_slice())?;
    out.push(b'\n')?;
    Ok(())
}

fn taken_word(taken: bool) -> &'static [u8]
    ensures { result.now ≡ taken_word taken }
{
    if taken { b" taken\n" } else { b" dropped\n" }
}

fn kind_word(kind: CodeFault) -> &'static [u8]
    ensures { result.now ≡ kind_word kind }
{
    match kind {
        CodeFault::UnknownId => b" UnknownId\n",
        CodeFault::Short => b" Short\n",
        CodeFault::UnknownName => b" UnknownName\n",
    }
}

/// Adds a line of a dump.
fn put_line(out: &mut Vec<u8>, line: &DumpLine) -> Result<(), AllocError>
    ensures { OnOk result (out.new.items ≡ out.old.items ++ line_text line.now) }
{
    match line {
        DumpLine::Skip { turn } => put_pieces(out, &[Text(b"skip "), Number(*turn), Text(b"\n")]),
        DumpLine::Bad { turn, bytes } => put_pieces(
            out,
            &[
                Text(b"bad "),
                Number(*turn),
                Text(b" "),
                Number(*bytes),
                Text(b"\n"),
            ],
        ),
        DumpLine::Block {
            turn,
            number,
            taken,
        } => put_pieces(
            out,
            &[
                Text(b"block "),
                Number(*turn),
                Text(b" "),
                Number(u64::from(*number)),
                Text(taken_word(*taken)),
            ],
        ),
        DumpLine::Command { command } => put_command(out, command),
        DumpLine::Rest { bytes, kind } => {
            put_pieces(
                out,
                &[Text(b"rest "), Number(*bytes), Text(kind_word(*kind))],
            )
        }
        DumpLine::Open { bytes } => put_pieces(out, &[Text(b"open "), Number(*bytes), Text(b"\n")]),
    }
}

/// The text of a dump.
pub fn dump_text(alloc: Global, lines: &[DumpLine]) -> Result<Vec<u8>, AllocError>
    ensures { IfOk result (λ text. text.items ≡ dump_text lines.now) }
{
    let mut text = Vec::new(alloc);
    let mut rest = lines;
    while let [line, others @ ..] = rest {
        put_line(&mut text, line)?;
        rest = others;
    }
    Ok(text)
}

fn direction_word(up: bool) -> &'static [u8]
    ensures { result.now ≡ direction_word up }
{
    if up { b" +\n" } else { b" -\n" }
}

/// Adds the line of a pulse.
fn put_pulse(out: &mut Vec<u8>, board: &[u8], pulse: &Pulse) -> Result<(), AllocError>
    ensures { OnOk result (out.new.items ≡ out.old.items ++ pulse_text board.now pulse.now) }
{
    put_pieces(
        out,
        &[
            Text(b"pulse "),
            Text(board),
            Text(b" "),
            Number(u64::from(pulse.stepper)),
            Text(b" "),
            Number(pulse.tick),
            Text(direction_word(pulse.up)),
        ],
    )
}

/// Adds the lines of pulses.
fn put_pulses(out: &mut Vec<u8>, board: &[u8], pulses: &[Pulse]) -> Result<(), AllocError>
    ensures { OnOk result (out.new.items ≡ out.old.items ++ specs.pulses_text board.now pulses.now) }
{
    let mut rest = pulses;
    while let [pulse, others @ ..] = rest {
        put_pulse(out, board, pulse)?;
        rest = others;
    }
    Ok(())
}

/// Adds the line of a state.
fn put_state(out: &mut Vec<u8>, state: &BoardState) -> Result<(), AllocError>
    ensures { OnOk result (out.new.items ≡ out.old.items ++ state_text state.now) }
{
    match *state {
        BoardState::Running => out.extend_from_slice(b"state running\n"),
        BoardState::Shut {
            reason,
            tick,
            first,
        } => put_pieces(
            out,
            &[
                Text(b"state shut "),
                Number(u64::from(reason)),
                Text(b" "),
                Number(tick),
                Text(b" "),
                Number(first),
                Text(b"\n"),
            ],
        ),
    }
}

/// The text of a replay on a board of this name.
pub fn replay_text(alloc: Global, board: &[u8], replay: &Replayed) -> Result<Vec<u8>, AllocError>
    ensures { IfOk result (λ text. text.items ≡ replay_text board.now replay.now.pulses.items replay.now.state) }
{
    let mut text = Vec::new(alloc);
    put_pulses(&mut text, board, replay.pulses.as_slice())?;
    put_state(&mut text, &replay.state)?;
    Ok(text)
}
