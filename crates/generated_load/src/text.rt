//! The G-code of a load.

ghost use Rattle.std.specs.Prelude.{◌≡◌, ◌++◌, ◌+◌, ◌<◌, ◌≤◌, ◌^◌, length, OnOk, IfOk};
ghost use Rattle.arrayvec.specs.ArrayVec.{array_vec_len};
ghost use Rattle.generated_load.specs.Text as specs;
ghost use Rattle.generated_load.specs.Text.{digit, millimetres};

use crate::OutOfMemory;
use arrayvec::ArrayVec;
use itoa::Buffer;
use std::alloc::Global;

/// Coordinates are from 0 to 200 mm, in micrometres.
const PLACES: u64 = 200_001;

/// A line of a load.
pub type Line = ArrayVec<u8, 21>;

/// One step of the generator.
pub fn next(state: u64) -> u64
    ensures { result ≡ specs.next_random state }
{
    state
        .wrapping_mul(6_364_136_223_846_793_005)
        .wrapping_add(1_442_695_040_888_963_407)
}

/// The decimal digit of a number below ten.
fn digit(number: u64) -> u8
    requires { number < 10 }
    ensures { result ≡ digit number }
{
    b'0' + number as u8
}

/// Adds bytes to a line that has room for them.
fn put(line: &mut Line, bytes: &[u8])
    requires room { array_vec_len line.old + length bytes.now ≤ 21 }
    ensures text { line.new.items ≡ line.old.items ++ bytes.now }
    ensures size { array_vec_len line.new ≡ array_vec_len line.old + length bytes.now }
{
    // It is not refused: there is room.
    let _ = line.try_extend_from_slice(bytes);
}

/// Adds micrometres as millimetres with three decimals.
fn put_millimetres(line: &mut Line, micrometres: u64)
    requires place { micrometres < 200_001 }
    requires room { array_vec_len line.old ≤ 14 }
    ensures text { line.new.items ≡ line.old.items ++ millimetres micrometres }
    ensures size { array_vec_len line.new ≤ array_vec_len line.old + 7 }
{
    let mut buffer = Buffer::new();
    put(line, buffer.format(micrometres / 1_000).as_bytes());
    put(
        line,
        &[
            b'.',
            digit(micrometres / 100 % 10),
            digit(micrometres / 10 % 10),
            digit(micrometres % 10),
        ],
    );
}

/// The upper 31 bits of a state of the generator, of which the place of a move is made.
pub fn upper(state: u64) -> u64
    ensures { result ≡ specs.upper state }
{
    state >> 33
}

/// The line of a move, to the place that any number stands for: x is its remainder by the number of places, y
/// that of its quotient.
pub fn move_line(number: u64) -> Line
    ensures { result.items ≡ specs.move_line number }
{
    let mut line = Line::new();
    put(&mut line, b"G1 X");
    put_millimetres(&mut line, number % PLACES);
    put(&mut line, b" Y");
    put_millimetres(&mut line, number / PLACES % PLACES);
    put(&mut line, b"\n");
    line
}

/// The first line of a load.
pub fn first_line() -> Line
    ensures { result.items ≡ specs.first_line }
{
    let mut line = Line::new();
    put(&mut line, b"G1 F6000\n");
    line
}
