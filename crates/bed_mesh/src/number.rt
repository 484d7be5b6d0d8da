//! Numbers with six decimals.

ghost use Rattle.std.specs.Prelude.{◌≡◌, ◌++◌, OnOk};
ghost use Rattle.bed_mesh.specs.Numbers.{millionths, six_digits, unsigned_text, word};

use report_text::Piece::{Number, Text};
use report_text::put_pieces;
use std::alloc::AllocError;

/// The six decimals of a number of millionths.
fn six_digits(number: u64) -> [u8; 6]
    ensures { result ≡ six_digits number }
{
    [
        b'0' + (number / 100_000 % 10) as u8,
        b'0' + (number / 10_000 % 10) as u8,
        b'0' + (number / 1_000 % 10) as u8,
        b'0' + (number / 100 % 10) as u8,
        b'0' + (number / 10 % 10) as u8,
        b'0' + (number % 10) as u8,
    ]
}

/// Adds a number of millionths.
fn put_unsigned(out: &mut Vec<u8>, number: u64) -> Result<(), AllocError>
    ensures { OnOk result (out.new.items ≡ out.old.items ++ unsigned_text number) }
{
    let decimals = six_digits(number);
    put_pieces(
        out,
        &[Number(number / 1_000_000), Text(b"."), Text(&decimals)],
    )
}

/// Adds a number of millionths, with a `-` where it is below 0.
#[tactic(auto, unfolding(crate::specs::Numbers::millionths))]
fn put_millionths(out: &mut Vec<u8>, number: i64) -> Result<(), AllocError>
    ensures { OnOk result (out.new.items ≡ out.old.items ++ millionths number) }
{
    if number < 0 {
        out.push(b'-')?;
    }
    put_unsigned(out, number.unsigned_abs())
}

/// Adds a letter with what stands before it, and a number of millionths.
#[tactic(auto, unfolding(crate::specs::Numbers::word))]
pub(crate) fn put_word(out: &mut Vec<u8>, letter: &[u8], number: i64) -> Result<(), AllocError>
    ensures { OnOk result (out.new.items ≡ out.old.items ++ word letter.now number) }
{
    out.extend_from_slice(letter)?;
    put_millionths(out, number)
}
