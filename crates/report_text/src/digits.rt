//! Digits that are put into a line where they stand.

ghost use Rattle.std.specs.Prelude.{◌≡◌, ◌+◌, ◌/◌, ◌%◌, ◌<◌, ◌≤◌, ◌++◌, decimal, length, take};
ghost use Rattle.report_text.specs.Digits.{pair, four, eight};

/// The numbers below 100, in two digits each.
static PAIRS: [u8; 200] =
    *b"00010203040506070809101112131415161718192021222324252627282930313233343536373839404142434445464748495051525354555657585960616263646566676869707172737475767778798081828384858687888990919293949596979899";

/// Puts a text at a place of a line: the place behind it.
#[inline(always)]
pub fn place(line: &mut [u8], at: usize, text: &[u8]) -> usize
    requires { at + length text.now ≤ length line.old }
    ensures bytes { take result line.new ≡ take at line.old ++ text.now }
    ensures end { result ≡ at + length text.now }
    ensures size { length line.new ≡ length line.old }
{
    let end = at + text.len();
    line[at..end].copy_from_slice(text);
    end
}

/// A number below 100 in two digits.
#[inline(always)]
fn pair_of(number: u64) -> [u8; 2]
    requires { number < 100 }
    ensures { result ≡ pair number }
{
    let at = number as usize * 2;
    [PAIRS[at], PAIRS[at + 1]]
}

/// A number below 10,000 in four digits.
#[inline(always)]
fn four_of(number: u64) -> [u8; 4]
    requires { number < 10000 }
    ensures { result ≡ four number }
{
    let front = pair_of(number / 100);
    let last = pair_of(number % 100);
    [front[0], front[1], last[0], last[1]]
}

/// A number below 100,000,000 in eight digits.
#[inline(always)]
fn eight_of(number: u64) -> [u8; 8]
    requires { number < 100000000 }
    ensures { result ≡ eight number }
{
    let front = four_of(number / 10_000);
    let last = four_of(number % 10_000);
    [
        front[0], front[1], front[2], front[3], last[0], last[1], last[2], last[3],
    ]
}

/// Puts a number below 10,000 at a place of a line, without leading zeros: the place behind it.
#[inline(always)]
fn place_short(line: &mut [u8], at: usize, number: u64) -> usize
    requires { (number < 10000) × (at + length (decimal number) ≤ length line.old) }
    ensures bytes { take result line.new ≡ take at line.old ++ decimal number }
    ensures end { result ≡ at + length (decimal number) }
    ensures size { length line.new ≡ length line.old }
{
    if number >= 1000 {
        return place(line, at, &four_of(number));
    }
    if number >= 100 {
        let last = pair_of(number % 100);
        return place(line, at, &[b'0' + (number / 100) as u8, last[0], last[1]]);
    }
    if number >= 10 {
        return place(line, at, &pair_of(number));
    }
    place(line, at, &[b'0' + number as u8])
}

/// Puts a number of at most eight digits: most ticks are of this kind.
#[inline(always)]
fn place_eight(line: &mut [u8], at: usize, number: u64) -> usize
    requires { (number < 100000000) × (at + length (decimal number) ≤ length line.old) }
    ensures bytes { take result line.new ≡ take at line.old ++ decimal number }
    ensures end { result ≡ at + length (decimal number) }
    ensures size { length line.new ≡ length line.old }
{
    if number < 10_000 {
        return place_short(line, at, number);
    }
    let end = place_short(line, at, number / 10_000);
    place(line, end, &four_of(number % 10_000))
}

/// Puts a number at a place of a line: the place behind it.
#[inline]
pub fn place_number(line: &mut [u8], at: usize, number: u64) -> usize
    requires { at + length (decimal number) ≤ length line.old }
    ensures bytes { take result line.new ≡ take at line.old ++ decimal number }
    ensures end { result ≡ at + length (decimal number) }
    ensures size { length line.new ≡ length line.old }
{
    if number < 100_000_000 {
        return place_eight(line, at, number);
    }
    let front = number / 100_000_000;
    if front < 100_000_000 {
        let end = place_eight(line, at, front);
        return place(line, end, &eight_of(number % 100_000_000));
    }
    let first = place_short(line, at, front / 100_000_000);
    let second = place(line, first, &eight_of(front % 100_000_000));
    place(line, second, &eight_of(number % 100_000_000))
}
