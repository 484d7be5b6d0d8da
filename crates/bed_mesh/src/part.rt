//! Parts of values, and what they come to by the whole.

ghost use Rattle.std.specs.Prelude.{◌≡◌, ◌*◌, ◌<◌, ◌≤◌, ◌^◌, ◌*ℤ◌, pos, unsigned_abs};
ghost use Rattle.std.specs.Int.{int_div_euclid};

/// So many parts of a value.
pub fn weighted(value: i64, number: u64, whole: u64) -> i128
    requires part { number ≤ whole }
    requires small { unsigned_abs value ≤ 2 ^ 31 }
    requires few { whole ≤ 2 ^ 62 }
    ensures value { result ≡ value *ℤ pos number }
    ensures bound { unsigned_abs result ≤ unsigned_abs value * whole }
{
    let product = i128::from(value) * i128::from(number);
    product
}

/// A sum of so many parts of values, by the whole, rounded down.
pub fn part_of(sum: i128, whole: u64, most: u64) -> i64
    requires bound { unsigned_abs sum ≤ most * whole }
    requires some { 0 < whole }
    requires small { most ≤ 2 ^ 31 }
    ensures value { result ≡ int_div_euclid sum (pos whole) }
    ensures low { unsigned_abs result ≤ most }
{
    let quotient = sum.div_euclid(i128::from(whole));
    quotient as i64
}
