//! What is wanted of an output.

ghost use Rattle.std.specs.Prelude.{◌≡◌, ◌<◌, ◌+◌, drop, length, slice_index_or};
ghost use Rattle.digital_out.specs.Rising.{no_want};

/// A level that is wanted of an output from a tick on.
#[derive(Clone, Copy, Debug, PartialEq, Eq)]
pub struct Want {
    pub tick: u64,
    pub on: bool,
}

/// The want of a number.
pub fn nth(wants: &[Want], i: usize) -> Want
    requires { i < length wants.now }
    ensures { result ≡ slice_index_or wants.now i no_want }
{
    wants[i]
}

/// The wants behind that of a number.
pub fn behind(wants: &[Want], i: usize) -> &[Want]
    requires { i < length wants.now }
    ensures { result.now ≡ drop (i + 1) wants.now }
{
    &wants[i + 1..]
}
