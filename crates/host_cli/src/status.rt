//! The exit status of the program.

ghost use Rattle.std.specs.Prelude.{◌≡◌, ◌≢◌, OnErr, OnOk};

use io_core::Failed;

/// The exit status of a run that ended with a status and whose output was then ended: that of a failed write where the
/// output's end failed, unless memory was wanted before.
pub fn exit_status(status: u8, output: Result<(), Failed>) -> u8
    ensures written { OnOk output (result ≡ status) }
    ensures failed { OnErr output (status ≢ 1 → result ≡ 4) }
    ensures memory { status ≡ 1 → result ≡ 1 }
{
    if output.is_err() && status != 1 {
        4
    } else {
        status
    }
}
