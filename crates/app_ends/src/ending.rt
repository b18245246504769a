ghost use Rattle.std.specs.Prelude.{◌≡◌};
ghost use Rattle.std.specs.Process.{exit_status};
ghost use Rattle.app_ends.specs.Codes.{exit_code};

use crate::status::Status;
use std::process::ExitCode;

/// The exit status of the process for how the program ended. Other words are told on standard error how to call the program;
/// where that fails, the exit status is the same.
pub fn ended(rt: &impl Eprint, usage: &str, status: Status) -> ExitCode
    ensures { exit_status result ≡ exit_code status }
{
    if status == Status::Words {
        let _told = eprintln!(rt; "{usage}");
    }
    ExitCode::from(status.code())
}
