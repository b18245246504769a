ghost use Rattle.std.specs.Prelude.{◌≡◌, string_bytes, IfOk};
ghost use Rattle.app_probe_cli.specs.Output.{fault_word, probed_line};

use app_probe::Probed;
use std::alloc::{AllocError, Global};

/// Whether it ended in a host system error, as a word.
fn word_of_fault(fault: bool) -> &'static str
    ensures { result.now ≡ fault_word fault }
{
    if fault { "yes" } else { "no" }
}

/// The line that tells what a controller did.
pub fn line_of(alloc: Global, probed: &Probed) -> Result<String, AllocError>
    ensures { IfOk result (λ line. string_bytes line ≡ probed_line probed.now) }
{
    let fault = word_of_fault(probed.fault);
    format!(in alloc;
        "steps {} foreign {} fault {fault}\n",
        probed.steps, probed.foreign
    )
}
