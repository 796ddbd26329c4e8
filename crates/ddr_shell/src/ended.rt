//! How a program ends before its command is done.
//!
//! Nothing of the crate stands below, and the programs above.
use ddr_words::ending::Ending;
use std::process::ExitCode;

/// Says on standard error what ended the program, and gives its status. Where standard error can't be written to, the status alone
/// tells.
pub fn ended(rt: &HostRuntime, ending: &Ending) -> ExitCode {
    let _ = match ending {
        Ending::NotText => eprintln!(rt; "ddr: words not UTF-8"),
        Ending::Words(error) => eprint!(rt; "{error}"),
        Ending::Misuse(misuse) => eprintln!(rt; "ddr: {misuse}"),
        Ending::Fault(fault) => eprintln!(rt; "ddr: {fault}"),
    };
    ExitCode::from(ending.status())
}
