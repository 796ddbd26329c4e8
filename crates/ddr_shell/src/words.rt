//! The words of the command line, and those that ask the program for itself.
//!
//! Nothing of the crate stands below, and the programs above.
use ddr_text::fault::Fault;
use ddr_words::ending::Ending;
use ddr_words::job::{JobError, job};
use std::{env, io};

/// The program, and the kit that it was proved with.
const VERSION: &str = "ddr 1.0 (rattle-kit-13f logic dac8208d650f15bf)";

/// The words of the command line, the program's name first. Fails as `NotText` where one is not UTF-8, and as `OutOfMemory`.
pub fn words(rt: &HostRuntime) -> Result<Vec<String>, Ending> {
    match env::args(rt) {
        Ok(words) => Ok(words.collect(rt.alloc())?),
        Err(error) if error.kind() == io::ErrorKind::OutOfMemory => {
            Err(Ending::Fault(Fault::OutOfMemory))
        }
        Err(_) => Err(Ending::NotText),
    }
}

/// Tells on standard output which program this is, or how it is used, where the words are `--version` or `help` alone; answers
/// whether they are.
pub fn tells_of_itself(rt: &HostRuntime, words: &[&str]) -> Result<bool, Ending> {
    if words.len() != 2 {
        return Ok(false);
    }
    let told = match words[1] {
        "--version" => println!(rt; "{VERSION}"),
        "help" => match job(rt.alloc(), &["ddr", "--help"]) {
            Ok(_) => Ok(()),
            Err(JobError::Words(help)) => print!(rt; "{help}"),
            Err(JobError::Misuse(misuse)) => print!(rt; "{misuse}"),
        },
        _ => return Ok(false),
    };
    match told {
        Ok(()) => Ok(true),
        Err(_) => Err(Ending::Fault(Fault::Write)),
    }
}
