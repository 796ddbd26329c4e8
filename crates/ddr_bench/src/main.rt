//! Runs the jobs that a user of the model waits for, over inputs that it makes itself, and prints a digest of all that they
//! write. It is for timing: `bench/workloads.txt` has the words that it is run with, and `bench/run` compares two builds by it.
//!
//! Below stand `ddr_text` with `check`, `ddr_sim` with `sim` and `ddr_explain` with `check --all`, whose functions over bytes in
//! memory are all that it calls; nothing stands above. `draw` has numbers by chance, `text` what inputs are put together by,
//! `scripts` and `traces` the inputs, `configs` their configurations, and `digest` the digest.
#![tactic(auto)]

mod configs;
mod digest;
mod draw;
mod scripts;
mod text;
mod traces;

use ddr_explain::all::check_all;
use ddr_sim::sim::sim;
use ddr_text::check::check;
use ddr_text::fault::Fault;
use digest::Digest;
use draw::Draw;
use std::alloc::Global;
use std::process::ExitCode;
use std::{env, io};

/// What is run, and on inputs of which kind.
#[derive(Clone, Copy)]
enum Job {
    /// `sim` of a script at lines by chance.
    Random,
    /// `sim` of a script of ports that go through memory line by line.
    Stream,
    /// `sim` of a script whose requests are far from one another.
    Sparse,
    /// `sim` of a script whose requests want few rows of few banks, on two ranks with rows that are closed.
    Ranks,
    /// The same on both ranks alike.
    BothRanks,
    /// `check` of a legal trace.
    Check,
    /// `check --all` of a trace with faults.
    Faults,
}

/// The jobs of a run of all: each but the one on both ranks, so that its digest is that of the first benchmark.
const JOBS: [Job; 6] = [
    Job::Random,
    Job::Stream,
    Job::Sparse,
    Job::Ranks,
    Job::Check,
    Job::Faults,
];

/// What the words ask for.
#[derive(Drop)]
struct Asked {
    /// None where each job is to be run.
    job: Option<Job>,
    /// How many inputs each job has.
    inputs: u64,
    /// How many requests or commands an input has.
    size: u64,
    /// What the inputs are drawn from.
    seed: u64,
}

/// The job of this name.
fn job_of(name: &str) -> Option<Job> {
    match name {
        "random" => Some(Job::Random),
        "stream" => Some(Job::Stream),
        "sparse" => Some(Job::Sparse),
        "ranks" => Some(Job::Ranks),
        "both_ranks" => Some(Job::BothRanks),
        "check" => Some(Job::Check),
        "faults" => Some(Job::Faults),
        _ => None,
    }
}

/// What the words say: a job or `all`, how many inputs, their size, and the seed.
fn read_words(words: &[&str]) -> Option<Asked> {
    let [_, name, inputs, size, seed] = words else {
        return None;
    };
    let job = job_of(name);
    if job.is_none() && *name != "all" {
        return None;
    }
    Some(Asked {
        job,
        inputs: inputs.parse::<u64>().ok()?,
        size: size.parse::<u64>().ok()?,
        seed: seed.parse::<u64>().ok()?,
    })
}

/// The next input of a job.
fn input_of(alloc: Global, job: Job, size: u64, draw: &mut Draw) -> Result<Vec<u8>, Fault> {
    match job {
        Job::Random => scripts::random(alloc, size, draw),
        Job::Stream => scripts::stream(alloc, size, draw),
        Job::Sparse => scripts::sparse(alloc, size, draw),
        Job::Ranks => scripts::ranks(alloc, size, draw),
        Job::BothRanks => scripts::both_ranks(alloc, size, draw),
        Job::Check => traces::legal(alloc, size, draw),
        Job::Faults => traces::faulty(alloc, size, draw),
    }
}

/// Runs a job on an input, and puts what it writes into the digest.
fn run_on(alloc: Global, job: Job, input: &[u8], digest: &mut Digest) -> Result<(), Fault> {
    let mut output = Vec::new(alloc);
    let mut reader = input;
    match job {
        Job::Random | Job::Stream | Job::Sparse | Job::Ranks | Job::BothRanks => {
            sim(alloc, false, None, &mut reader, &mut output)?;
        }
        Job::Check => {
            let legal = check(alloc, false, &mut reader, &mut output)?;
            digest.put(u64::from(legal));
        }
        Job::Faults => {
            let legal = check_all(alloc, false, None, &mut reader, &mut output)?;
            digest.put(u64::from(legal));
        }
    }
    digest.put_bytes(output.as_slice());
    Ok(())
}

/// Runs a job on so many inputs.
fn run(alloc: Global, job: Job, asked: &Asked, digest: &mut Digest) -> Result<(), Fault> {
    let mut draw = Draw::of_seed(asked.seed);
    for _input in 0..asked.inputs {
        let input = input_of(alloc, job, asked.size, &mut draw)?;
        run_on(alloc, job, input.as_slice(), digest)?;
    }
    Ok(())
}

/// Runs what is asked for.
fn run_all(alloc: Global, asked: &Asked, digest: &mut Digest) -> Result<(), Fault> {
    if let Some(job) = asked.job {
        return run(alloc, job, asked, digest);
    }
    for job in JOBS {
        run(alloc, job, asked, digest)?;
    }
    Ok(())
}

/// Runs what the words of the command line ask for; answers whether they ask for anything.
fn perform(rt: &HostRuntime) -> Result<bool, Fault> {
    let alloc = rt.alloc();
    let Ok(given) = env::args(rt) else {
        return Ok(false);
    };
    let words: Vec<String> = given.collect(alloc)?;
    let texts: Vec<&str> = words.iter().map(|word| word.as_str()).collect(alloc)?;
    let Some(asked) = read_words(texts.as_slice()) else {
        return Ok(false);
    };
    let mut digest = Digest::new();
    run_all(alloc, &asked, &mut digest)?;
    let bytes = digest.bytes();
    let value = digest.value();
    match println!(rt; "{bytes} bytes, digest {value}") {
        Ok(()) => Ok(true),
        Err(_) => Err(Fault::Write),
    }
}

fn main(rt: HostRuntime) -> ExitCode {
    let told: io::Result<()> = match perform(&rt) {
        Ok(true) => return ExitCode::SUCCESS,
        Ok(false) => eprintln!(rt; "usage: ddr_bench JOB INPUTS SIZE SEED"),
        Err(fault) => eprintln!(rt; "ddr_bench: {fault}"),
    };
    let _ = told;
    ExitCode::FAILURE
}
