//! Asks for the scheduler's choice on one state again and again. It is for counting instructions: `tests/speed` has the words that
//! it is run with, and what a choice takes.
//!
//! `scene` has the states. Below stand `ddr_arbiter`, whose `choose` is all that is counted, and what its state is made of; nothing
//! stands above.
#![tactic(auto)]

ghost use Rattle.std.specs.Prelude.{◌≤◌, All};

mod scene;

use ddr_arbiter::choice::Choice;
use scene::{Banks, Scene};
use std::alloc::Global;
use std::process::ExitCode;
use std::{env, io};

/// What the words ask for.
#[derive(Drop)]
struct Asked {
    banks: Banks,
    /// How many requests are pending.
    pending: u32,
    /// How many times the choice is asked for.
    times: u64,
}

/// What the banks of this name do.
fn banks_of(name: &str) -> Option<Banks> {
    match name {
        "idle" => Some(Banks::Idle),
        "closing" => Some(Banks::OnOtherRows),
        "hit" => Some(Banks::OnRowOfYoungestRead),
        _ => None,
    }
}

/// What the words say: what the banks do, how many requests are pending, and how many times the choice is asked for.
fn read_words(words: &[&str]) -> Option<Asked> {
    let [_, name, pending, times] = words else {
        return None;
    };
    Some(Asked {
        banks: banks_of(name)?,
        pending: pending.parse::<u32>().ok()?,
        times: times.parse::<u64>().ok()?,
    })
}

/// The place of the request that a choice serves by its read or write.
fn column_place(choice: Choice) -> Option<usize> {
    match choice {
        Choice::Column { place } | Choice::ColumnAuto { place } => Some(place),
        _ => None,
    }
}

/// How many choices were of each kind, in one state.
#[derive(Clone, Copy)]
struct Counts {
    nothing: u64,
    columns: u64,
    /// The sum of the places of reads and writes.
    places: u64,
    others: u64,
}

/// Asks for the choice so many times.
fn count(scene: &Scene, times: u64) -> Counts
    requires { All (λ w. w.admitted ≤ scene.now.legality.bus.now) scene.now.pending.waiting }
{
    let mut counts = Counts {
        nothing: 0,
        columns: 0,
        places: 0,
        others: 0,
    };
    for _ in 0..times {
        let choice = scene.choice();
        if choice == Choice::Nothing {
            counts.nothing = counts.nothing.wrapping_add(1);
        } else if let Some(place) = column_place(choice) {
            counts.columns = counts.columns.wrapping_add(1);
            counts.places = counts.places.wrapping_add(place as u64);
        } else {
            counts.others = counts.others.wrapping_add(1);
        }
    }
    counts
}

/// What the words of the command line ask for: the counts, or none where they ask for nothing that there is.
fn perform(rt: &HostRuntime, alloc: Global) -> Option<Counts> {
    let words: Vec<String> = env::args(rt).ok()?.collect(alloc).ok()?;
    let texts: Vec<&str> = words.iter().map(|word| word.as_str()).collect(alloc).ok()?;
    let asked = read_words(texts.as_slice())?;
    let scene = Scene::open(alloc, asked.banks, asked.pending)?;
    if !scene.is_admitted() {
        return None;
    }
    Some(count(&scene, asked.times))
}

fn main(rt: HostRuntime) -> ExitCode {
    let told: io::Result<()> = match perform(&rt, rt.alloc()) {
        Some(counts) => {
            println!(rt;
                "{} nothing, {} columns at places of sum {}, {} others",
                counts.nothing, counts.columns, counts.places, counts.others
            )
        }
        None => {
            let _ = eprintln!(rt; "usage: ddr_choice idle|closing|hit PENDING TIMES");
            return ExitCode::FAILURE;
        }
    };
    match told {
        Ok(()) => ExitCode::SUCCESS,
        Err(_) => ExitCode::FAILURE,
    }
}
