//! A system of two ports and two channels, by its parts and by the ends that these leave.
ghost use Rattle.std.specs.Prelude.{◌≡◌, ◌∷◌, [], IfOk, IfSome};

use ddr_workers::port::{Port, PortEnd};
use ddr_workers::worker::{Worker, WorkerEnd};

/// Two ports and two workers.
pub type Parts = (Port, Port, Worker, Worker);

/// The ends of two ports and of two workers.
pub type AllEnds = (PortEnd, PortEnd, WorkerEnd, WorkerEnd);

/// The two items of a list that has two.
pub fn two_of<T: Drop>(mut items: Vec<T>) -> Option<(T, T)>
    ensures { IfSome result (λ both. items.items ≡ both.0 ∷ both.1 ∷ []) }
{
    let second = items.pop()?;
    let first = items.pop()?;
    if items.is_empty() {
        Some((first, second))
    } else {
        None
    }
}

/// The parts of a system that has two ports and two workers, or what it has not two of.
pub fn parts_of(ports: Vec<Port>, workers: Vec<Worker>) -> Result<Parts, &'static str>
    ensures ports { IfOk result (λ parts. ports.items ≡ parts.0 ∷ parts.1 ∷ []) }
    ensures workers { IfOk result (λ parts. workers.items ≡ parts.2 ∷ parts.3 ∷ []) }
{
    let Some((first_port, second_port)) = two_of(ports) else {
        return Err("two ports");
    };
    let Some((first_worker, second_worker)) = two_of(workers) else {
        return Err("two channels");
    };
    Ok((first_port, second_port, first_worker, second_worker))
}
