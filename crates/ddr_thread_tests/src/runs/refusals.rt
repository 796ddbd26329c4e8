//! Which ends `close` gives back, for which cause, and that it closes what was completed.
ghost use Rattle.std.specs.Prelude.{◌≡◌, ◌∷◌, ◌++◌, [], IfOk, IfSome};
ghost use Rattle.ddr_workers.specs.Closing.{AreOfOneOpen};

use super::*;
use ddr_system_samples::parts::two_of;
use ddr_timing::profile::PROFILE_S;
use ddr_workers::closing::Ends;

/// Why ends came back.
#[derive(Clone, Copy, Debug, PartialEq, Eq)]
enum Cause {
    Foreign,
    Missing,
    OutOfMemory,
}

/// How many ends came back.
fn count(ends: &Ends) -> (usize, usize) {
    (ends.ports.len(), ends.workers.len())
}

/// Why these ends of system 7 are not closed, where all of them come back.
fn cause_of<R: Wait>(
    rt: &R,
    alloc: Global,
    ports: Vec<PortEnd>,
    workers: Vec<WorkerEnd>,
) -> Option<Cause>
    requires { AreOfOneOpen 7 ports.items workers.items }
{
    let all = (ports.len(), workers.len());
    let (cause, back) = match close(rt, alloc, 7, ports, workers) {
        Ok(_) => return None,
        Err(CloseError::Foreign(ends)) => (Cause::Foreign, count(&ends)),
        Err(CloseError::Missing(ends)) => (Cause::Missing, count(&ends)),
        Err(CloseError::OutOfMemory(ends)) => (Cause::OutOfMemory, count(&ends)),
    };
    if back == all { Some(cause) } else { None }
}

/// Runs a system with this id, whose ports do nothing.
fn run_silent<R: Threads + Wait + Sync>(rt: &R, alloc: Global, id: u64) -> Result<AllEnds, Fail>
    ensures one { IfOk result (λ ends. AreOfOneOpen id (ends.0 ∷ ends.1 ∷ []) (ends.2 ∷ ends.3 ∷ [])) }
    ensures id { IfOk result (λ ends. (ends.0.id ≡ id) × (ends.1.id ≡ id)) }
    ensures work_id { IfOk result (λ ends. (ends.2.id ≡ id) × (ends.3.id ≡ id)) }
{
    let config = Config::read(alloc, PROFILE_S)?;
    run_system(rt, alloc, &config, id, Traces::Kept, &Silent, &Silent)
}

/// The end of the second port of such a system.
fn second_end<R: Threads + Wait + Sync>(rt: &R, alloc: Global, id: u64) -> Result<PortEnd, Fail> {
    let (_, second, _, _) = run_silent(rt, alloc, id)?;
    Ok(second)
}

#[test]
fn no_ends_at_all_are_missing(rt: HostRuntime) {
    let alloc = rt.alloc();
    let cause = cause_of(&rt, alloc, Vec::new(alloc), Vec::new(alloc));
    assert_eq!(rt; cause, Some(Cause::Missing));
}

#[test]
fn the_end_of_a_port_is_missing(rt: HostRuntime) -> Result<(), Fail> {
    let alloc = rt.alloc();
    let (_, second, first_work, second_work) = run_silent(&rt, alloc, 7)?;
    let ports = vec![in alloc; second]?;
    let workers = vec![in alloc; first_work, second_work]?;
    assert_eq!(rt; cause_of(&rt, alloc, ports, workers), Some(Cause::Missing));
    Ok(())
}

#[test]
fn the_end_of_a_worker_is_missing(rt: HostRuntime) -> Result<(), Fail> {
    let alloc = rt.alloc();
    let (first, second, _, second_work) = run_silent(&rt, alloc, 7)?;
    let ports = vec![in alloc; first, second]?;
    let workers = vec![in alloc; second_work]?;
    assert_eq!(rt; cause_of(&rt, alloc, ports, workers), Some(Cause::Missing));
    Ok(())
}

/// No end of one kind, whatever there is of the other.
#[test]
fn all_ends_of_workers_are_missing(rt: HostRuntime) -> Result<(), Fail> {
    let alloc = rt.alloc();
    let (first, second, _, _) = run_silent(&rt, alloc, 7)?;
    let ports = vec![in alloc; first, second]?;
    assert_eq!(rt;
        cause_of(&rt, alloc, ports, Vec::new(alloc)),
        Some(Cause::Missing)
    );
    Ok(())
}

/// Beside an end of the same port that is the system's own.
#[test]
fn the_end_of_another_system_is_foreign(rt: HostRuntime) -> Result<(), Fail> {
    let alloc = rt.alloc();
    let (_, other, _, _) = run_silent(&rt, alloc, 8)?;
    let (first, second, first_work, second_work) = run_silent(&rt, alloc, 7)?;
    let ports = vec![in alloc; first, second, other]?;
    let workers = vec![in alloc; first_work, second_work]?;
    assert_eq!(rt; cause_of(&rt, alloc, ports, workers), Some(Cause::Foreign));
    Ok(())
}

/// No port and no channel stands twice, and none is missing.
#[test]
fn the_ports_of_another_system_are_foreign(rt: HostRuntime) -> Result<(), Fail> {
    let alloc = rt.alloc();
    let (first, second, _, _) = run_silent(&rt, alloc, 8)?;
    let (_, _, first_work, second_work) = run_silent(&rt, alloc, 7)?;
    let ports = vec![in alloc; first, second]?;
    let workers = vec![in alloc; first_work, second_work]?;
    assert_eq!(rt; cause_of(&rt, alloc, ports, workers), Some(Cause::Foreign));
    Ok(())
}

#[test]
fn the_workers_of_another_system_are_foreign(rt: HostRuntime) -> Result<(), Fail> {
    let alloc = rt.alloc();
    let (first, second, _, _) = run_silent(&rt, alloc, 7)?;
    let (_, _, first_work, second_work) = run_silent(&rt, alloc, 8)?;
    let ports = vec![in alloc; first, second]?;
    let workers = vec![in alloc; first_work, second_work]?;
    assert_eq!(rt; cause_of(&rt, alloc, ports, workers), Some(Cause::Foreign));
    Ok(())
}

#[test]
fn foreign_comes_before_missing(rt: HostRuntime) -> Result<(), Fail> {
    let alloc = rt.alloc();
    let other = second_end(&rt, alloc, 8)?;
    let ports = vec![in alloc; other]?;
    assert_eq!(rt;
        cause_of(&rt, alloc, ports, Vec::new(alloc)),
        Some(Cause::Foreign)
    );
    Ok(())
}

/// Two systems may have the same id; the ends of a port of each are told by its number, which then stands twice.
#[test]
fn a_port_that_stands_twice_is_foreign(rt: HostRuntime) -> Result<(), Fail> {
    let alloc = rt.alloc();
    let second = second_end(&rt, alloc, 7)?;
    let twin = second_end(&rt, alloc, 7)?;
    let ports = vec![in alloc; second, twin]?;
    assert_eq!(rt;
        cause_of(&rt, alloc, ports, Vec::new(alloc)),
        Some(Cause::Foreign)
    );
    Ok(())
}

/// What came back is closed once the end that was missing stands beside it.
fn close_with_first<R: Wait>(
    rt: &R,
    alloc: Global,
    first: PortEnd,
    back: Ends,
) -> Result<SystemClosed, Fail>
    requires { AreOfOneOpen 7 (back.ports.items ++ first ∷ []) back.workers.items }
{
    let Ends { mut ports, workers } = back;
    ports.push(first)?;
    expect_closed(close(rt, alloc, 7, ports, workers))
}

/// Gives all ends but the first to `close`, which misses it.
fn close_without_first<R: Wait>(
    rt: &R,
    alloc: Global,
    second: PortEnd,
    first_work: WorkerEnd,
    second_work: WorkerEnd,
) -> Result<Ends, Fail>
    requires { AreOfOneOpen 7 (second ∷ []) (first_work ∷ second_work ∷ []) }
    ensures ports { IfOk result (λ back. back.ports.items ≡ second ∷ []) }
    ensures workers { IfOk result (λ back. back.workers.items ≡ first_work ∷ second_work ∷ []) }
{
    let ports = vec![in alloc; second]?;
    let workers = vec![in alloc; first_work, second_work]?;
    match close(rt, alloc, 7, ports, workers) {
        Err(CloseError::Missing(back)) => Ok(back),
        _ => Err("a missing end".into()),
    }
}

#[test]
fn what_came_back_is_closed(rt: HostRuntime) -> Result<(), Fail> {
    let alloc = rt.alloc();
    let (first, second, first_work, second_work) = run_silent(&rt, alloc, 7)?;
    let back = close_without_first(&rt, alloc, second, first_work, second_work)?;
    let closed = close_with_first(&rt, alloc, first, back)?;
    assert!(rt; has_counts(&closed, &[0, 0]));
    assert_eq!(rt; closed.traces.len(), 2);
    Ok(())
}

/// The four items of a list that has four, by two.
fn four_of<T: Drop>(mut items: Vec<T>) -> Option<((T, T), (T, T))>
    ensures { IfSome result (λ all. items.items ≡ all.0.0 ∷ all.0.1 ∷ all.1.0 ∷ all.1.1 ∷ []) }
{
    let fourth = items.pop()?;
    let third = items.pop()?;
    let (first, second) = two_of(items)?;
    Some(((first, second), (third, fourth)))
}

/// Gives `close` all ends of system 7 together with those of system 8, all of which come back.
fn close_both<R: Wait>(rt: &R, alloc: Global, own: AllEnds, other: AllEnds) -> Result<Ends, Fail>
    requires own { AreOfOneOpen 7 (own.0 ∷ own.1 ∷ []) (own.2 ∷ own.3 ∷ []) }
    requires id { (other.0.id ≡ 8) × (other.1.id ≡ 8) }
    requires work_id { (other.2.id ≡ 8) × (other.3.id ≡ 8) }
    ensures ports { IfOk result (λ back. back.ports.items ≡ own.0 ∷ own.1 ∷ other.0 ∷ other.1 ∷ []) }
    ensures workers { IfOk result (λ back. back.workers.items ≡ own.2 ∷ own.3 ∷ other.2 ∷ other.3 ∷ []) }
{
    let ports = vec![in alloc; own.0, own.1, other.0, other.1]?;
    let workers = vec![in alloc; own.2, own.3, other.2, other.3]?;
    match close(rt, alloc, 7, ports, workers) {
        Err(CloseError::Foreign(back)) => Ok(back),
        _ => Err("foreign ends".into()),
    }
}

/// The ends of two systems, of which those of the first come first.
fn apart(ends: Ends) -> Result<(AllEnds, AllEnds), Fail>
    ensures ports { IfOk result (λ both. ends.ports.items ≡ both.0.0 ∷ both.0.1 ∷ both.1.0 ∷ both.1.1 ∷ []) }
    ensures workers { IfOk result (λ both. ends.workers.items ≡ both.0.2 ∷ both.0.3 ∷ both.1.2 ∷ both.1.3 ∷ []) }
{
    let Ends { ports, workers } = ends;
    let ports = four_of(ports).ok_or("four ports");
    let workers = four_of(workers).ok_or("four workers");
    match both(ports, workers) {
        Ok((((first, second), (third, fourth)), (own_work, other_work))) => Ok((
            (first, second, own_work.0, own_work.1),
            (third, fourth, other_work.0, other_work.1),
        )),
        Err(what) => Err(what.into()),
    }
}

/// How many channels of a closed system have a trace.
fn count_traces(closed: SystemClosed) -> usize {
    closed.traces.len()
}

/// Each of two systems is closed by its own id once its ends are told apart.
#[test]
fn two_systems_are_foreign_together(rt: HostRuntime) -> Result<(), Fail> {
    let alloc = rt.alloc();
    let own = run_silent(&rt, alloc, 7)?;
    let other = run_silent(&rt, alloc, 8)?;
    let back = close_both(&rt, alloc, own, other)?;
    let (first, second) = apart(back)?;
    let traces = count_traces(close_in_order(&rt, alloc, 7, first)?);
    let other_traces = count_traces(close_in_order(&rt, alloc, 8, second)?);
    assert_eq!(rt; (traces, other_traces), (2, 2));
    Ok(())
}
