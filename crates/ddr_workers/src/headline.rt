//! The headline for running threads, as a law over the lists that the sides of joined queues carried.
ghost use Rattle.std.specs.Prelude.{◌≡◌, ℕ, List, [], Some, slice_get};
ghost use Rattle.ddr_address_map.specs.Requests.{Completion};
ghost use Rattle.ddr_workers.specs.Headline.{AreJoined, GotAll, accepted_by};
ghost use Rattle.ddr_workers.specs.Port.{PortEnded};
ghost use Rattle.ddr_workers.specs.Worker.{WorkerEnded};

/// Where every port is finished, every worker is at its end, and each of their queues was joined, each port got
/// exactly one completion for each of its requests: the right reply, by the requests that the channel accepted
/// before it. Nothing is left in a completion queue. So it is whatever the threads did.
///
/// A law: it does nothing. What a finished port and a worker at its end keep is the invariant of `PortEnd` and
/// of `WorkerEnd`; what a join tells is a clause of `requests::join` and of `completions::join`.
pub fn headline()
    ensures replies { (ports : List PortEnded) (workers : List WorkerEnded) (left : ℕ → List Completion) → AreJoined ports workers left
        → (p : ℕ) (e : PortEnded) → slice_get ports p ≡ Some e → GotAll (accepted_by workers) p e }
    ensures empty { (ports : List PortEnded) (workers : List WorkerEnded) (left : ℕ → List Completion) → AreJoined ports workers left
        → (p : ℕ) (e : PortEnded) → slice_get ports p ≡ Some e → left p ≡ [] }
{}
