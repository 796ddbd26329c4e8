//! The core's promise, as a law over every record of events.
ghost use Rattle.std.specs.Prelude.{List};
ghost use Rattle.ddr_world.specs.History.{Answered, Opening, run};
ghost use Rattle.ddr_world.specs.Promise.{KeepsPromise};

/// What any list of events makes of a core keeps the promise, in whatever order ports and channels step: each
/// port has taken the first of its replies, in the order of its requests, each with the bytes that the
/// requests accepted before it on its channel leave; each channel admitted the first requests that its queue
/// accepted; every trace is legal; a completion always finds room on the queue of its port, which waits for
/// it; where no number is outstanding at any port, no request is left in a queue or in a channel; and where all is
/// drained, every reply was taken, no event but a cycle is made any more, and a cycle adds a refresh, a precharge of
/// all banks or nothing to its channel's trace and leaves all drained.
///
/// A law: it does nothing. That a core stands for a record of events is a clause of each call.
pub fn core_promise()
    ensures { (opening : Opening) (events : List Answered) → KeepsPromise opening (run opening events) }
{}
