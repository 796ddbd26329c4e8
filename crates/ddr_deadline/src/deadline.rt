//! How long a request takes.
ghost use Rattle.std.specs.Prelude.{◌≡◌, ℕ, true, List};
ghost use Rattle.ddr_timing.specs.declared.config.Config.{Config};
ghost use Rattle.ddr_latency.specs.Latency.{leaves_time};
ghost use Rattle.ddr_channel.specs.History.{Call, begun, run};
ghost use Rattle.ddr_channel.specs.Promise.{AreCalls};
ghost use Rattle.ddr_latency.specs.Bound.{leaves_room};
ghost use Rattle.ddr_deadline.specs.InTime.{IsServedInTime, TakesAll, admissions};

/// Each request takes fewer than `latency` clocks from its admission to its completion, whatever the calls, where each cycle finds that all
/// that was done is taken, and each refresh interval leaves time to serve a request (`leaves_room`): `served` is that law. So a request is
/// never pending for as long, and each cycle tells a completion that is due before. `one_rank`: with one rank `leaves_time` of
/// `ddr_latency` is enough; with two the refresh commands of both may take `stolen` cycles beside.
///
/// A law: it does nothing. It counts the cycles that are made, and says nothing of time: while no cycle is made, a request stays pending.
pub fn requests_are_served_in_time()
    ensures served { (config : Config) (start : ℕ) (calls : List Call) → AreCalls config calls → TakesAll (begun config start) calls → leaves_room config ≡ true → IsServedInTime (admissions (begun config start) calls) (run config start calls) }
    ensures one_rank { (config : Config) (start : ℕ) (calls : List Call) → AreCalls config calls → TakesAll (begun config start) calls → leaves_time config ≡ true → config.geometry.ranks ≡ 1 → IsServedInTime (admissions (begun config start) calls) (run config start calls) }
{}
