//! How long a request waits that is served alone.
ghost use Rattle.std.specs.Prelude.{◌≡◌, ◌≢◌, ℕ, ◌+◌, ◌≤◌, max, List, [], Some, None, slice_get};
ghost use Rattle.ddr_timing.specs.declared.config.Config.{Config};
ghost use Rattle.ddr_latency.specs.Latency.{clocks_of, service};
ghost use Rattle.ddr_address_map.specs.Requests.{Request};
ghost use Rattle.ddr_hazards.specs.declared.waiting.Waiting.{Waiting};
ghost use Rattle.ddr_arbiter.specs.declared.choice.Choice.TheVariants as choice;
ghost use Rattle.ddr_arbiter.specs.Laws.{column_place_of, refreshed_rank};
ghost use Rattle.ddr_channel.specs.Choice.{choice_of, situation_of};
ghost use Rattle.ddr_channel.specs.Cycle.{after_cycle, at_choice};
ghost use Rattle.ddr_channel.specs.History.{Call, run};
ghost use Rattle.ddr_channel.specs.Promise.{AreCalls};
ghost use Rattle.ddr_channel.specs.Sound.{IsServed, IsSound};
ghost use Rattle.ddr_channel.specs.State.{State};
ghost use Rattle.ddr_deadline.specs.Behind.{refreshed_from};
ghost use Rattle.ddr_deadline.specs.Oldest.{IsServedAlone};
ghost use Rattle.ddr_deadline.specs.Step.{ComesBehindRefresh};
ghost use Rattle.ddr_deadline.specs.Wait.{served_by};

/// The cycle by which the read or write of the oldest request comes lies never before now, and no cycle moves it that serves this request
/// alone and finds nothing done: not one that issues its ACT or PRE, nor one that issues nothing. So its read or write comes by then, if no
/// refresh comes between.
///
/// A law: it does nothing.
pub fn own_steps_keep_time()
    ensures ahead { (s : State) (w : Waiting) → s.now ≤ served_by s w.request }
    ensures kept { (s : State) (w : Waiting) → IsSound s → s.done ≡ [] → IsServedAlone (situation_of (at_choice s)) w → column_place_of (choice_of (at_choice s)) ≡ None → served_by (after_cycle s) w.request ≤ served_by s w.request }
{}

/// Whatever the calls of a channel and whatever commands it issued, each pending request, if it were served alone from now on, would be
/// read or written in fewer than `service` clocks (`ddr_latency`), or within RCD of the cycle in which a REF of its rank lets commands come
/// again.
///
/// A law: it does nothing.
pub fn requests_start_close()
    ensures { (config : Config) (start : ℕ) (calls : List Call) → AreCalls config calls → (place : ℕ) (w : Waiting) → slice_get (run config start calls).state.pending place ≡ Some w → served_by (run config start calls).state w.request + 1 ≤ max ((run config start calls).state.now + service (clocks_of config)) (refreshed_from config.timing w.request.place.rank (run config start calls).state.trace + config.timing.rcd + 1) }
{}

/// How far a REF or a PREA moves that cycle. `own`: behind a REF of the request's rank it lies no later than the REF, the tick that makes
/// the rank overdue, and the last read or write of the channel ask. `other`: a REF or a PREA of another rank puts it off by a clock at
/// most.
///
/// A law: it does nothing.
pub fn refreshes_move_requests()
    ensures own { (config : Config) (start : ℕ) (calls : List Call) → AreCalls config calls → (r : Request) → IsServed config r.place → choice_of (at_choice (run config start calls).state) ≡ choice.Refresh r.place.rank → ComesBehindRefresh config (run config start calls).state r }
    ensures other { (s : State) (r : Request) (rank : ℕ) → refreshed_rank (choice_of (at_choice s)) ≡ Some rank → rank ≢ r.place.rank → served_by (after_cycle s) r ≤ served_by s r + 1 }
{}
