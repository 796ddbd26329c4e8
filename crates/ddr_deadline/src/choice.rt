//! What the scheduler chooses once the oldest request has reached the cap.
ghost use Rattle.std.specs.Prelude.{◌≡◌, ℕ, true, false, Some};
ghost use Rattle.ddr_hazards.specs.declared.waiting.Waiting.{Waiting};
ghost use Rattle.ddr_arbiter.specs.Choice.{choice_of, is_overdue, is_rank_forced, is_rank_idle, refresh_choice};
ghost use Rattle.ddr_arbiter.specs.Laws.{refreshed_rank};
ghost use Rattle.ddr_arbiter.specs.Situation.{Situation};
ghost use Rattle.ddr_deadline.specs.Oldest.{IsCappedOldest, IsServedAlone, own_step};

/// Where the oldest request has reached the cap, its rank is not forced, and no rank is refreshed in this cycle, the choice is that
/// request's own next step: its read or write where that is legal and has room, else its ACT or PRE where that is legal, else nothing.
/// `served` is that law. `waits`: where its rank is forced no request is served, and the choice is that of the refreshes.
///
/// A law: it does nothing. `IsLawful` of `ddr_arbiter` says what a choice may be; this says that there is one.
pub fn capped_oldest_takes_its_step()
    ensures served { (s : Situation) (w : Waiting) → IsServedAlone s w → choice_of s ≡ own_step s w }
    ensures waits { (s : Situation) (w : Waiting) → IsCappedOldest s w → is_rank_forced s.waiting s.refreshes w.request.place.rank ≡ true → choice_of s ≡ refresh_choice s.bus s.waiting s.refreshes }
{}

/// A REF or a PREA that is chosen is of a rank that is forced; and of one that owes more REFs than may be put off, where some request is
/// pending for it.
///
/// A law: it does nothing.
pub fn refreshes_are_forced()
    ensures forced { (s : Situation) (rank : ℕ) → refreshed_rank (choice_of s) ≡ Some rank → is_rank_forced s.waiting s.refreshes rank ≡ true }
    ensures overdue { (s : Situation) (rank : ℕ) → refreshed_rank (choice_of s) ≡ Some rank → is_rank_idle s.waiting rank ≡ false → is_overdue s.refreshes rank ≡ true }
{}
