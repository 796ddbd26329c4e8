//! From which cycle on the steps of a request are legal.
ghost use Rattle.std.specs.Prelude.{◌≡◌, ◌≤◌, true, false, None};
ghost use Rattle.ddr_trace.specs.Banks.{bank_behind, ready_row};
ghost use Rattle.ddr_legality.specs.Bus.{Bus, is_legal_now};
ghost use Rattle.ddr_address_map.specs.declared.place.Place.{Place};
ghost use Rattle.ddr_address_map.specs.Requests.{Request};
ghost use Rattle.ddr_arbiter.specs.Choice.{can_activate};
ghost use Rattle.ddr_arbiter.specs.Commands.{column_of, precharge_at};
ghost use Rattle.ddr_channel.specs.Sound.{IsServed};
ghost use Rattle.ddr_deadline.specs.Behind.{activate_from, column_from, precharge_from};
ghost use Rattle.ddr_deadline.specs.Legal.{IsNextOf, IsOpenFor};

/// A PRE, an ACT, and a read or write of a place in the geometry are legal from a cycle on that the distances behind the commands so far
/// tell: the ACT where the bank has no open row and none that an auto-precharge has still to close for reads and writes, the read or
/// write where its row is open.
///
/// A law: it does nothing. The rules are those of JESD79-4, and RTW and the rank switch of this project.
pub fn commands_come()
    ensures precharge { (b : Bus) (p : Place) → IsNextOf b → IsServed b.config p → precharge_from b.config.timing p b.trace ≤ b.now → is_legal_now b (precharge_at p) ≡ true }
    ensures activate { (b : Bus) (p : Place) → IsNextOf b → IsServed b.config p → ready_row (bank_behind (precharge_at p) b.trace) ≡ None → activate_from b.config.timing p b.trace ≤ b.now → can_activate b p ≡ true }
    ensures column { (b : Bus) (r : Request) → IsNextOf b → IsServed b.config r.place → IsOpenFor b r.place → column_from b.config.timing (column_of false r) b.trace ≤ b.now → is_legal_now b (column_of false r) ≡ true }
{}
