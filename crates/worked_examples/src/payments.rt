//! Payments of TPC-C.
ghost use Rattle.std.specs.Prelude.{◌≡◌, ◌^◌, ◌-◌, codes, pos, negsuc};
ghost use Rattle.deneva_base.specs.declared.config.Protocol.TheVariants.{Calvin, NoWait};
ghost use Rattle.tpcc_rules.specs.Effects.{rolled_back};
ghost use Rattle.tpcc_rules.specs.Payments.{payment};
ghost use Rattle.tpcc_rules.specs.Tables.{customer_key, warehouse_key};
ghost use Rattle.tpcc_rules.specs.declared.effects.Reason.TheVariants.{Range};
ghost use Rattle.tpcc_rules.specs.declared.effects.Verdict.TheVariants.{Commit};
ghost use Rattle.txn_program.specs.Valid.{IsValid};
ghost use Rattle.worked_examples.specs.TpccLoads.{bad_report, guest_effect, paid_bad, paid_low, past_report, payment_of_a_guest, read_with, reported};

/// What a customer of bad credit paid is noted at the left of his data.
pub fn a_customer_of_bad_credit()
    ensures valid { IsValid paid_bad }
    ensures no_wait { reported NoWait paid_bad ≡ bad_report (codes "nowait") }
    ensures calvin { reported Calvin paid_bad ≡ bad_report (codes "calvin") }
{}

/// A balance that would fall below the least number rolls the payment back.
pub fn a_balance_out_of_range()
    ensures valid { IsValid paid_low }
    ensures no_wait { reported NoWait paid_low ≡ past_report (codes "nowait") }
    ensures calvin { reported Calvin paid_low ≡ past_report (codes "calvin") }
{}

/// The order of a payment's numbers in HISTORY and in the customer's data.
pub fn numbers_of_a_payment()
    ensures { payment (record { 0 = 9 }) payment_of_a_guest (read_with (pos 10) (pos 700)) ≡ guest_effect }
{}

/// Sums may reach the ends of their range, and no further: what a warehouse took in its upper end, a balance its lower one.
pub fn sums_at_their_ends()
    ensures most { (payment (record { 0 = 9 }) payment_of_a_guest (read_with (pos (2 ^ 63 - 679)) (pos 0))).verdict ≡ Commit }
    ensures above { payment (record { 0 = 9 }) payment_of_a_guest (read_with (pos (2 ^ 63 - 678)) (pos 0)) ≡ rolled_back (Range (warehouse_key 1)) }
    ensures least { (payment (record { 0 = 9 }) payment_of_a_guest (read_with (pos 0) (negsuc (2 ^ 63 - 679)))).verdict ≡ Commit }
    ensures below { payment (record { 0 = 9 }) payment_of_a_guest (read_with (pos 0) (negsuc (2 ^ 63 - 678))) ≡ rolled_back (Range (customer_key 3 4 5)) }
{}
