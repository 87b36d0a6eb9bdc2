//! Rules of TPC-C by themselves.
ghost use Rattle.std.specs.Prelude.{◌≡◌, codes, Some, None};
ghost use Rattle.tpcc_rules.specs.Names.{by_last_name, last_name, nurand};
ghost use Rattle.tpcc_rules.specs.NewOrders.{left_after};
ghost use Rattle.worked_examples.specs.TpccLoads.{named, one_named, three_named, two_alike, two_named};

/// A stock of 15 gives 5; one of 14 and one of 5 are refilled.
pub fn stock_is_refilled()
    ensures enough { left_after 15 5 ≡ 10 }
    ensures few { left_after 14 5 ≡ 100 }
    ensures all { left_after 5 5 ≡ 91 }
{}

/// Of namesakes the middle one by first names is meant, and the lower one of two.
pub fn the_middle_namesake()
    ensures one { by_last_name one_named 1 1 (codes "BAR") ≡ Some 4 }
    ensures two { by_last_name two_named 1 1 (codes "BAR") ≡ Some 9 }
    ensures three { by_last_name three_named 1 1 (codes "BAR") ≡ Some 9 }
    ensures alike { by_last_name two_alike 1 1 (codes "BAR") ≡ Some 10 }
    ensures none { by_last_name three_named 1 1 (codes "ABLE") ≡ None }
{}

/// The syllables of a number's digits, and two draws that are not uniform.
pub fn names_and_draws()
    ensures name { last_name 371 ≡ codes "PRICALLYOUGHT" }
    ensures plain { nurand 255 0 999 100 100 500 ≡ 600 }
    ensures wrapped { nurand 255 0 999 100 255 999 ≡ 123 }
{}
