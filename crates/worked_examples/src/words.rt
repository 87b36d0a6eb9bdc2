//! The generator of seeded schedules.
ghost use Rattle.std.specs.Prelude.{◌≡◌};
ghost use Rattle.server_core.specs.Picks.{word};

/// The first words of two seeds, as the published code of PCG32 gives them on its stream 2.
pub fn words_of_seeds()
    ensures first { word 42 0 ≡ 4286966985 }
    ensures second { word 42 1 ≡ 1306841846 }
    ensures third { word 42 2 ≡ 1928016788 }
    ensures other_seed { word 7 2 ≡ 2583008270 }
{}
