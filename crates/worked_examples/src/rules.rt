//! Rules at work on the row of one key, loaded with `a`.
ghost use Rattle.std.specs.Prelude.{◌≡◌, ◌^◌, [], ◌∷◌, codes, length, Some};
ghost use Rattle.protocol_rules.specs.History.{waits};
ghost use Rattle.deneva_base.specs.Keys.{loaded_version};
ghost use Rattle.protocol_rules.specs.Latest.{latest};
ghost use Rattle.protocol_rules.specs.Maat.{maat};
ghost use Rattle.protocol_rules.specs.NoWait.{no_wait};
ghost use Rattle.protocol_rules.specs.Timestamp.{timestamp};
ghost use Rattle.protocol_rules.specs.WaitDie.{wait_die};
ghost use Rattle.deneva_base.specs.declared.answers.Answer.TheVariants.{Granted, Waits, Refused};
ghost use Rattle.deneva_base.specs.declared.answers.Vote.TheVariants.{Yes, No};
ghost use Rattle.deneva_base.specs.declared.causes.Cause.TheVariants.{Held, EmptyRange};
ghost use Rattle.deneva_base.specs.declared.keys.Mode.TheVariants.{Read, Update, Put};
ghost use Rattle.txn_program.specs.Transactions.{ycsb_key};
ghost use Rattle.worked_examples.specs.Played.{Asks, Prepares, Commits, Aborts, Tells, Votes, Wakes, answers, played, wakes, everywhere, cells, writes, number, first_of};

/// Under TIMESTAMP a put of greater stamp commits over a waiting read, which is woken with the row below the put once the
/// update that it waits for has committed. The row of the put is the last one.
pub fn a_put_over_a_waiting_read()
    ensures answers { answers (timestamp (everywhere (codes "a")))
        (Asks 1 1 Update ∷ Asks 2 3 Put ∷ Asks 3 2 Read ∷ Prepares 2 0 (writes (codes "y")) ∷ Commits 2 3 ∷ Prepares 1 0 (writes (codes "x")) ∷ Commits 1 1 ∷ [])
        ≡ Tells (Granted (cells (codes "a")) loaded_version 0) ∷ Tells (Granted [] loaded_version 0) ∷ Tells Waits
        ∷ Votes (Yes 3 3) ∷ Wakes [] ∷ Votes (Yes 1 1) ∷ wakes 3 (codes "x") (number 1 1) ∷ [] }
    ensures row { latest (everywhere (codes "a"))
        (played (timestamp (everywhere (codes "a"))) [] (Asks 1 1 Update ∷ Asks 2 3 Put ∷ Asks 3 2 Read ∷ Prepares 2 0 (writes (codes "y")) ∷ Commits 2 3 ∷ Prepares 1 0 (writes (codes "x")) ∷ Commits 1 1 ∷ []))
        (ycsb_key 1)
        ≡ record { number = number 3 2; row = cells (codes "y") } }
{}

/// Under WAIT_DIE a reader is granted past an older updater that waits, and a younger reader waits behind it. Once both
/// readers have ended the updater alone is woken.
pub fn an_updater_among_readers()
    ensures answers { answers (wait_die (everywhere (codes "a")))
        (Asks 1 30 Read ∷ Asks 2 20 Update ∷ Asks 3 25 Read ∷ Asks 4 10 Read ∷ Aborts 1 ∷ Aborts 3 ∷ [])
        ≡ Tells (Granted (cells (codes "a")) loaded_version 0) ∷ Tells Waits ∷ Tells (Granted (cells (codes "a")) loaded_version 0) ∷ Tells Waits
        ∷ Wakes [] ∷ wakes 2 (codes "a") loaded_version ∷ [] }
    ensures waiting { length (waits (played (wait_die (everywhere (codes "a"))) [] (Asks 1 30 Read ∷ Asks 2 20 Update ∷ Asks 3 25 Read ∷ Asks 4 10 Read ∷ Aborts 1 ∷ Aborts 3 ∷ []))) ≡ 1 }
{}

/// Under NO_WAIT a put is granted no cells, holds off everyone else until it has ended, and is named by the refusals; the
/// vote of the next attempt is above its number.
pub fn a_put_holds_its_key()
    ensures answers { answers (no_wait (everywhere (codes "a")))
        (Asks 1 1 Put ∷ Asks 2 2 Read ∷ Prepares 1 0 (writes (codes "x")) ∷ Asks 3 3 Put ∷ Commits 1 1 ∷ Asks 4 4 Read ∷ Prepares 4 0 [] ∷ [])
        ≡ Tells (Granted [] loaded_version 0) ∷ Tells (Refused (Held (ycsb_key 1) (first_of 1))) ∷ Votes (Yes 1 (2 ^ 63))
        ∷ Tells (Refused (Held (ycsb_key 1) (first_of 1))) ∷ Wakes [] ∷ Tells (Granted (cells (codes "x")) (number 1 1) 0) ∷ Votes (Yes 2 (2 ^ 63)) ∷ [] }
{}

/// Under MAAT a reader whose key another has written in the meantime finds its window empty.
pub fn a_reader_overtaken()
    ensures answers { answers (maat 4096 (everywhere (codes "a")))
        (Asks 1 1 Read ∷ Asks 2 2 Update ∷ Prepares 2 1 (writes (codes "z")) ∷ Commits 2 1 ∷ Prepares 1 1 [] ∷ [])
        ≡ Tells (Granted (cells (codes "a")) loaded_version 1) ∷ Tells (Granted (cells (codes "a")) loaded_version 1) ∷ Votes (Yes 1 4096)
        ∷ Wakes [] ∷ Votes (No (EmptyRange 1 (ycsb_key 1) 0 (first_of 2))) ∷ [] }
{}
