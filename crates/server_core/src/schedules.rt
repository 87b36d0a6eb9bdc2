//! Orders of deliveries.

use deneva_base::CountList;

/// Which of n mails in flight, in the order in which they were said, is delivered next.
#[derive(Debug, Drop, PartialEq, Eq)]
pub enum Schedule {
    /// The one said first.
    Fifo,
    /// The one said last.
    Lifo,
    /// The one at the generator's next word modulo n, for the generator of this seed.
    Seed(u64),
    /// The one at the next listed number modulo n, and past the list's end the one said first.
    Listed(CountList),
}
