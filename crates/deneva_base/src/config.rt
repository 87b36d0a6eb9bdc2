//! What a run is asked for.
ghost use Rattle.std.specs.Prelude.{◌≡◌, Some};
ghost use Rattle.deneva_base.specs.ProtocolWords.{protocol_word, protocol_of};

/// A concurrency control.
#[derive(Clone, Copy, Debug, PartialEq, Eq)]
pub enum Protocol {
    /// Two-phase locking that refuses a conflicting request.
    NoWait,
    /// Two-phase locking where an older transaction waits and a younger one dies.
    WaitDie,
    /// Basic timestamp ordering.
    Timestamp,
    /// Multiversion timestamp ordering.
    Mvcc,
    /// Optimistic ranges of commit numbers, after MaaT.
    Maat,
    /// A global order that sequencers fix in epochs, after Calvin.
    Calvin,
}

impl Protocol {
    /// Every protocol, each once.
    pub const ALL: [Protocol; 6] = [
        Protocol::NoWait,
        Protocol::WaitDie,
        Protocol::Timestamp,
        Protocol::Mvcc,
        Protocol::Maat,
        Protocol::Calvin,
    ];

    /// Its word in command lines and reports, which no other protocol has.
    pub fn word(self) -> &'static str
        ensures word { result.now ≡ protocol_word self }
        ensures own { protocol_of result.now ≡ Some self }
    {
        match self {
            Protocol::NoWait => "nowait",
            Protocol::WaitDie => "waitdie",
            Protocol::Timestamp => "timestamp",
            Protocol::Mvcc => "mvcc",
            Protocol::Maat => "maat",
            Protocol::Calvin => "calvin",
        }
    }

    /// The protocol that has this word, if there is one.
    pub fn of_word(word: &str) -> Option<Protocol>
        ensures { result ≡ protocol_of word.now }
    {
        Protocol::ALL
            .iter()
            .copied()
            .find(|protocol| word == protocol.word())
    }
}

/// How a run is set up: its protocol, the number of partitions (1 to 16), the attempts that a transaction may take
/// (1 to 8), and how many home transactions a node has open at once (1 to 64).
#[derive(Clone, Copy, Debug, PartialEq, Eq)]
pub struct Config {
    pub protocol: Protocol,
    pub parts: u8,
    pub attempts: u8,
    pub limit: u8,
}
