//! Calls drawn at random.
ghost use Rattle.std.specs.Prelude.{◌<◌};

use crate::plain::Rule;
use crate::steps::{Cells, Effect, Said, Step, attempt};
use deneva_base::{Answer, Attempt, Mode, Vote};
use rand_core::utils::NextWord;
use rand_pcg::Lcg64Xsh32;

/// How many attempts run side by side.
const LIVES: usize = 5;

/// An attempt that runs, with the greatest bound that it was granted and the numbers of its vote.
#[derive(Clone, Copy, Debug)]
struct Life {
    who: Attempt,
    stamp: u64,
    bound: u64,
    lo: u64,
    hi: u64,
}

/// Where the calls are drawn from.
#[derive(Drop)]
pub(crate) struct Draws {
    rng: Lcg64Xsh32,
    /// Whether a transaction keeps its stamp over restarts.
    keeps: bool,
    /// How many transactions began.
    begun: u32,
    lives: [Life; LIVES],
    /// Whose call was drawn last.
    place: usize,
}

impl Draws {
    pub(crate) fn new(seed: u64, rule: Rule) -> Draws {
        let none = Life {
            who: attempt(0, 1),
            stamp: 1,
            bound: 0,
            lo: 1,
            hi: 1,
        };
        let keeps = matches!(rule, Rule::NoWait | Rule::WaitDie | Rule::Maat(_));
        let mut draws = Draws {
            rng: Lcg64Xsh32::new(seed, 1),
            keeps,
            begun: 0,
            lives: [none; LIVES],
            place: 0,
        };
        for place in 0..LIVES {
            draws.lives[place] = draws.begin();
        }
        draws
    }

    fn pick(&mut self, count: u32) -> u32
        requires { 0 < count }
        ensures { result < count }
    {
        self.rng.next_word() % count
    }

    /// A new transaction. Its stamp is about the number of those before it, and tells its place.
    fn begin(&mut self) -> Life {
        self.begun = self.begun.wrapping_add(1);
        let who = attempt(self.begun % 1024, 1);
        let stamp = self.stamp(who);
        Life {
            who,
            stamp,
            bound: 0,
            lo: 1,
            hi: 1,
        }
    }

    fn stamp(&mut self, who: Attempt) -> u64 {
        let age = u64::from(self.begun) + u64::from(self.pick(6));
        age * 1024 + u64::from(who.txn.0 % 1024)
    }

    /// The next call: most ask, some of them cannot be made.
    pub(crate) fn draw(&mut self) -> Step {
        let place = self.pick(5) as usize;
        self.place = place;
        let life = self.lives[place];
        match self.pick(16) {
            0..=6 => {
                let mode = self.mode();
                Step::Ask(life.who, life.stamp, self.pick(2), mode)
            }
            7..=10 => {
                let bound = life.bound.saturating_add(u64::from(self.pick(3)));
                Step::Prepare(life.who, bound, self.effect())
            }
            11..=14 => {
                let n = life.lo.saturating_add(u64::from(self.pick(4)));
                Step::Commit(life.who, n.min(life.hi))
            }
            _ => Step::Abort(life.who),
        }
    }

    fn mode(&mut self) -> Mode {
        match self.pick(6) {
            0..=2 => Mode::Read,
            3 | 4 => Mode::Update,
            _ => Mode::Put,
        }
    }

    fn effect(&mut self) -> Effect {
        Effect {
            writes: Cells {
                first: self.cell(3),
                second: self.cell(3),
            },
            appends: Cells {
                first: self.cell(1),
                second: self.cell(1),
            },
        }
    }

    /// A number in so many of four draws.
    fn cell(&mut self, share: u32) -> Option<u32> {
        let number = self.pick(1000);
        if self.pick(4) < share {
            return Some(number);
        }
        None
    }

    /// Takes in what was said to the call drawn last: who has ended is followed by another.
    pub(crate) fn learn(&mut self, step: Step, said: &Said) {
        let place = self.place % LIVES;
        match said {
            Said::Answer(Answer::Granted { bound, .. }) => {
                self.lives[place].bound = self.lives[place].bound.max(*bound);
            }
            Said::Vote(Vote::Yes { lo, hi }) => {
                self.lives[place].lo = *lo;
                self.lives[place].hi = *hi;
            }
            Said::Ended(_, _) => self.lives[place] = self.successor(step, place),
            _ => {}
        }
    }

    /// Another attempt of the transaction where it was aborted, for the first turns, else another transaction.
    fn successor(&mut self, step: Step, place: usize) -> Life {
        let life = self.lives[place % LIVES];
        if !matches!(step, Step::Abort(_)) || life.who.turn > 3 {
            return self.begin();
        }
        let who = Attempt {
            txn: life.who.txn,
            turn: life.who.turn + 1,
        };
        let stamp = if self.keeps {
            life.stamp
        } else {
            self.stamp(who)
        };
        Life {
            who,
            stamp,
            bound: 0,
            lo: 1,
            hi: 1,
        }
    }
}
