//! Positions by a schedule.
ghost use Rattle.std.specs.Prelude.{◌≡◌, ◌<◌, ℕ, suc};
ghost use Rattle.server_core.specs.Picks.{position};
ghost use Rattle.server_core.specs.declared.schedules.Schedule as schedules;
ghost use Rattle.world.specs.Turns.{AtTurn};

use rand_core::utils::NextWord;
use rand_pcg::Lcg64Xsh32;
use server_core::Schedule;

/// The stream of the generator that a seed names.
const STREAM: u64 = 2;

/// The positions of a schedule, one after another.
#[derive(Drop)]
pub enum Picker<'s> {
    First,
    Last,
    Seeded(Lcg64Xsh32),
    /// The listed numbers, and the index of the next one.
    Listed(&'s [u32], usize),
}

impl<'s> Picker<'s> {
    pub fn new(schedule: &'s Schedule) -> Picker<'s>
        ensures { AtTurn schedule.now 0 result }
    {
        match schedule {
            Schedule::Fifo => Picker::First,
            Schedule::Lifo => Picker::Last,
            Schedule::Seed(seed) => Picker::Seeded(Lcg64Xsh32::new(*seed, STREAM)),
            Schedule::Listed(numbers) => Picker::Listed(numbers.as_slice(), 0),
        }
    }

    /// The next position, with so many mails in flight.
    pub fn next(&mut self, count: usize) -> usize
        requires { 0 < count }
        ensures below { result < count }
        ensures picked { (schedule : schedules.Schedule) (i : ℕ) → AtTurn schedule i self.old → result ≡ position schedule i count }
        ensures turn { (schedule : schedules.Schedule) (i : ℕ) → AtTurn schedule i self.old → AtTurn schedule (suc i) self.new }
    {
        match self {
            Picker::First => 0,
            Picker::Last => count - 1,
            Picker::Seeded(rng) => rng.next_word() as usize % count,
            Picker::Listed(numbers, next) => match numbers.get(*next) {
                Some(number) => {
                    *next += 1;
                    *number as usize % count
                }
                None => 0,
            },
        }
    }
}
