//! What the values of options say.
ghost use Rattle.std.specs.Prelude.{◌≡◌, nat_eq, length, drop, option_map, if◌then◌else◌, IfOk};
ghost use Rattle.std.specs.List.{starts_with};
ghost use Rattle.server_core.specs.declared.schedules.Schedule.TheVariants.{Seed};
ghost use Rattle.deneva_top.specs.Words as spelled;

use deneva_base::{CountList, NoMemory};
use server_core::Schedule;
use std::alloc::Global;
use workload_text::{long_number_within, number_within};

/// The most numbers that a schedule lists.
const MOST_LISTED: usize = 1_000;

/// A number that is at least 1.
pub fn count_of(word: &str, most: u8) -> Option<u8>
    ensures { result ≡ spelled.number 1 most word.now }
{
    let count = number_within(word.as_bytes(), 1, u32::from(most)).ok()?;
    Some(count as u8)
}

/// What follows a prefix.
fn after<'a>(prefix: &str, word: &'a str) -> Option<&'a str>
    ensures { option_map (λ t. t.now) result ≡ (if starts_with nat_eq word.now prefix.now then Some (drop (length prefix.now) word.now) else None) }
{
    word.strip_prefix(prefix)
}

/// The schedule of a seed.
fn seed_schedule(text: &str) -> Option<Schedule>
    ensures { result ≡ option_map Seed (spelled.number 0 u64.MAX text.now) }
{
    let seed = long_number_within(text.as_bytes(), 0, u64::MAX).ok()?;
    Some(Schedule::Seed(seed))
}

/// The numbers that points join.
fn numbers_of(alloc: Global, text: &str) -> Result<Option<CountList>, NoMemory>
    ensures { IfOk result (λ numbers. numbers ≡ spelled.numbers_of text.now) }
{
    let mut numbers = CountList::new(alloc);
    for part in text.split('.') {
        let Ok(number) = number_within(part.as_bytes(), 0, u32::MAX) else {
            return Ok(None);
        };
        if numbers.len() == MOST_LISTED {
            return Ok(None);
        }
        numbers.push(number)?;
    }
    Ok(Some(numbers))
}

/// The schedule of `fifo`, `lifo`, `seed:S` or `list:K.K.K`.
pub fn schedule_of(alloc: Global, word: &str) -> Result<Option<Schedule>, NoMemory>
    ensures { IfOk result (λ schedule. schedule ≡ spelled.schedule_of word.now) }
{
    if word == "fifo" {
        return Ok(Some(Schedule::Fifo));
    }
    if word == "lifo" {
        return Ok(Some(Schedule::Lifo));
    }
    if let Some(seed) = after("seed:", word) {
        return Ok(seed_schedule(seed));
    }
    let Some(list) = after("list:", word) else {
        return Ok(None);
    };
    let numbers = numbers_of(alloc, list)?;
    Ok(numbers.map(Schedule::Listed))
}
