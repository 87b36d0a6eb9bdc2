//! The kept versions of one key.
ghost use Rattle.std.specs.Prelude.{◌≡◌, None, map, option_map};
ghost use Rattle.chain_control.specs.Links.{link_below, as_great, floor_of, read_by};

use deneva_base::{Number, Row};

/// A version, and the greatest stamp to which it was granted, or 0.
#[derive(Debug, Drop)]
pub(crate) struct ReadVersion {
    pub number: Number,
    pub row: Row,
    pub read: u64,
}

impl ReadVersion {
    /// Notes that the version of this number was granted to a stamp.
    fn read_by(&mut self, number: Number, stamp: u64)
        ensures { self.new ≡ read_by number stamp self.old }
    {
        if self.number == number {
            self.read = self.read.max(stamp);
        }
    }
}

/// The version of the greatest number below the stamp.
pub(crate) fn link_below(links: &[ReadVersion], stamp: u64) -> Option<&ReadVersion>
    ensures { option_map (λ l. l.now) result ≡ link_below stamp None links.now }
{
    let mut best: Option<&ReadVersion> = None;
    for link in links {
        if link.number.n < stamp {
            best = match best {
                Some(found) if found.number >= link.number => Some(found),
                _ => Some(link),
            };
        }
    }
    best
}

/// How many have no lesser number.
fn as_great(links: &[ReadVersion], number: Number) -> usize
    ensures { result ≡ as_great links.now number }
{
    let mut count = 0;
    for link in links {
        if link.number >= number {
            count += 1;
        }
    }
    count
}

/// The number of the last of the `keep` greatest versions: 0 where there are fewer, or where all are kept.
pub(crate) fn floor(links: &[ReadVersion], keep: usize) -> u64
    ensures { result ≡ floor_of keep links.now }
{
    let mut floor = 0;
    if keep == 0 {
        return floor;
    }
    for link in links {
        if as_great(links, link.number) >= keep {
            floor = floor.max(link.number.n);
        }
    }
    floor
}

/// Notes that the version of this number was granted to a stamp.
pub(crate) fn read(links: &mut [ReadVersion], number: Number, stamp: u64)
    ensures { links.new ≡ map (read_by number stamp) links.old }
{
    for link in links.iter_mut() {
        link.read_by(number, stamp);
    }
}
