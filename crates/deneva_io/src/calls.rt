//! Which calls of a stream fail.
ghost use Rattle.std.specs.Prelude.{◌≡◌, ◌≤◌, ◌==◌, IsTrue};
ghost use Rattle.std.specs.List.{list_any};
ghost use Rattle.deneva_io.specs.Streams.{Rose};
ghost use Rattle.deneva_io.specs.Memory.{script_of, fails_next, called};

use deneva_base::CountList;
use std::marker::Model;

/// The numbers of the calls that fail, with a count of the calls and of the faults so far.
#[derive(Drop)]
pub struct CallScript {
    fails: CountList,
    calls: u64,
    faults: u64,
}

impl Model for CallScript {
    ghost use Rattle.deneva_io.specs.Memory.{Script};

    ghost Value = { Script };

    ghost view = { λ s. record { fails = s.fails; calls = s.calls; faults = s.faults } };
}

impl CallScript {
    pub fn new(fails: CountList) -> CallScript
        ensures { result ≡ script_of fails }
    {
        CallScript {
            fails,
            calls: 0,
            faults: 0,
        }
    }

    /// Counts one more call, and answers whether it fails.
    pub fn call(&mut self) -> bool
        ensures fails { result ≡ fails_next self.old }
        ensures counted { self.new ≡ called self.old }
        ensures kept { self.old.faults ≤ self.new.faults }
        ensures rose { IsTrue result → Rose self.old.faults self.new.faults }
    {
        let number = self.calls;
        let fails = is_listed(self.fails.as_slice(), number);
        self.calls = self.calls.saturating_add(1);
        if fails {
            self.faults = self.faults.saturating_add(1);
        }
        fails
    }
}

fn is_listed(numbers: &[u32], number: u64) -> bool
    ensures { result ≡ list_any (λ listed. listed == number) numbers.now }
{
    numbers.iter().any(|listed| u64::from(*listed) == number)
}
