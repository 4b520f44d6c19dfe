// How often a filter was started.
use std::rt::HostRuntime;

/// A count of the runs that were started. Every engine takes a `Start`, and only this count gives one.
///
/// It is made from the runtime, which only `main` and tests have; `main` makes one.
#[derive(Drop)]
pub struct Starts {
    count: u64,
}

/// Permission to start one run. It can't be copied.
#[derive(Drop)]
pub struct Start {
    counted: (),
}

impl Starts {
    ghost use Rattle.std.specs.Prelude.{◌≡◌};
    ghost use Rattle.jq_starts.specs.Starts.{HasStarted, starts_in};

    /// No run was started.
    pub fn new(_runtime: &HostRuntime) -> Starts
        ensures { starts_in result ≡ 0 }
    {
        Starts { count: 0 }
    }

    /// How many runs were started.
    pub fn count(&self) -> u64
        ensures { result ≡ starts_in self.now }
    {
        self.count
    }

    /// Counts one start and returns the permission for it. The count stops at `u64::MAX`.
    pub fn started(&mut self) -> Start
        ensures { HasStarted 1 self.old self.new }
    {
        self.count = self.count.saturating_add(1);
        Start { counted: () }
    }
}
