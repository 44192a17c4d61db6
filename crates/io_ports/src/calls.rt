//! The calls of an in-memory port: which of them fail, and how many were made and failed.

ghost use Rattle.std.specs.Prelude.{◌≡◌, ◌↔◌, IsTrue, Contains};
ghost use Rattle.io_ports.specs.Faults.{next_count};

/// The numbers of the calls that fail, counted from 1, and the counts, which stay at 2^64 - 1.
#[derive(Drop)]
pub(crate) struct Calls {
    pub(crate) fails: Vec<u64>,
    pub(crate) made: u64,
    pub(crate) faults: u64,
}

impl Calls {
    /// Counts one more call, and tells whether it is one that fails.
    pub(crate) fn next_fails(&mut self) -> bool
        ensures fails { IsTrue result ↔ Contains self.old.fails.items (next_count self.old.made) }
        ensures calls { self.new ≡ record self.old { made = next_count self.old.made } }
    {
        self.made = self.made.saturating_add(1);
        let call = self.made;
        self.fails.iter().any(|fail| *fail == call)
    }

    /// Counts one more fault.
    pub(crate) fn add_fault(&mut self)
        ensures { self.new ≡ record self.old { faults = next_count self.old.faults } }
    {
        self.faults = self.faults.saturating_add(1);
    }
}
