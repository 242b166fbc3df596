// Calls that are counted, some of which are to fail.
ghost use Rattle.std.specs.Prelude.{◌≡◌};
ghost use Rattle.bed_io.specs.Counts.{one_more};
ghost use Rattle.bed_io.specs.Calls.{CallsState, next_fails, after_call};

use crate::counter::Counter;

/// The calls of something in memory: how many were made, and the numbers of those that are to
/// fail. The first call has the number 1.
#[derive(Drop)]
pub struct Calls {
    pub made: Counter,
    pub to_fail: Vec<u64>,
}

impl Calls {
    /// No call made yet.
    pub fn new(to_fail: Vec<u64>) -> Calls
        ensures made { result.made.count ≡ 0 }
        ensures to_fail { result.to_fail.items ≡ to_fail.items }
    {
        Calls {
            made: Counter::new(),
            to_fail,
        }
    }

    /// Counts a call, and tells whether it is to fail.
    pub fn next_fails(&mut self) -> bool
        ensures made { self.new.made.count ≡ one_more self.old.made.count }
        ensures to_fail { self.new.to_fail.items ≡ self.old.to_fail.items }
        ensures fails { result ≡ next_fails (record { made = self.old.made.count; to_fail = self.old.to_fail.items }) }
    {
        self.made.raise();
        self.to_fail.contains(&self.made.count)
    }
}
