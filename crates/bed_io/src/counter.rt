// A count that stops at its end.
ghost use Rattle.std.specs.Prelude.{◌≡◌, ◌<◌, ◌^◌};
ghost use Rattle.bed_io.specs.Counts.{one_more};

/// A count from 0 that stays at 18446744073709551615 once it stands there.
#[derive(Drop)]
pub struct Counter {
    pub count: u64,
    ghost fits: { count < 2 ^ 64 },
}

impl Counter {
    /// A count of 0.
    pub fn new() -> Counter
        ensures { result.count ≡ 0 }
    {
        Counter { count: 0 }
    }

    /// Counts one more.
    pub fn raise(&mut self)
        ensures { self.new.count ≡ one_more self.old.count }
    {
        self.count = self.count.saturating_add(1);
    }
}
