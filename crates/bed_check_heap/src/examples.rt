//! Worked examples. Each function here does nothing: its contract is the example.
ghost use Rattle.bed_check_heap.specs.Examples.{AsksTooHighExample, NoTreeExample};

/// Four bytes that go on at address 0 aren't a cell: `shape[2, 1, 2, 3, 4]` asks first that the address of
/// the first one is at most 4294967292, and no tree proves it.
pub fn bytes_across_the_end()
    ensures asks { AsksTooHighExample }
    ensures none { NoTreeExample }
{}
