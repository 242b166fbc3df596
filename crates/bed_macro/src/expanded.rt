//! What a module expands to.

use bed_il::Block;
use bed_lang::{Cond, List};

/// The blocks of each function of a module, in their order, and the conditions that it owes.
#[derive(Drop)]
pub struct Expanded {
    pub blocks: List<List<Block>>,
    pub conditions: List<Cond>,
}
