//! Hosts that keep their log in memory.
//!
//! [`Say`] answers 0, [`Feed`] answers the numbers of a list in turn, and [`Tight`] refuses one of its calls
//! as if memory had run out.
#![tactic(auto)]

mod entry;
mod feed;
mod log;
mod say;
mod tight;

pub use feed::Feed;
pub use say::Say;
pub use tight::Tight;
