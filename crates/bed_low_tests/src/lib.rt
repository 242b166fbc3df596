//! Tests of image files: the image of a module whose function returns 7, whose bytes were worked out by hand.
#![tactic(auto)]

#[cfg(test)]
mod tests;
