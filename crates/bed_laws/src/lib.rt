//! What blocks keep, and the laws by which it is proved.
#![tactic(auto)]
