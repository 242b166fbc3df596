//! The blocks of whole bodies and of functions, put together from those of their statements, with the
//! laws that they keep.
#![tactic(auto)]
