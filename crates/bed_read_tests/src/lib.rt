//! Tests of the grammar's functions, the lexer, the reader and the words of the commands, where the program's lines don't
//! show what they give: tokens, trees and commands. The other cases are texts in `tests/read` and `tests/words`.
#![tactic(auto)]

#[cfg(test)]
mod commands;
#[cfg(test)]
mod letters;
#[cfg(test)]
mod trees;
