//! The trees of the language: what a module text stands for, and the conditions that it owes.
#![tactic(auto)]

mod condition;
mod form;
mod limit;
mod logic;
mod module;
mod statement;
mod tree;
mod word;

pub use condition::{Cond, Decls, Goal, Placed};
pub use form::{Form, Key, Piece};
pub use limit::Which;
pub use logic::{Arg, Assertion, Atom, Bind, Pure, Term};
pub use module::{
    Action, Function, Hint, Import, Join, Module, Op, Operand, Place, Predicate, Rel, Signature,
    Test,
};
pub use sqlite_items::{Boxed as Box, Items as List};
pub use statement::{Stmt, StmtKind};
pub use tree::{Tree, both, four, three};
pub use word::{Name, Seq, Sort, Text, Var, Word, substitute};
