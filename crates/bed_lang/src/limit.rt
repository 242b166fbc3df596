//! The limits of module texts and of commands.

/// A quantity that has a limit.
#[derive(Clone, Copy, Debug, PartialEq, Eq)]
pub enum Which {
    /// Module words of a command: 64.
    Modules,
    /// `--import` words of a command: 1,024.
    Imports,
    /// Bytes of a module text: 1,048,576.
    Text,
    /// Functions over all modules of a command: 1,024.
    Functions,
    /// Locals of a function: 60.
    Locals,
    /// Parameters, logical variables or binders of one list: 60.
    Params,
    /// Words that a signature reserves: 4,096.
    Reserve,
    /// Bodies in bodies, or brackets in a term: 64.
    Nesting,
    /// Cases of a predicate: 16.
    Cases,
    /// Terms of an assertion, or parts of one sum: 256.
    Terms,
    /// Bytes of a name: 255.
    Name,
    /// Conditions over all modules of a command: 16,384.
    Conditions,
    /// Bytes of a proof text: 16,777,216.
    Proof,
    /// Bytes of an image file: 17,825,792.
    Image,
    /// The number of `--steps`: 10,000,000.
    Steps,
    /// The number of `--trace`: 1,024.
    Trace,
    /// Words of a frame by `--words`, or of a block by `--block`: 1,048,576.
    Words,
}
