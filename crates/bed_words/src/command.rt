//! Commands, and the refusals of words that are none.

use bed_lang::{List, Name, Text, Which};
use std::alloc::AllocError;

/// Why words give no command.
#[derive(Drop)]
pub enum CommandError {
    /// The words are no command. `word` is the number, from 0, of the first word such that no
    /// command begins with the words up to it, or the number of words.
    Usage { word: u32 },
    /// The words are a command that passes a limit: the first one in the order modules, imports,
    /// steps, trace, words.
    Limit { which: Which },
    /// Want of memory.
    Memory,
}

impl From<AllocError> for CommandError {
    ghost use Rattle.std.specs.Prelude.{◌≡◌};
    ghost use Rattle.bed_words.specs.declared.command.CommandError.TheVariants.{Memory};

    ghost from_gives = { λ _ e. e ≡ Memory };

    fn from(_: AllocError) -> CommandError {
        CommandError::Memory
    }
}

/// What is read, linked and written.
#[derive(Drop)]
pub struct Job {
    /// The address of the first byte of the code.
    pub base: u32,
    /// The imports from the outside with their addresses, in the order of the words.
    pub imports: List<(Name, u32)>,
    /// The file of the proof text that is read.
    pub proof: Option<Text>,
    /// The file that the proof text is written to.
    pub write_proof: Option<Text>,
    /// The file that the image is written to.
    pub out: Option<Text>,
    /// The files of the module texts.
    pub modules: List<Text>,
}

/// How a function is started.
#[derive(Drop)]
pub struct Start {
    /// How many instructions are made at most.
    pub steps: u32,
    /// The address of the frame.
    pub stack: u32,
    /// The arguments, in the order of the words.
    pub args: List<u32>,
    /// How many of the last instructions are listed.
    pub trace: u32,
    /// The words of the frame, for a function of an image.
    pub words: u32,
    /// A block of zero words: its address and its number of words.
    pub block: Option<(u32, u32)>,
    /// The function. Every word is lawful here, a name or not.
    pub function: Name,
}

/// A command.
#[derive(Drop)]
pub enum Command {
    /// Checks and links modules, and writes the image.
    Link(Job),
    /// Checks modules against a supplied proof alone.
    Check(Job),
    /// Checks modules, links them in memory, and runs a function.
    Run(Job, Start),
    /// Runs an exported function of the image in this file.
    Exec(Text, Start),
    /// Lists the image in this file.
    Disasm(Text),
    /// Prints the conditions of modules.
    Conditions(Job),
    /// Checks and links a generated module of this size, 1 to 200.
    Gen(u32),
}
