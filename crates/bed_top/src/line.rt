//! The printed lines.
ghost use Rattle.std.specs.Prelude.{◌≡◌, codes, string_bytes, IfOk};
ghost use Rattle.std.specs.Fmt.{decimal};
ghost use Rattle.bed_top.specs.Lines.{labelled, limit_text, linked_line, place_text, rule_text, syntax_text, text_of};

use crate::status::{NameKind, SyntaxKind};
use bed_lang::{Text, Which};
use std::alloc::{AllocError, Global};

/// The line of want of memory, which takes none.
pub(crate) const MEMORY: &[u8; 15] = b"want of memory\n";

/// A line that isn't built yet: its bytes are made right before they are put.
#[derive(Drop)]
pub(crate) enum Line {
    Usage(u32),
    Syntax {
        file: Text,
        line: u32,
        column: u32,
        kind: SyntaxKind,
    },
    Names {
        file: Text,
        line: u32,
        column: u32,
        kind: NameKind,
    },
    Limit(Which),
    Condition(u32),
    NotBuilt(Text),
    ReadFault(Text),
    WriteFault(Text),
    Linked {
        modules: u64,
        functions: u64,
        bytes: u64,
    },
}

fn named(alloc: Global, label: &str, name: &[u8]) -> Result<Vec<u8>, AllocError>
    ensures { IfOk result (λ line. line.items ≡ labelled label.now name.now) }
{
    let mut line = Vec::from_slice(alloc, label.as_bytes())?;
    line.extend_from_slice(name)?;
    line.extend_from_slice(b"\n")?;
    Ok(line)
}

fn numbered(alloc: Global, label: &str, number: u32) -> Result<Vec<u8>, AllocError>
    ensures { IfOk result (λ line. line.items ≡ labelled label.now (decimal number)) }
{
    Ok(format!(in alloc; "{label}{number}\n")?.into_bytes())
}

/// The quantity and its limit.
fn limit_name(which: Which) -> &'static str
    ensures { result.now ≡ limit_text which }
{
    match which {
        Which::Modules => "modules 64",
        Which::Imports => "imports 1024",
        Which::Text => "text 1048576",
        Which::Functions => "functions 1024",
        Which::Locals => "locals 60",
        Which::Params => "params 60",
        Which::Reserve => "reserve 4096",
        Which::Nesting => "nesting 64",
        Which::Cases => "cases 16",
        Which::Terms => "terms 256",
        Which::Name => "name 255",
        Which::Conditions => "conditions 16384",
        Which::Proof => "proof 16777216",
        Which::Image => "image 17825792",
        Which::Steps => "steps 10000000",
        Which::Trace => "trace 1024",
        Which::Words => "words 1048576",
    }
}

fn syntax_name(kind: SyntaxKind) -> &'static str
    ensures { result.now ≡ syntax_text kind }
{
    match kind {
        SyntaxKind::Byte => "byte",
        SyntaxKind::Token => "token",
        SyntaxKind::Number => "number",
    }
}

fn rule_name(alloc: Global, kind: NameKind) -> Result<String, AllocError>
    ensures { IfOk result (λ text. string_bytes text ≡ rule_text kind) }
{
    match kind {
        NameKind::Unknown => String::from_str(alloc, "unknown"),
        NameKind::Twice => String::from_str(alloc, "twice"),
        NameKind::Sort => String::from_str(alloc, "sort"),
        NameKind::Arity => String::from_str(alloc, "arity"),
        NameKind::FallsOff => String::from_str(alloc, "falls off"),
        NameKind::MissingJoin => String::from_str(alloc, "missing join"),
        NameKind::Dead => String::from_str(alloc, "dead"),
        NameKind::StackRoom { needs, has } => format!(in alloc;
            "stack room needs {needs} has {has}"
        ),
    }
}

/// A place in a file, and what is wrong there.
fn placed(
    alloc: Global,
    label: &str,
    file: &[u8],
    line: u32,
    column: u32,
    kind: &str,
) -> Result<Vec<u8>, AllocError>
    ensures { IfOk result (λ text. text.items ≡ labelled label.now (place_text file.now line column kind.now)) }
{
    let mut text = Vec::from_slice(alloc, label.as_bytes())?;
    text.extend_from_slice(file)?;
    let rest = format!(in alloc; " {line}:{column} {kind}\n")?;
    text.extend_from_slice(rest.as_bytes())?;
    Ok(text)
}

fn linked(alloc: Global, modules: u64, functions: u64, bytes: u64) -> Result<Vec<u8>, AllocError>
    ensures { IfOk result (λ line. line.items ≡ linked_line modules functions bytes) }
{
    Ok(format!(in alloc;
        "linked {modules} modules, {functions} functions, {functions} conditions, {bytes} bytes\n"
    )?.into_bytes())
}

impl Line {
    /// The bytes of the line.
    pub(crate) fn text(&self, alloc: Global) -> Result<Vec<u8>, AllocError>
        ensures { IfOk result (λ bytes. bytes.items ≡ text_of self.now) }
    {
        match self {
            Line::Usage(word) => numbered(alloc, "usage: word ", *word),
            Line::Syntax {
                file,
                line,
                column,
                kind,
            } => {
                let kind = syntax_name(*kind);
                placed(alloc, "syntax: ", file.as_slice(), *line, *column, kind)
            }
            Line::Names {
                file,
                line,
                column,
                kind,
            } => {
                let kind = rule_name(alloc, *kind)?;
                placed(alloc, "names: ", file.as_slice(), *line, *column, &kind)
            }
            Line::Limit(which) => named(alloc, "limit: ", limit_name(*which).as_bytes()),
            Line::Condition(number) => numbered(alloc, "no: condition ", *number),
            Line::NotBuilt(what) => named(alloc, "not built: ", what.as_slice()),
            Line::ReadFault(file) => named(alloc, "read fault: ", file.as_slice()),
            Line::WriteFault(file) => named(alloc, "write fault: ", file.as_slice()),
            Line::Linked {
                modules,
                functions,
                bytes,
            } => linked(alloc, *modules, *functions, *bytes),
        }
    }
}
