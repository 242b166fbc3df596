//! The module texts of a link.
ghost use Rattle.std.specs.Prelude.{◌≡◌, ◌++◌, ◌+◌, ◌≤◌, ℕ, List, length, map, OnOk};
ghost use Rattle.std.specs.List.{list_any};
ghost use Rattle.bed_io.specs.Files.{FilesState};
ghost use Rattle.bed_top.specs.Gives.{texts_of};
ghost use Rattle.bed_top.specs.Outcomes.{holds_long, AreCut, ReadsTexts};

use bed_io::{FileRefusal, Files};
use bed_lang::Text;
use std::alloc::Global;

/// The most bytes of a module's text.
const MOST_TEXT: usize = 1_048_576;

/// Reads these files, in their order, and appends their texts.
pub(crate) fn read_texts<F: Files>(
    alloc: Global,
    files: &mut F,
    names: &[Text],
    texts: &mut Vec<Vec<u8>>,
) -> Result<(), FileRefusal>
    ensures { (more : List (List ℕ)) × (texts_of texts.new.items ≡ texts_of texts.old.items ++ more) × AreCut more × ReadsTexts (F.seen files.old) (F.seen files.new) names.now more result }
{
    let [name, rest @ ..] = names else {
        return Ok(());
    };
    let mut text = Vec::new(alloc);
    if let Err(error) = files.read(name.as_slice(), MOST_TEXT, &mut text) {
        return Err(error);
    }
    if texts.push(text).is_err() {
        return Err(FileRefusal::Memory);
    }
    read_texts(alloc, files, rest, texts)
}

/// Whether one of the texts has too many bytes.
pub(crate) fn has_long(texts: &[Vec<u8>]) -> bool
    ensures { result ≡ list_any holds_long texts.now }
{
    texts.iter().any(|text| text.len() > MOST_TEXT)
}
