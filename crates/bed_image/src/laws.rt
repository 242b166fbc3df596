//! What holds of the bytes of every file. Each function here does nothing: its contract is a law.
ghost use Rattle.bed_image.specs.Laws.{HasAnswer, HasNoFault, OneFault, OneImage};

/// A file is that of one image at most; the file of an image has no fault; a file has one first fault at
/// most; and it is that of an image or has a fault, so none of these says nothing of some file.
pub fn files(_bytes: &[u8])
    ensures one_image { OneImage _bytes.now }
    ensures no_fault { HasNoFault _bytes.now }
    ensures one_fault { OneFault _bytes.now }
    ensures an_answer { HasAnswer _bytes.now }
{}
