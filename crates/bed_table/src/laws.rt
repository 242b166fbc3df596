//! Laws of the definitions, which other crates cite.
ghost use Rattle.bed_table.specs.Laws as laws;

/// How long code is: a statement, a body and a function have as many bytes as their piece says, wherever they stand and
/// whatever the labels are; a body is its first statements and then the rest; and the code of modules has the length that the
/// layout says.
pub fn sizes()
    ensures statements { laws.StatementsAreSized }
    ensures bodies { laws.BodiesAreSized }
    ensures sequences { laws.BodiesAreSequences }
    ensures functions { laws.FunctionsAreSized }
    ensures code { laws.CodeIsSized }
    ensures returns { laws.ReturnsAreSized }
    ensures short { laws.ReturnsAreShort }
{}

/// What an image is made of: assertions, hints, predicates and the sequences of `find` and `walk` change no byte of it, nor of
/// the code.
pub fn skeletons()
    ensures images { laws.ImagesReadSkeletons }
    ensures code { laws.CodeReadsSkeletons }
{}
