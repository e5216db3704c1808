//! What the definitions of this crate amount to, proved once for all layers above.
ghost use Rattle.obo_lexer.specs.Laws.{WrittenLinesAreRead, LinesAreOnly, LinesAreWritten, PiecesJoin, RunsGiveLines};
ghost use Rattle.obo_lexer.specs.Tokens.{CoverIsUnique};

use rel_io::Bytes;

/// Lines and rest are the one way to write the bytes as parts without LF, each but the last with its LF.
pub fn lines_are_the_parts(bytes: &[u8])
    ensures written { LinesAreWritten bytes.now }
    ensures only { LinesAreOnly bytes.now }
{}

/// How a file is cut into pieces, and when its lines are taken, does not matter.
pub fn cutting_does_not_matter()
    ensures pieces { PiecesJoin }
    ensures runs { RunsGiveLines }
{}

/// A line is cut into tokens in one way only.
pub fn tokens_are_unique(line: &Bytes)
    ensures { CoverIsUnique line.now }
{}

/// Lines without CR and LF, written with their ends, are read as themselves.
pub fn written_lines_are_read()
    ensures { WrittenLinesAreRead }
{}
