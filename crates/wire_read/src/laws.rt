ghost use Rattle.wire_read.specs.Framing.{CutAnywhere, ReadsAnyPieces};
ghost use Rattle.wire_read.specs.Grammar.{IsSpelled, IsRead, IsShown, IsFault, HasFraming, HasOneFraming};

/// However a stream is cut in two, its frames are those of the first part, and then those of what
/// that left and the second part; unless the first had a fault, which stays the last frame.
pub fn cut_anywhere()
    ensures { CutAnywhere }
{}

/// The answers of a new reader to any pieces: all frames given are those of all pieces taken, and
/// the reader keeps what they leave. A piece that was answered by an error isn't taken.
pub fn any_pieces()
    ensures { ReadsAnyPieces }
{}

/// A stream begins with a frame of so many bytes exactly where these bytes are one of the frame's texts.
pub fn spellings()
    ensures found { IsSpelled }
    ensures read { IsRead }
{}

/// A stream begins with a fault exactly where one shows.
pub fn faults()
    ensures found { IsShown }
    ensures read { IsFault }
{}

/// The frames of a stream are the one way to write it as texts of frames and less than one more.
pub fn one_framing()
    ensures found { HasFraming }
    ensures only { HasOneFraming }
{}
