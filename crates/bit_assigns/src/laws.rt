ghost use Rattle.bit_assigns.specs.Laws.{LeftMeans, PiecesFit, PiecesMean, PiecesRead, PiecesWeigh, RightMeans};

/// The value of a plain right side is what its bits are worth, and a plain left side is written where its bits lie.
pub fn bits_mean_the_sides()
    ensures right { RightMeans }
    ensures left { LeftMeans }
{}

/// The pieces of a plain assign of a design are items of the design, and weigh together what the assign weighs.
pub fn pieces_are_items()
    ensures fit { PiecesFit }
    ensures weigh { PiecesWeigh }
{}

/// Where no bit stands twice on the left side, a design with the pieces in the place of the assign drives the same bits and has the same settled assignments,
/// next states, windows and runs.
pub fn pieces_mean_the_assign()
    ensures { PiecesMean }
{}

/// A piece reads no bit that the assign does not read.
pub fn pieces_read_no_more()
    ensures { PiecesRead }
{}
