//! Worked examples of pictures, that no picture has too many shapes, and what one shows of isolation.

ghost use Rattle.qs_svg.specs.Few.{AreFewShapes};
ghost use Rattle.qs_svg.specs.OneColour.{AreRowsOfWholeBlocks};

/// A picture of whatever run of a sound program has at most 6,500 shapes; it does nothing.
pub fn few_shapes()
    ensures few { AreFewShapes }
{}

/// In the picture of an isolated run each stretch is all that its object ran for its ticket, in the colour of that
/// ticket's client; with the last ticket no request is left, and what the object holds then is its last state; it does
/// nothing.
pub fn rows_of_whole_blocks()
    ensures rows { AreRowsOfWholeBlocks }
{}
