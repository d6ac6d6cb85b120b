//! What the definitions of the lines of nodes promise; and worked examples of them.

ghost use Rattle.qs_dot.specs.node_lines.Laws.{AnchorsHaveLines, LinesFromOne, NodesHaveLines};

/// The anchors of a text's lines, one line after another, are the anchors of its script. It does nothing.
pub fn anchors_have_lines()
    ensures same { AnchorsHaveLines }
{}

/// Each client of a script's program, each of its blocks and each node of the block's graph but Exit has a line. It
/// does nothing.
pub fn nodes_have_lines()
    ensures count { NodesHaveLines }
{}

/// No node of a text's script has a line below 1: each has that of an anchor of the text. It does nothing.
pub fn lines_from_one()
    ensures lines { LinesFromOne }
{}
