//! What the definitions of anchors promise; and worked examples of them.

ghost use Rattle.qs_check.specs.anchors.Laws.{AnchorsAreTokens, BlocksHaveAnchors, FirstIsFirst, FirstIsAnAnchor};

/// The anchors of a script are the names, the numbers, each `separate` and each `leave` of any tokens that are written
/// for it, in their order. It does nothing.
#[tactic(auto, using(crate::proofs::anchors::Tokens::anchors_are_tokens))]
pub fn anchors_are_tokens()
    ensures same { AnchorsAreTokens }
{}

/// The fault at the first anchor with one is the first fault of the script's places, by which `check` of `qs_check` is
/// exact, and there is none where these have none. It does nothing.
#[tactic(auto, using(crate::proofs::anchors::Faults::first_is_first))]
pub fn first_is_first()
    ensures same { FirstIsFirst }
{}

/// The first anchor with a fault is one of the anchors of the script. It does nothing.
#[tactic(auto, using(crate::proofs::anchors::Within::first_is_an_anchor))]
pub fn first_is_an_anchor()
    ensures within { FirstIsAnAnchor }
{}

/// The anchor of a block is one of the anchors of the script. It does nothing.
#[tactic(auto, using(crate::proofs::anchors::BlockNumbers::blocks_have_anchors))]
pub fn blocks_have_anchors()
    ensures within { BlocksHaveAnchors }
{}
