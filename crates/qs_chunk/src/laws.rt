//! What the form of a lane promises; and worked examples of it.

ghost use Rattle.qs_chunk.specs.LaneExamples.{LaneExamples};
ghost use Rattle.qs_chunk.specs.LaneLaws.{LaneLaws};
ghost use Rattle.qs_chunk.specs.LaneRunLaws.{LaneRunLaws};
ghost use Rattle.qs_chunk.specs.LaneViews.{LanesMatch};

/// A list in which each parcel may follow those before it is the beginning of a list of the form, and every such
/// beginning is one; a parcel may follow exactly where the longer list is one again; fronts of it are. It does nothing.
pub fn lanes_keep_their_form()
    ensures form { LaneLaws }
{}

/// What one lane's two ends say together: lists are a run of a lane exactly where each parcel may follow those before
/// it and no more objects are given than asked for, so that where the client sends home only what it got each Sync is
/// served, but that the last parcel may still wait; what lies first in a lane may follow what was received; and chunks
/// have the lane's size. It does nothing.
pub fn lane_runs_go_on()
    ensures runs { LaneRunLaws }
{}

/// Lanes, and what may stand in them, computed by the definitions; it does nothing.
pub fn lane_examples()
    ensures examples { LaneExamples }
{}

/// What a client believes to have run on an object in one block is what ran there, wherever the object is, and then the
/// commands that wait: for every lane whose handler received a front of what was sent, and whose client got a front of
/// what was given. It does nothing.
pub fn lanes_match()
    ensures agree { LanesMatch }
{}
