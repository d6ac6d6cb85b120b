//! What holds of every handler; and worked examples.

ghost use Rattle.qs_handler.specs.HandlerExamples.{HandlerExamples};
ghost use Rattle.qs_handler.specs.HandlerLanes.{HandlerLaneLaws};
ghost use Rattle.qs_handler.specs.HandlerLaws.{HandlerLaws};
ghost use Rattle.qs_handler.specs.HandlerRuns.{HandlerRunLaws};
ghost use Rattle.qs_handler.specs.HandlerTurns.{HandlersTakeTurns};

/// An act and what stays behind are the handler that it was; a handler takes what it asks for, exactly where a lane may
/// carry it; and it is without its object after a Sync alone. It does nothing.
pub fn handlers_follow_their_lanes()
    ensures laws { HandlerLaws }
{}

/// Whatever acts a handler is asked to do, one after another: it gives its object to a client only right after a Sync
/// of that client which is not served yet, the chunks that it gives back are empty and of the lane's size, and what may
/// follow in a lane may stand at the handler. It does nothing.
pub fn handlers_keep_to_lanes()
    ensures lanes { HandlerLaneLaws }
{}

/// Of all that a handler does from its first ticket on: it gives a client its object only where the last parcel that it
/// received from the client is a Sync, which alone is not served yet, and it gives back empty chunks of the lane's
/// size. It does nothing.
pub fn handler_runs_keep_to_lanes()
    ensures runs { HandlerRunLaws }
{}

/// A handler's whole run, from its first ticket until no further one comes, is a turn for each ticket, one after
/// another. A turn begins where the one before it left the object, and ends with the End of the client's block; the
/// turns of a client, in their order, are all that the handler received from it and gave to it. It does nothing.
pub fn handlers_take_turns()
    ensures turns { HandlersTakeTurns }
{}

/// A handler's turns, computed by the definitions; it does nothing.
pub fn handler_examples()
    ensures examples { HandlerExamples }
{}
