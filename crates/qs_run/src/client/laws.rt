//! What the definitions say of a client in the midst of its run, for callers' proofs and for readers.

ghost use Rattle.qs_run.specs.client.RunActs.{RunActLaws};

/// What a client asks for in the midst of its run can be had: each act is on the lane of a handler that a block of it
/// reserves, what it sends may follow what it sent there before, and where it reserves it has a block left. It does
/// nothing.
pub fn acts_can_be_met()
    ensures acts { RunActLaws }
{}
