//! What holds of the configurations after so many blocks, for callers' proofs and for readers.

ghost use Rattle.qs_levels.specs.meaning.Fronts.{FrontsCover};
ghost use Rattle.qs_levels.specs.meaning.Joining.{EqualConfigurationsGoOnAlike};

/// What complete orders come to that begin with a front and are long enough, complete orders come to that begin with
/// the orders of `fronts_after`; and what begins with one of these begins with the front. It does nothing.
pub fn fronts_cover()
    ensures cover { FrontsCover }
{}

/// Orders that lead to one configuration go on alike, to the same ends. So where parts of a search have found it apart,
/// one of them may go on for all. It does nothing.
pub fn equal_configurations_go_on_alike()
    ensures alike { EqualConfigurationsGoOnAlike }
{}
