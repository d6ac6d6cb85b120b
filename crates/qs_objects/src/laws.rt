//! What holds of every object and every journal; and worked examples of the definitions.

ghost use Rattle.qs_objects.specs.Laws.{CommandsNeverAnswer, QueriesAnswer, MisfitsDoNothing, ShapesStay, RangesBegin, RangesStay, JournalsStayHonest};
ghost use Rattle.qs_objects.specs.Examples.{Examples};

/// A command never answers, whatever the object holds and whatever its arguments.
pub fn commands_never_answer()
    ensures law { CommandsNeverAnswer }
{}

/// A query that fits its object, with the right number of arguments, always answers.
pub fn queries_answer()
    ensures law { QueriesAnswer }
{}

/// An operation of another kind, or with a wrong number of arguments, answers nothing and changes
/// nothing.
pub fn misfits_do_nothing()
    ensures law { MisfitsDoNothing }
{}

/// An account stays an account, a buffer keeps its capacity, a grid its rows and columns.
pub fn shapes_stay()
    ensures law { ShapesStay }
{}

/// What a new object holds is in range: its balance, its number of values, its rows and columns.
pub fn ranges_begin()
    ensures law { RangesBegin }
{}

/// What an object holds stays in range, whatever it is asked.
pub fn ranges_stay()
    ensures law { RangesStay }
{}

/// A journal that is honest from a start, and whose replay is the object, stays so with each request.
pub fn journals_stay_honest()
    ensures law { JournalsStayHonest }
{}

/// What objects do in a few cases that were worked out by hand.
pub fn examples()
    ensures examples { Examples }
{}
