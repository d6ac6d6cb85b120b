//! A search level by level, and a step of it.

ghost use Rattle.qs_standings.specs.going.Going.{AreLast};
ghost use Rattle.qs_standings.specs.Rows.{AreStarts};

use crate::level::Level;
use qs_objects::Ticket;
use qs_program::Program;
use qs_standings::Last;

/// What is searched, and does not change: a program after a front, the last blocks of its clients, and where in a row
/// the variables of each begin.
#[derive(Clone, Copy)]
pub(crate) struct Search<'a> {
    pub program: &'a Program,
    pub front: &'a [Ticket],
    pub last: &'a [Last],
    pub starts: &'a [usize],
    ghost are_last: { AreLast program.now last.now },
    ghost are_starts: { AreStarts program.now starts.now },
}

/// A step of a search: from a level to the next one, in which there is room for so many configurations.
#[derive(Clone, Copy)]
pub(crate) struct Step<'a> {
    pub search: Search<'a>,
    pub level: &'a Level,
    pub room: usize,
}
