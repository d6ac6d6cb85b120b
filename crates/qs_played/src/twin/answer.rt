//! What a comparison of two blocks says.

/// Whether two blocks agree, and how many of their events are then equal: as many as the shorter trace has.
#[derive(Clone, Copy, Debug, PartialEq, Eq)]
pub enum Twin {
    Different,
    Agree(usize),
}
