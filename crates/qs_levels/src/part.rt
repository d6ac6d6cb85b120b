//! What a share of a level leads to, in the order of the leads.

ghost use Rattle.std.specs.Prelude.{◌≡◌, ◌<◌, [], OnOk, drop, length, slice_index_or};
ghost use Rattle.qs_levels.specs.Founds.{no_found, zipped};
ghost use Rattle.qs_levels.specs.Merging.{first_lead};

use crate::table::{Lead, Mark, Spare};
use qs_standings::{Packed, Standing};
use std::alloc::{AllocError, Global};
use std::marker::Model;

/// What was found, in the order of the leads.
#[derive(Drop)]
pub(crate) struct LevelPart {
    marks: Vec<Mark>,
    standings: Packed,
}

impl Model for LevelPart {
    ghost use Rattle.std.specs.Prelude.{◌≡◌, List, length};
    ghost use Rattle.qs_levels.specs.Founds.{Found, zipped};

    ghost Value = { List Found };

    ghost view = { λ p. zipped p.marks.items p.standings };

    ghost invariant = { λ p. length p.marks.items ≡ length p.standings };
}

impl LevelPart {
    pub(crate) fn new(marks: Vec<Mark>, standings: Packed) -> LevelPart
        requires even { length marks.items ≡ length standings }
        ensures found { result ≡ zipped marks.items standings }
    {
        LevelPart { marks, standings }
    }

    /// How much was found.
    pub(crate) fn len(&self) -> usize
        ensures len { result ≡ length self.now }
    {
        self.marks.len()
    }

    /// The first lead from a place on, where there is one.
    pub(crate) fn lead_from(&self, place: usize) -> Option<Lead>
        ensures first { result ≡ first_lead (drop place self.now) }
    {
        if place >= self.marks.len() {
            return None;
        }
        Some(self.marks[place].lead)
    }

    /// Who goes on from the standing at a place, client c in bit c.
    pub(crate) fn going(&self, place: usize) -> u8
        requires within { place < length self.now }
        ensures going { result ≡ (slice_index_or self.now place no_found).going }
    {
        self.marks[place].going
    }

    /// Writes the standing at a place into one that is there. An error says that memory was refused.
    pub(crate) fn load(
        &self,
        alloc: Global,
        place: usize,
        standing: &mut Standing,
    ) -> Result<(), AllocError>
        requires within { place < length self.now }
        ensures loaded { OnOk result (standing.new ≡ (slice_index_or self.now place no_found).standing) }
    {
        self.standings.load(alloc, place, standing)?;
        Ok(())
    }

    /// Its memory, for another part.
    pub(crate) fn into_spare(self) -> Spare {
        let LevelPart { marks, standings } = self;
        Spare { marks, standings }
    }
}
