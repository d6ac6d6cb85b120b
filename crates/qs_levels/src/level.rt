//! All configurations after so many blocks, as places in what the threads have found.

ghost use Rattle.std.specs.Prelude.{◌≡◌, ◌<◌, ◌∷◌, ◌++◌, [], IfOk, OnOk, length, slice_index_or};
ghost use Rattle.std.specs.List.{AllByRecursion};
ghost use Rattle.qs_levels.specs.Founds.{IsSpot, level_in, no_standing};

use crate::part::LevelPart;
use crate::table::Spare;
use qs_standings::Standing;
use std::alloc::{AllocError, Global};
use std::marker::Model;

/// Who goes on from a standing, client c in bit c, and in which share it is.
#[derive(Clone, Copy, Drop)]
pub(crate) struct Going {
    pub clients: u8,
    pub share: u8,
}

/// In which part a standing is and at which place there, and who goes on from it. Every thread reads those of all
/// standings, so it is short.
#[derive(Clone, Copy, Drop)]
pub(crate) struct Spot {
    pub place: usize,
    pub part: u8,
    pub going: Going,
}

/// Memory of a level that is done with, for another one.
#[derive(Drop)]
pub(crate) struct Spares {
    pub parts: Vec<Spare>,
    pub spots: Vec<Spot>,
}

/// Standings in the order of their orders, and who goes on from each.
#[derive(Drop)]
pub(crate) struct Level {
    parts: Vec<LevelPart>,
    spots: Vec<Spot>,
}

impl Model for Level {
    ghost use Rattle.std.specs.List.{AllByRecursion};
    ghost use Rattle.qs_levels.specs.Founds.{IsSpot, LevelShape, level_in};

    ghost Value = { LevelShape };

    ghost view = { λ l. level_in l.parts.items l.spots.items };

    ghost invariant = { λ l. AllByRecursion (IsSpot l.parts.items) l.spots.items };
}

impl Level {
    pub(crate) fn new(parts: Vec<LevelPart>, spots: Vec<Spot>) -> Level
        requires within { AllByRecursion (IsSpot parts.items) spots.items }
        ensures level { result ≡ level_in parts.items spots.items }
    {
        Level { parts, spots }
    }

    /// How many standings there are.
    pub(crate) fn len(&self) -> usize
        ensures len { result ≡ length self.now.standings }
    {
        self.spots.len()
    }

    /// Who goes on from the standing at a place.
    pub(crate) fn going(&self, place: usize) -> Going
        requires within { place < length self.now.standings }
        ensures going { (d : Going) → result ≡ slice_index_or self.now.going place d }
    {
        self.spots[place].going
    }

    /// Writes the standing at a place into one that is there. An error says that memory was refused.
    pub(crate) fn load(
        &self,
        alloc: Global,
        place: usize,
        standing: &mut Standing,
    ) -> Result<(), AllocError>
        requires within { place < length self.now.standings }
        ensures loaded { OnOk result (standing.new ≡ slice_index_or self.now.standings place no_standing) }
    {
        let spot = self.spots[place];
        self.parts[usize::from(spot.part)].load(alloc, spot.place, standing)?;
        Ok(())
    }

    /// All standings. An error says that memory was refused.
    pub(crate) fn unpacked(&self, alloc: Global) -> Result<Vec<Standing>, AllocError>
        ensures all { IfOk result (λ all. all.items ≡ self.now.standings) }
    {
        let mut all = Vec::with_capacity(alloc, self.len())?;
        for place in 0..self.len() {
            let mut standing = Standing::empty(alloc);
            self.load(alloc, place, &mut standing)?;
            add(&mut all, standing)?;
        }
        Ok(all)
    }

    /// Its memory, for another level.
    pub(crate) fn into_spare(self, alloc: Global) -> Result<Spares, AllocError> {
        let Level { parts, spots } = self;
        let mut spares = Vec::with_capacity(alloc, parts.len())?;
        for part in parts {
            spares.push(part.into_spare())?;
        }
        Ok(Spares {
            parts: spares,
            spots,
        })
    }
}

fn add(list: &mut Vec<Standing>, standing: Standing) -> Result<(), AllocError>
    ensures added { OnOk result (list.new.items ≡ list.old.items ++ standing ∷ []) }
{
    list.push(standing)?;
    Ok(())
}
