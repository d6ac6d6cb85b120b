//! Standings one behind another, in few pieces of memory.

ghost use Rattle.std.specs.Prelude.{◌≡◌, ◌<◌, ◌≤◌, ◌+◌, IfOk, OnErr, OnOk, [], ◌∷◌, ◌++◌, length, slice_index_or};
ghost use Rattle.qs_standings.specs.Packed.{IsFront, IsGrown, IsKept, IsPlaced, LiesAt, cut, standing_at};
ghost use Rattle.qs_standings.specs.Standings.{StandingShape};

use crate::standing::{Standing, put_objects};
use qs_objects::{Object, Ticket};
use std::alloc::{AllocError, Global};
use std::marker::Model;

// Where a part of a list lies.
#[derive(Clone, Copy)]
struct Span {
    first: usize,
    len: usize,
}

// Where the parts of a standing lie; and of how many clients its numbers are, and how many of each.
#[derive(Clone, Copy)]
struct Place {
    order: Span,
    begun: Span,
    numbers: Span,
    objects: Span,
    width: usize,
    clients: usize,
}

// The parts of all standings, one standing's behind another's.
#[derive(Drop)]
struct Pieces {
    orders: Vec<Ticket>,
    begun: Vec<u8>,
    numbers: Vec<i64>,
    objects: Vec<Object>,
}

/// Standings one behind another, in few pieces of memory.
#[derive(Drop)]
pub struct Packed {
    places: Vec<Place>,
    pieces: Pieces,
}

impl Model for Packed {
    ghost use Rattle.std.specs.Prelude.{List, map};
    ghost use Rattle.std.specs.List.{AllByRecursion};
    ghost use Rattle.qs_standings.specs.Standings.{StandingShape};
    ghost use Rattle.qs_standings.specs.Packed.{IsPlaced, standing_at};

    ghost Value = { List StandingShape };

    ghost view = { λ p. map (standing_at p.pieces) p.places.items };

    ghost invariant = { λ p. AllByRecursion (IsPlaced p.pieces) p.places.items };
}

// Adds elements behind those that are there, and says where they lie. An error says that memory was refused.
fn add<T: Copy>(all: &mut Vec<T>, own: &[T]) -> Result<Span, AllocError>
    ensures front { IsFront all.old.items all.new.items }
    ensures lies { IfOk result (λ span. LiesAt span own.now all.new.items) }
{
    let first = all.len();
    all.extend_from_slice(own)?;
    Ok(Span {
        first,
        len: own.len(),
    })
}

// The same of objects, which are taken.
fn add_objects(all: &mut Vec<Object>, own: &mut Vec<Object>) -> Result<Span, AllocError>
    ensures front { IsFront all.old.items all.new.items }
    ensures lies { IfOk result (λ span. LiesAt span own.old.items all.new.items) }
{
    let first = all.len();
    let len = own.len();
    all.append(own)?;
    Ok(Span { first, len })
}

// A part of a list.
fn part<T>(all: &[T], span: Span) -> &[T]
    requires within { span.first + span.len ≤ length all.now }
    ensures cut { result.now ≡ cut span all.now }
{
    &all[span.first..span.first + span.len]
}

// Puts elements in the place of those that are there. An error says that memory was refused.
fn put<T: Copy>(own: &[T], copy: &mut Vec<T>) -> Result<(), AllocError>
    ensures same { OnOk result (copy.new.items ≡ own.now) }
{
    copy.clear();
    copy.extend_from_slice(own)?;
    Ok(())
}

impl Pieces {
    // Adds the parts of a standing, whose objects are taken, and says where they lie.
    fn add(&mut self, standing: &mut Standing) -> Result<Place, AllocError>
        ensures grown { IsGrown self.old self.new }
        ensures kept { IfOk result (λ place. IsKept self.new place standing.old) }
    {
        let order = add(&mut self.orders, standing.order.as_slice())?;
        let begun = add(&mut self.begun, standing.begun.as_slice())?;
        let (width, clients, own) = standing.locals.parts();
        let numbers = add(&mut self.numbers, own)?;
        let objects = add_objects(&mut self.objects, &mut standing.objects)?;
        Ok(Place {
            order,
            begun,
            numbers,
            objects,
            width,
            clients,
        })
    }

    // Writes the standing whose parts lie at a place.
    fn load(&self, alloc: Global, place: &Place, standing: &mut Standing) -> Result<(), AllocError>
        requires placed { IsPlaced self.now place.now }
        ensures loaded { OnOk result (standing.new ≡ standing_at self.now place.now) }
    {
        put(
            part(self.orders.as_slice(), place.order),
            &mut standing.order,
        )?;
        put(
            part(self.begun.as_slice(), place.begun),
            &mut standing.begun,
        )?;
        let numbers = part(self.numbers.as_slice(), place.numbers);
        standing.locals.put(place.width, place.clients, numbers)?;
        let objects = part(self.objects.as_slice(), place.objects);
        put_objects(alloc, objects, &mut standing.objects)
    }
}

impl Packed {
    /// No standings, which take no memory.
    pub fn new(alloc: Global) -> Packed
        ensures none { result ≡ [] }
    {
        Packed {
            places: Vec::new(alloc),
            pieces: Pieces {
                orders: Vec::new(alloc),
                begun: Vec::new(alloc),
                numbers: Vec::new(alloc),
                objects: Vec::new(alloc),
            },
        }
    }

    /// Lets go of all standings, and keeps their memory for others.
    pub fn clear(&mut self)
        ensures none { self.new ≡ [] }
    {
        self.places.clear();
        self.pieces.orders.clear();
        self.pieces.begun.clear();
        self.pieces.numbers.clear();
        self.pieces.objects.clear();
    }

    /// How many there are.
    pub fn len(&self) -> usize
        ensures len { result ≡ length self.now }
    {
        self.places.len()
    }

    /// Adds a standing, whose objects are taken. An error says that memory was refused; those that were there stay.
    pub fn push(&mut self, standing: &mut Standing) -> Result<(), AllocError>
        ensures pushed { OnOk result (self.new ≡ self.old ++ standing.old ∷ []) }
        ensures stay { OnErr result (self.new ≡ self.old) }
    {
        let place = self.pieces.add(standing)?;
        self.places.push(place)?;
        Ok(())
    }

    /// Writes the standing at a place into one that is there, whose memory is used again. An error says that memory was
    /// refused.
    pub fn load(
        &self,
        alloc: Global,
        place: usize,
        standing: &mut Standing,
    ) -> Result<(), AllocError>
        requires within { place < length self.now }
        ensures loaded { OnOk result ((d : StandingShape) → standing.new ≡ slice_index_or self.now place d) }
    {
        self.pieces.load(alloc, &self.places[place], standing)
    }
}
