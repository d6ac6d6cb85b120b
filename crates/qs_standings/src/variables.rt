//! The variables of all clients.

ghost use Rattle.std.specs.Prelude.{◌≡◌, ◌<◌, ◌≤◌, ◌*◌, ◌+◌, true, IfOk, OnOk, [], drop, length, replicate, slice_index_or, slice_set};
ghost use Rattle.std.specs.List.{swap};
ghost use Rattle.qs_program.specs.audit.Limits.{most_clients, most_variables};
ghost use Rattle.qs_meaning.specs.audit.Serial.{zeros};
ghost use Rattle.qs_standings.specs.Variables.{IsSpread, spread, widened};

use crate::rows::put_numbers;
use qs_program::{Locals, MOST_VARIABLES, Program};
use std::alloc::{AllocError, Global};
use std::cmp::max;
use std::marker::Model;

/// The variables of all clients, one client's behind another's: of each as many as the width says, and all others are 0.
/// The width is how many the client with the most names has, or all where others were put there.
#[derive(Drop)]
pub struct Variables {
    clients: usize,
    width: usize,
    numbers: Vec<i64>,
}

impl Model for Variables {
    ghost use Rattle.std.specs.Prelude.{List};
    ghost use Rattle.qs_program.specs.audit.Values.{Locals};
    ghost use Rattle.qs_standings.specs.Variables.{IsSpread, spread};

    ghost Value = { List Locals };

    ghost view = { λ v. spread v.width v.clients v.numbers.items };

    ghost invariant = { λ v. IsSpread v.width v.clients v.numbers.items };
}

// How many variables the client with the most names has.
fn most_named(program: &Program) -> usize
    ensures few { result ≤ most_variables }
{
    program.keeps_sound();
    let mut most = 0;
    for client in 0..program.clients() as u8 {
        most = max(most, program.variables(client).len());
    }
    most
}

// Whether a client's numbers from a place on are all 0.
fn is_zero_from(values: &Locals, place: usize) -> bool
    requires { place ≤ most_variables }
    ensures rest { result ≡ true → drop place values.now ≡ drop place zeros }
{
    let none = [0; MOST_VARIABLES];
    values[place..] == none[place..]
}

// Where a client's numbers begin.
fn place_of(client: usize, width: usize) -> usize
    requires client { client < most_clients }
    requires width { width ≤ most_variables }
    ensures place { result ≡ client * width }
{
    client * width
}

// So many numbers from a place on, and zeros behind them.
fn widened(numbers: &[i64], first: usize, width: usize) -> Locals
    requires width { width ≤ most_variables }
    requires within { first + width ≤ length numbers.now }
    ensures widened { result ≡ widened width (drop first numbers.now) }
{
    let own = &numbers[first..first + width];
    let mut values = [0; MOST_VARIABLES];
    values[..width].copy_from_slice(own);
    values
}

impl Variables {
    /// No client's, which takes no memory.
    pub fn empty(alloc: Global) -> Variables
        ensures none { result ≡ [] }
    {
        Variables {
            clients: 0,
            width: 0,
            numbers: Vec::new(alloc),
        }
    }

    /// All are 0. An error says that memory was refused.
    pub fn zeros(alloc: Global, program: &Program) -> Result<Variables, AllocError>
        ensures zeros { IfOk result (λ all. all ≡ replicate (length program.now.clients) zeros) }
    {
        program.keeps_sound();
        let clients = program.clients();
        let width = most_named(program);
        Ok(Variables {
            clients,
            width,
            numbers: vec![in alloc; 0; clients * width]?,
        })
    }

    /// One client's.
    pub fn at(&self, client: usize) -> Locals
        requires { client < length self.now }
        ensures at { result ≡ slice_index_or self.now client zeros }
    {
        let first = place_of(client, self.width);
        widened(self.numbers.as_slice(), first, self.width)
    }

    /// Puts the same but for one client's in the place of those that are there. An error says that memory was refused.
    pub fn put_changed(
        &self,
        client: usize,
        values: &Locals,
        changed: &mut Variables,
    ) -> Result<(), AllocError>
        requires { client < length self.now }
        ensures set { OnOk result (changed.new ≡ slice_set self.now client values.now) }
    {
        let clients = self.clients;
        changed.clients = 0;
        let width = self.put_with_room(values, &mut changed.numbers)?;
        put_numbers(
            changed.numbers.as_mut_slice(),
            place_of(client, width),
            &values[..width],
        );
        changed.width = width;
        changed.clients = clients;
        Ok(())
    }

    /// How many of each client are kept, of how many clients, and the numbers.
    pub(crate) fn parts(&self) -> (usize, usize, &[i64])
        ensures spread { IsSpread result.0 result.1 result.2.now }
        ensures same { spread result.0 result.1 result.2.now ≡ self.now }
    {
        (self.width, self.clients, self.numbers.as_slice())
    }

    /// Puts numbers, so many of each of so many clients, in the place of those that are there. An error says that memory
    /// was refused.
    pub(crate) fn put(
        &mut self,
        width: usize,
        clients: usize,
        numbers: &[i64],
    ) -> Result<(), AllocError>
        requires spread { IsSpread width clients numbers.now }
        ensures put { OnOk result (self.new ≡ spread width clients numbers.now) }
    {
        self.clients = 0;
        self.numbers.clear();
        self.numbers.extend_from_slice(numbers)?;
        self.width = width;
        self.clients = clients;
        Ok(())
    }

    /// Puts two clients' in each other's places.
    pub fn exchange(&mut self, one: usize, other: usize)
        requires { (one < length self.old) × (other < length self.old) }
        ensures exchanged { self.new ≡ swap self.old one other }
    {
        let first = self.at(one);
        let second = self.at(other);
        let width = self.width;
        let numbers = self.numbers.as_mut_slice();
        put_numbers(numbers, place_of(one, width), &second[..width]);
        put_numbers(numbers, place_of(other, width), &first[..width]);
    }

    // Puts the numbers of all clients in the place of those that are there, so many of each that a client's values have
    // room, and says how many.
    fn put_with_room(&self, values: &Locals, numbers: &mut Vec<i64>) -> Result<usize, AllocError>
        ensures few { IfOk result (λ width. width ≤ most_variables) }
        ensures room { IfOk result (λ width. drop width values.now ≡ drop width zeros) }
        ensures long { IfOk result (λ width. length self.now * width ≤ length numbers.new.items) }
        ensures same { IfOk result (λ width. spread width (length self.now) numbers.new.items ≡ self.now) }
    {
        if is_zero_from(values, self.width) {
            numbers.clear();
            numbers.extend_from_slice(self.numbers.as_slice())?;
            return Ok(self.width);
        }
        self.put_wide(numbers)?;
        Ok(MOST_VARIABLES)
    }

    // Puts all numbers of all clients in the place of those that are there. Only where a client has a number behind the
    // width this is needed.
    fn put_wide(&self, numbers: &mut Vec<i64>) -> Result<(), AllocError>
        ensures long { OnOk result (length numbers.new.items ≡ length self.now * most_variables) }
        ensures same { OnOk result (spread most_variables (length self.now) numbers.new.items ≡ self.now) }
    {
        numbers.clear();
        for client in 0..self.clients {
            numbers.extend_from_slice(&self.at(client))?;
        }
        Ok(())
    }
}
