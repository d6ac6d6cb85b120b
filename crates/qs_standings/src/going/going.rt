//! Who goes on at a configuration. A set of clients is a byte, client c in bit c.

ghost use Rattle.std.specs.Prelude.{◌≡◌, ◌<◌, ℕ, IfOk, if◌then◌else◌, length, slice_index_or};
ghost use Rattle.std.specs.List.{AllByRecursion, list_any};
ghost use Rattle.qs_program.specs.audit.Limits.{most_objects};
ghost use Rattle.qs_program.specs.audit.Sound.{is_in};
ghost use Rattle.qs_meaning.specs.Reduced.{goes_on, group_of, size_of_set, smaller, still_reserves, wider};
ghost use Rattle.qs_standings.specs.going.Going.{AreComers, AreLast, IsGrown, IsLast, begun_counts, in_byte};

use qs_program::{MOST_CLIENTS, MOST_OBJECTS, Program};
use std::alloc::{AllocError, Global};

/// For each object how many blocks a client has up to the last one that reserves it.
pub type Last = [u8; MOST_OBJECTS];

// Notes the number of a block at each object that it reserves.
fn mark(last: &mut Last, reserved: &[u8], number: u8)
    requires within { AllByRecursion (λ h. h < most_objects) reserved.now }
    ensures marked { (h : ℕ) → h < most_objects
        → slice_index_or last.new h 0 ≡ if is_in reserved.now h then number else slice_index_or last.old h 0 }
{
    for object in reserved {
        last[usize::from(*object)] = number;
    }
}

// The last blocks of one client.
fn last_of(program: &Program, client: u8) -> Last
    requires client { client < length program.now.clients }
    ensures last { IsLast program.now client result }
{
    program.keeps_sound();
    let mut last = [0; MOST_OBJECTS];
    for index in 0..program.blocks_of(client) as u8 {
        mark(
            &mut last,
            program.block(client, index).reserved(),
            index + 1,
        );
    }
    last
}

/// The last blocks of all clients. An error says that memory was refused.
pub fn last_blocks(alloc: Global, program: &Program) -> Result<Vec<Last>, AllocError>
    ensures last { IfOk result (λ rows. AreLast program.now rows.items) }
{
    program.keeps_sound();
    let mut rows = Vec::with_capacity(alloc, program.clients())?;
    for client in 0..program.clients() as u8 {
        rows.push(last_of(program, client))?;
    }
    Ok(rows)
}

// Who has a block left that reserves an object.
fn holders(program: &Program, last: &[Last], begun: &[u8], object: usize) -> u8
    requires last { AreLast program.now last.now }
    requires begun { length begun.now ≡ length program.now.clients }
    requires object { object < most_objects }
    ensures holders { in_byte result ≡ (λ c. still_reserves program.now (begun_counts begun.now) c object) }
{
    program.keeps_sound();
    let mut set = 0;
    for client in 0..program.clients() as u8 {
        let place = usize::from(client);
        if begun[place] < last[place][object] {
            set |= 1 << client;
        }
    }
    set
}

// For each object, which clients still have a block that reserves it.
fn all_holders(program: &Program, last: &[Last], begun: &[u8]) -> [u8; MOST_OBJECTS]
    requires last { AreLast program.now last.now }
    requires begun { length begun.now ≡ length program.now.clients }
    ensures holders { (h : ℕ) → h < length program.now.objects
        → in_byte (slice_index_or result h 0) ≡ (λ c. still_reserves program.now (begun_counts begun.now) c h) }
{
    program.keeps_sound();
    let mut all = [0; MOST_OBJECTS];
    for object in 0..program.objects() {
        all[object] = holders(program, last, begun, object);
    }
    all
}

// Who has a block left that reserves one of these objects.
fn comers(program: &Program, begun: &[u8], holders: &[u8; MOST_OBJECTS], reserved: &[u8]) -> u8
    requires holders { (h : ℕ) → h < length program.now.objects
        → in_byte (slice_index_or holders.now h 0) ≡ (λ c. still_reserves program.now (begun_counts begun.now) c h) }
    requires within { AllByRecursion (λ h. h < length program.now.objects) reserved.now }
    ensures comers { in_byte result ≡ (λ d. list_any (still_reserves program.now (begun_counts begun.now) d) reserved.now) }
{
    program.keeps_sound();
    let mut set = 0;
    for object in reserved {
        set |= holders[usize::from(*object)];
    }
    set
}

// For each client who comes in the way of its next block.
fn all_comers(program: &Program, last: &[Last], begun: &[u8]) -> [u8; MOST_CLIENTS]
    requires last { AreLast program.now last.now }
    requires begun { length begun.now ≡ length program.now.clients }
    ensures comers { AreComers program.now begun.now result }
{
    program.keeps_sound();
    let holders = all_holders(program, last, begun);
    let mut rows = [0; MOST_CLIENTS];
    for client in 0..program.clients() as u8 {
        let place = usize::from(client);
        if usize::from(begun[place]) < program.blocks_of(client) {
            rows[place] = comers(
                program,
                begun,
                &holders,
                program.block(client, begun[place]).reserved(),
            );
        }
    }
    rows
}

// A set and all who come in the way of its members.
fn wider(program: &Program, begun: &[u8], rows: &[u8; MOST_CLIENTS], set: u8) -> u8
    requires rows { AreComers program.now begun.now rows.now }
    ensures wider { in_byte result ≡ wider program.now (begun_counts begun.now) (in_byte set) }
{
    program.keeps_sound();
    let mut all = set;
    for client in 0..program.clients() as u8 {
        if (set >> client) & 1 == 1 {
            all |= rows[usize::from(client)];
        }
    }
    all
}

// The set that is grown from one client.
fn group(program: &Program, begun: &[u8], rows: &[u8; MOST_CLIENTS], client: u8) -> u8
    requires rows { AreComers program.now begun.now rows.now }
    requires client { client < length program.now.clients }
    ensures group { in_byte result ≡ group_of program.now (begun_counts begun.now) client }
{
    program.keeps_sound();
    let mut set = 1 << client;
    for _round in 0..program.clients() {
        let all = wider(program, begun, rows, set);
        if all == set {
            return set;
        }
        set = all;
    }
    set
}

/// How many clients a set has.
pub fn size(program: &Program, set: u8) -> u8
    ensures size { result ≡ size_of_set program.now (in_byte set) }
{
    program.keeps_sound();
    let mut count = 0;
    for client in 0..program.clients() as u8 {
        if (set >> client) & 1 == 1 {
            count += 1;
        }
    }
    count
}

// One set, or another where that is smaller or the one is empty.
fn smaller(program: &Program, one: u8, other: u8) -> u8
    ensures smaller { in_byte result ≡ smaller program.now (in_byte one) (in_byte other) }
{
    if one == other {
        return one;
    }
    let count = size(program, one);
    if count == 0 || size(program, other) < count {
        other
    } else {
        one
    }
}

// The set that was grown last, and what it was after its first round.
#[derive(Clone, Copy)]
struct Growth {
    first: u8,
    set: u8,
}

// The set that is grown from one client, where it isn't the one that was grown last.
fn grown_from(
    program: &Program,
    begun: &[u8],
    rows: &[u8; MOST_CLIENTS],
    client: u8,
    last: Growth,
) -> Growth
    requires rows { AreComers program.now begun.now rows.now }
    requires client { client < length program.now.clients }
    requires last { IsGrown program.now begun.now last.first last.set }
    ensures grown { IsGrown program.now begun.now result.first result.set }
    ensures set { in_byte result.set ≡ group_of program.now (begun_counts begun.now) client }
{
    program.keeps_sound();
    let first = (1 << client) | rows[usize::from(client)];
    if first == last.first {
        return last;
    }
    Growth {
        first,
        set: group(program, begun, rows, client),
    }
}

/// Who goes on where so many blocks were begun, client c in bit c. It takes no memory.
pub fn goes_on(program: &Program, last: &[Last], begun: &[u8]) -> u8
    requires last { AreLast program.now last.now }
    requires begun { length begun.now ≡ length program.now.clients }
    ensures goes { in_byte result ≡ goes_on program.now (begun_counts begun.now) }
{
    program.keeps_sound();
    let rows = all_comers(program, last, begun);
    let mut best = 0;
    let mut latest = Growth { first: 0, set: 0 };
    for client in 0..program.clients() as u8 {
        if usize::from(begun[usize::from(client)]) < program.blocks_of(client) {
            latest = grown_from(program, begun, &rows, client, latest);
            best = smaller(program, best, latest.set);
        }
    }
    best
}

/// The set that is grown from each client, where so many blocks were begun. It takes no memory.
pub fn groups(program: &Program, last: &[Last], begun: &[u8]) -> [u8; MOST_CLIENTS]
    requires last { AreLast program.now last.now }
    requires begun { length begun.now ≡ length program.now.clients }
    ensures groups { (c : ℕ) → c < length program.now.clients
        → in_byte (slice_index_or result c 0) ≡ group_of program.now (begun_counts begun.now) c }
{
    program.keeps_sound();
    let rows = all_comers(program, last, begun);
    let mut sets = [0; MOST_CLIENTS];
    for client in 0..program.clients() as u8 {
        sets[usize::from(client)] = group(program, begun, &rows, client);
    }
    sets
}
