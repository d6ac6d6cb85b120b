// What is said of a pick of nobody.

use crate::line_causes::line::{Which, put_part};
use crate::line_causes::lists::put_who_is_there;
use crate::line_causes::program::program_of;
use qs_line::{Who, part_of, value_after};
use qs_played::Actor;
use std::alloc::{AllocError, Global};

// Whether a part of a list of picks is a name, or the number of a client or a handler that is there.
fn is_there(part: &[u8], clients: usize, objects: usize) -> bool {
    let Some(part) = part_of(part) else {
        return false;
    };
    match part.who {
        Who::Number(Actor::Client(number)) => usize::from(number) < clients,
        Who::Number(Actor::Handler(number)) => usize::from(number) < objects,
        Who::Name(_) => true,
    }
}

/// Puts which part of the list of picks names nobody, and who is there.
pub fn put_pick<'a>(
    alloc: Global,
    out: &mut Vec<u8>,
    words: &'a [&'a str],
    text: &[u8],
) -> Result<(), AllocError> {
    let (Some(picks), Some(program)) = (value_after(words, "--pick"), program_of(alloc, text))
    else {
        return Ok(());
    };
    let mut place = 1u64;
    for part in picks.split(',') {
        let part = part.as_bytes();
        if !is_there(part, program.clients(), program.objects()) {
            put_part(out, Which::only("--pick"), place, part, b"names nobody\n")?;
            return put_who_is_there(out, &program, true);
        }
        place = place.saturating_add(1);
    }
    Ok(())
}
