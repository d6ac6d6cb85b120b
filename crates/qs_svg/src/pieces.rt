// Pieces of a picture, put at the end of bytes.

ghost use Rattle.std.specs.Prelude.{◌≡◌, ◌++◌, OnOk, [], codes, if◌then◌else◌, nat_eq};
ghost use Rattle.qs_text.specs.Texts.{Puts};
ghost use Rattle.qs_svg.specs.audit.Words.{counted};
ghost use Rattle.qs_svg.specs.audit.Shapes.{fitted_text, path_start, squeezed, text_at, text_start, with_number};

use qs_text::{put_count, put_word};
use std::alloc::AllocError;

// The beginning of a path, at a point.
pub(crate) fn put_path(
    out: &mut Vec<u8>,
    word: &[u8],
    client: u8,
    x: u32,
    y: u32,
) -> Result<(), AllocError>
    ensures ok { OnOk result (Puts (path_start word.now client x y) out.old.items out.new.items) }
{
    put_word(out, b"<path class='")?;
    put_word(out, word)?;
    put_count(out, b" c", u64::from(client))?;
    put_count(out, b"' d='M", u64::from(x))?;
    put_count(out, b",", u64::from(y))
}

// The beginning of a text, at a point.
pub(crate) fn put_text(out: &mut Vec<u8>, x: u32, y: u32) -> Result<(), AllocError>
    ensures ok { OnOk result (Puts (text_start x y) out.old.items out.new.items) }
{
    put_count(out, b"<text x='", u64::from(x))?;
    put_count(out, b"' y='", u64::from(y))?;
    put_word(out, b"'>")
}

// A text of one word, as one shape.
pub(crate) fn put_name(out: &mut Vec<u8>, x: u32, y: u32, name: &[u8]) -> Result<(), AllocError>
    ensures ok { OnOk result (Puts (text_at x y name.now) out.old.items out.new.items) }
{
    put_text(out, x, y)?;
    put_word(out, name)?;
    put_word(out, b"</text>\n")
}

// A text of a count between two words, as one shape.
pub(crate) fn put_counted(
    out: &mut Vec<u8>,
    x: u32,
    y: u32,
    word: &[u8],
    count: usize,
    other: &[u8],
) -> Result<(), AllocError>
    ensures ok { OnOk result (Puts (text_at x y (with_number word.now count ++ other.now)) out.old.items out.new.items) }
{
    put_text(out, x, y)?;
    put_count(out, word, count as u64)?;
    put_word(out, other)?;
    put_word(out, b"</text>\n")
}

// What follows the word for so many things.
fn plural(count: usize) -> &'static [u8]
    ensures plural { result.now ≡ (if nat_eq count 1 then [] else codes "s") }
{
    if count == 1 { b"" } else { b"s" }
}

// So many things.
pub(crate) fn put_counted_word(
    out: &mut Vec<u8>,
    count: usize,
    word: &[u8],
) -> Result<(), AllocError>
    ensures ok { OnOk result (Puts (counted count word.now) out.old.items out.new.items) }
{
    put_count(out, b"", count as u64)?;
    put_word(out, word)?;
    put_word(out, plural(count))
}

// A text of so many things, as one shape.
pub(crate) fn put_things(
    out: &mut Vec<u8>,
    x: u32,
    y: u32,
    count: usize,
    word: &[u8],
) -> Result<(), AllocError>
    ensures ok { OnOk result (Puts (text_at x y (counted count word.now)) out.old.items out.new.items) }
{
    put_text(out, x, y)?;
    put_counted_word(out, count, word)?;
    put_word(out, b"</text>\n")
}

// What makes a text smaller that would be wider than its place.
fn put_squeezed(out: &mut Vec<u8>, width: u32, characters: usize) -> Result<(), AllocError>
    ensures ok { OnOk result (Puts (squeezed width characters) out.old.items out.new.items) }
{
    let room = (width / 7) as usize;
    if room < characters {
        let size = u64::from(width) * 8 / 5 / characters as u64;
        put_count(out, b"' style='font-size:", size)?;
        put_word(out, b"px")
    } else {
        Ok(())
    }
}

// A text that is smaller where it would be wider than its place, as one shape.
pub(crate) fn put_fitted(
    out: &mut Vec<u8>,
    x: u32,
    y: u32,
    width: u32,
    words: &[u8],
) -> Result<(), AllocError>
    ensures ok { OnOk result (Puts (fitted_text x y width words.now) out.old.items out.new.items) }
{
    put_count(out, b"<text x='", u64::from(x))?;
    put_count(out, b"' y='", u64::from(y))?;
    put_squeezed(out, width, words.len())?;
    put_word(out, b"'>")?;
    put_word(out, words)?;
    put_word(out, b"</text>\n")
}
