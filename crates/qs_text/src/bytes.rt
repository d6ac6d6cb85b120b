// Texts and numbers, put at the end of bytes.

ghost use Rattle.std.specs.Prelude.{◌≡◌, ◌+◌, ◌++◌, OnOk, decimal};
ghost use Rattle.std.specs.Fmt.{signed_decimal};
ghost use Rattle.qs_text.specs.audit.Texts.{count_line};
ghost use Rattle.qs_text.specs.Texts.{Puts};

use itoa::Buffer;
use qs_diagnosis::{put, put_all};
use std::alloc::AllocError;

/// Puts a number at the end, with a sign where it is negative. An error says that an allocation failed.
pub fn put_number(out: &mut Vec<u8>, number: i64) -> Result<(), AllocError>
    ensures ok { OnOk result (out.new.items ≡ out.old.items ++ signed_decimal number) }
{
    if 0 <= number && number < 10 && out.len() < out.capacity() {
        out.push_reserved(b'0' + number as u8);
        Ok(())
    } else {
        put_digits(out, number)
    }
}

/// Puts a number at the end, mostly one of several digits. An error says that an allocation failed.
pub fn put_digits(out: &mut Vec<u8>, number: i64) -> Result<(), AllocError>
    ensures ok { OnOk result (out.new.items ≡ out.old.items ++ signed_decimal number) }
{
    let mut buffer = Buffer::new();
    put(out, buffer.format(number).as_bytes())
}

/// Puts a text at the end, mostly one of a few bytes, for which a call that copies takes longer than to push them. An
/// error says that an allocation failed.
#[inline(always)]
pub fn put_short(out: &mut Vec<u8>, text: &[u8]) -> Result<(), AllocError>
    ensures ok { OnOk result (out.new.items ≡ out.old.items ++ text.now) }
{
    match text {
        [only] => out.push(*only)?,
        [first, second] => {
            out.push(*first)?;
            out.push(*second)?;
        }
        _ => put(out, text)?,
    }
    Ok(())
}

/// Puts a line at the end: a word, a space and a count. An error says that an allocation failed.
pub fn put_count_line(out: &mut Vec<u8>, word: &[u8], count: u64) -> Result<(), AllocError>
    ensures ok { OnOk result (out.new.items ≡ out.old.items ++ count_line word.now count) }
{
    let mut buffer = Buffer::new();
    put_all(out, &[word, b" ", buffer.format(count).as_bytes(), b"\n"])
}

/// Puts a word at the end. An error says that an allocation failed.
pub fn put_word(out: &mut Vec<u8>, word: &[u8]) -> Result<(), AllocError>
    ensures ok { OnOk result (Puts word.now out.old.items out.new.items) }
{
    put(out, word)
}

/// Puts a word and a count at the end. An error says that an allocation failed.
pub fn put_count(out: &mut Vec<u8>, word: &[u8], count: u64) -> Result<(), AllocError>
    ensures ok { OnOk result (Puts (word.now ++ decimal count) out.old.items out.new.items) }
{
    let mut buffer = Buffer::new();
    put_all(out, &[word, buffer.format(count).as_bytes()])
}
