// Texts put at the end of bytes.

ghost use Rattle.std.specs.Prelude.{◌≡◌, ◌++◌, OnOk, IfOk, flat_map, ◌<◌, length};
ghost use Rattle.std.specs.Prelude.{replicate};
ghost use Rattle.qs_diagnosis.specs.Excerpts.{shown, below, hex, is_plain};

use std::alloc::{AllocError, Global};

/// Puts a text at the end. An error says that an allocation failed.
pub fn put(out: &mut Vec<u8>, text: &[u8]) -> Result<(), AllocError>
    ensures ok { OnOk result (out.new.items ≡ out.old.items ++ text.now) }
{
    out.extend_from_slice(text)
}

/// Puts texts at the end, one after another. An error says that an allocation failed.
pub fn put_all(out: &mut Vec<u8>, texts: &[&[u8]]) -> Result<(), AllocError>
    ensures ok { OnOk result (out.new.items ≡ out.old.items ++ flat_map (λ text. text.now) texts.now) }
{
    for text in texts {
        put(out, text)?;
    }
    Ok(())
}

// A hexadecimal digit.
fn hex_digit(value: u8) -> u8
    requires { value < 16 }
    ensures digit { result ≡ hex value }
{
    if value < 10 {
        b'0' + value
    } else {
        b'a' + (value - 10)
    }
}

// Whether a byte is shown as it is: a printable one, a tab, or in a text a byte of a longer character.
fn is_plain_byte(is_text: bool, byte: u8) -> bool
    ensures plain { result ≡ is_plain is_text byte }
{
    byte == b'\t' || (byte >= b' ' && byte <= b'~') || (is_text && byte >= 128)
}

// Puts a byte at the end as it is shown.
fn put_byte(out: &mut Vec<u8>, is_text: bool, byte: u8) -> Result<(), AllocError>
    ensures ok { OnOk result (out.new.items ≡ out.old.items ++ shown is_text byte) }
{
    if byte == b'\r' {
        return Ok(());
    }
    if is_plain_byte(is_text, byte) {
        return put(out, &[byte]);
    }
    put(
        out,
        &[b'\\', b'x', hex_digit(byte / 16), hex_digit(byte % 16)],
    )
}

// Puts at the end what stands below a byte: a mark for each column that it takes, and a tab below a tab.
fn put_mark(out: &mut Vec<u8>, is_text: bool, mark: u8, byte: u8) -> Result<(), AllocError>
    ensures ok { OnOk result (out.new.items ≡ out.old.items ++ below is_text mark byte) }
{
    if byte == b'\r' || (is_text && byte >= 128 && byte < 192) {
        return Ok(());
    }
    if byte == b'\t' {
        return put(out, b"\t");
    }
    if is_plain_byte(is_text, byte) {
        return put(out, &[mark]);
    }
    put(out, &[mark, mark, mark, mark])
}

/// Bytes as they are shown: printable ones and tabs as they are, a CR not at all, and any other as `\x` and two digits;
/// in a text, the bytes of longer characters too as they are.
pub(crate) fn shown_bytes(alloc: Global, is_text: bool, bytes: &[u8]) -> Result<Vec<u8>, AllocError>
    ensures shown { IfOk result (λ v. v.items ≡ flat_map (shown is_text) bytes.now) }
{
    let mut out = Vec::new(alloc);
    for byte in bytes {
        put_byte(&mut out, is_text, *byte)?;
    }
    Ok(out)
}

/// What stands below bytes that are shown: a mark for each column.
pub(crate) fn marks(
    alloc: Global,
    is_text: bool,
    mark: u8,
    bytes: &[u8],
) -> Result<Vec<u8>, AllocError>
    ensures marks { IfOk result (λ v. v.items ≡ flat_map (below is_text mark) bytes.now) }
{
    let mut out = Vec::new(alloc);
    for byte in bytes {
        put_mark(&mut out, is_text, mark, *byte)?;
    }
    Ok(out)
}

/// As many blanks as a text has bytes.
pub(crate) fn blanks(alloc: Global, text: &[u8]) -> Result<Vec<u8>, AllocError>
    ensures blanks { IfOk result (λ v. v.items ≡ replicate (length text.now) 32) }
{
    vec![in alloc; b' '; text.len()]
}
