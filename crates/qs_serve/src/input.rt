// The input, by counted reads.

ghost use Rattle.std.specs.Prelude.{◌≡◌, ◌++◌, ◌+◌, ◌-◌, ◌^◌, min, ◌<◌, ◌≤◌, ◌||◌, false, length, take, drop, is_none, vec_len, IfOk, IfSome};
ghost use Rattle.std.specs.Io.KnownBytes.{Consumes, IsAtEnd};
ghost use Rattle.qs_serve.specs.Input.{IsReadOn, is_read_fault};

use std::alloc::{AllocError, Global};
use std::io::{self, Read};
use std::marker::Model;

/// A reader that is reached by its counted reads alone. Contracts see the bytes that are left, how many reads were
/// made, and whether one has failed.
#[derive(Drop)]
pub struct Counted<R: Read> {
    inner: R,
    reads: u64,
    has_failed: bool,
    why: Option<io::Error>,
}

impl<R: Read> Model for Counted<R> {
    ghost use Rattle.qs_serve.specs.Reading.{Reading};

    ghost Value = { Reading };

    ghost view = { λ c. record { remaining = R.remaining c.inner; reads = c.reads; has_failed = c.has_failed } };
}

impl<R: Read> Counted<R> {
    /// No read was made.
    pub fn new(inner: R) -> Counted<R>
        ensures remaining { result.remaining ≡ R.remaining inner }
        ensures reads { result.reads ≡ 0 }
        ensures fine { result.has_failed ≡ false }
    {
        Counted {
            inner,
            reads: 0,
            has_failed: false,
            why: None,
        }
    }

    /// Why the last read that failed did, in the system's words; None where none has failed.
    pub fn why(&self) -> Option<&io::Error> {
        self.why.as_ref()
    }

    // One read, into `buf` after `at`: how many bytes it gave, 0 only at the end. None where it fails.
    fn read(&mut self, buf: &mut [u8], at: usize) -> Option<usize>
        requires room { at < length buf.old }
        ensures front { take at buf.new ≡ take at buf.old }
        ensures fits { IfSome result (λ n. at + n ≤ length buf.new) }
        ensures bytes { IfSome result (λ n. Consumes self.old.remaining self.new.remaining (take n (drop at buf.new))) }
        ensures end { IfSome result (λ n. n ≡ 0 → IsAtEnd self.new.remaining) }
        ensures reads { self.new.reads ≡ min (self.old.reads + 1) (2 ^ 64 - 1) }
        ensures failed { self.new.has_failed ≡ (self.old.has_failed || is_none result) }
    {
        self.reads = self.reads.saturating_add(1);
        match self.inner.read(&mut buf[at..]) {
            Ok(n) => Some(n),
            Err(error) => {
                self.has_failed = true;
                self.why = Some(error);
                None
            }
        }
    }
}

/// Why the input is not there.
#[derive(Clone, Copy, Debug, PartialEq, Eq)]
pub enum InputFault {
    /// A read failed.
    Read,
    /// An allocation failed.
    Memory,
}

// Reads up to the end, or until `buf` is full, by at most as many reads as `buf` has places. None where a read fails.
fn fill<R: Read>(input: &mut Counted<R>, buf: &mut [u8]) -> Option<usize>
    ensures same { length buf.new ≡ length buf.old }
    ensures within { IfSome result (λ n. n ≤ length buf.old) }
    ensures bytes { IfSome result (λ n. Consumes input.old.remaining input.new.remaining (take n buf.new)) }
    ensures end { IfSome result (λ n. n < length buf.old → IsAtEnd input.new.remaining) }
    ensures reads { input.new.reads ≤ input.old.reads + length buf.old }
    ensures failed { input.new.has_failed ≡ (input.old.has_failed || is_none result) }
{
    let mut filled = 0;
    for _turn in 0..buf.len() {
        if filled == buf.len() {
            return Some(filled);
        }
        match input.read(buf, filled) {
            Some(0) => return Some(filled),
            Some(n) => filled += n,
            None => return None,
        }
    }
    Some(filled)
}

fn zeros(alloc: Global, count: usize) -> Result<Vec<u8>, AllocError>
    ensures count { IfOk result (λ bytes. vec_len bytes ≡ count) }
{
    vec![in alloc; 0u8; count]
}

// What is asked for at first: most scripts are shorter, and end there.
const FRONT: usize = 4096;

// Bytes, and others after them. It fails only where memory runs out.
fn joined(mut bytes: Vec<u8>, rest: &[u8]) -> Result<Vec<u8>, InputFault>
    ensures both { IfOk result (λ v. v.items ≡ bytes.items ++ rest.now) }
    ensures memory { is_read_fault result ≡ false }
{
    match bytes.extend_from_slice(rest) {
        Ok(()) => Ok(bytes),
        Err(_) => Err(InputFault::Memory),
    }
}

// The input up to its end or so many bytes, of which some were read before.
fn gather_more<R: Read>(
    alloc: Global,
    input: &mut Counted<R>,
    bytes: Vec<u8>,
    longest: usize,
) -> Result<Vec<u8>, InputFault>
    requires front { length bytes.items ≤ longest }
    ensures more { IfOk result (IsReadOn input.old.remaining input.new.remaining longest bytes.items) }
    ensures fits { IfOk result (λ v. length v.items ≤ longest) }
    ensures reads { input.new.reads + length bytes.items ≤ input.old.reads + longest }
    ensures failed { input.new.has_failed ≡ (input.old.has_failed || is_read_fault result) }
{
    let Ok(mut rest) = zeros(alloc, longest - bytes.len()) else {
        return Err(InputFault::Memory);
    };
    match fill(input, rest.as_mut_slice()) {
        Some(n) => joined(bytes, &rest.as_slice()[..n]),
        None => Err(InputFault::Read),
    }
}

/// The input up to its end or its first `longest` bytes, by at most `longest` reads. `Read` comes exactly where a read
/// fails, and no read comes after it; `Memory` where an allocation failed.
pub fn gather<R: Read>(
    alloc: Global,
    input: &mut Counted<R>,
    longest: usize,
) -> Result<Vec<u8>, InputFault>
    ensures bytes { IfOk result (λ v. IfSome input.old.remaining (λ bytes. v.items ≡ take longest bytes)) }
    ensures fits { IfOk result (λ v. vec_len v ≤ longest) }
    ensures reads { input.new.reads ≤ input.old.reads + longest }
    ensures failed { input.new.has_failed ≡ (input.old.has_failed || is_read_fault result) }
{
    let Ok(mut bytes) = zeros(alloc, longest.min(FRONT)) else {
        return Err(InputFault::Memory);
    };
    match fill(input, bytes.as_mut_slice()) {
        Some(n) if n == bytes.len() => gather_more(alloc, input, bytes, longest),
        Some(n) => {
            bytes.truncate(n);
            Ok(bytes)
        }
        None => Err(InputFault::Read),
    }
}
