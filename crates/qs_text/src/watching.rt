// Writing with an eye on failures.

ghost use Rattle.std.specs.Prelude.{◌≡◌, ◌<◌, ◌≤◌, IfSome, IsTrue, MatchOption, false, true, flat_map, is_none, length, not, take, ◌||◌};
ghost use Rattle.std.specs.Io.KnownBytes.{Appends, Keeps};
ghost use Rattle.qs_text.specs.Texts.{AppendsFront};

use std::io::{Error, ErrorKind, Write};
use std::marker::{Model, PhantomData};

/// What became of the calls of a `W`: whether a write or a flush has failed, and whether the last call was a flush that
/// was done. The calls below alone change it, so it shows what calls of a writer really gave.
#[derive(Drop)]
pub struct Watch<W> {
    has_failed: bool,
    is_flushed: bool,
    is_closed: bool,
    writer: PhantomData<W>,
}

impl<W> Model for Watch<W> {
    ghost use Rattle.qs_text.specs.Watched.{Watched};

    ghost Value = { Watched };

    ghost view = { λ w. record { has_failed = w.has_failed; is_flushed = w.is_flushed } };
}

impl<W> Watch<W> {
    /// No call was made yet.
    pub fn new() -> Watch<W>
        ensures fine { result.has_failed ≡ false }
        ensures unflushed { result.is_flushed ≡ false }
    {
        Watch {
            has_failed: false,
            is_flushed: false,
            is_closed: false,
            writer: PhantomData,
        }
    }
}

impl<W> Watch<W> {
    /// Whether the last call that failed did since the reader had closed its end of a pipe.
    pub fn is_closed(&self) -> bool {
        self.is_closed
    }

    // A call has failed.
    fn fail(&mut self, error: Option<Error>)
        ensures failed { self.new.has_failed ≡ true }
        ensures same { self.new.is_flushed ≡ self.old.is_flushed }
    {
        self.has_failed = true;
        self.is_closed = match error {
            Some(error) => error.kind() == ErrorKind::BrokenPipe,
            None => false,
        };
    }
}

impl<W: Write> Watch<W> {
    // One write. None at an error, and where no byte was taken.
    fn write(&mut self, out: &mut W, bytes: &[u8]) -> Option<usize>
        requires some { 0 < length bytes.now }
        ensures bytes { MatchOption result (Keeps (W.contents out.old) (W.contents out.new))
            (λ n. Appends (W.contents out.old) (W.contents out.new) (take n bytes.now)) }
        ensures count { IfSome result (λ n. (0 < n) × (n ≤ length bytes.now)) }
        ensures failed { self.new.has_failed ≡ (self.old.has_failed || is_none result) }
        ensures unflushed { self.new.is_flushed ≡ false }
    {
        self.is_flushed = false;
        match out.write(bytes) {
            Ok(n) if n > 0 => Some(n),
            other => {
                self.fail(other.err());
                None
            }
        }
    }

    /// Asks for one flush; false exactly where it is refused. No byte is written.
    pub fn flush(&mut self, out: &mut W) -> bool
        ensures bytes { Keeps (W.contents out.old) (W.contents out.new) }
        ensures failed { self.new.has_failed ≡ (self.old.has_failed || not result) }
        ensures flushed { self.new.is_flushed ≡ result }
    {
        match out.flush() {
            Ok(()) => {
                self.is_flushed = true;
                true
            }
            Err(error) => {
                self.is_flushed = false;
                self.fail(Some(error));
                false
            }
        }
    }
}

/// Writes all of a text. False exactly where a write fails, which is an error or a write that takes no byte; no more is
/// written then, and what was written is a front of the text. Takes no memory.
pub fn write_text<W: Write>(out: &mut W, watch: &mut Watch<W>, text: &[u8]) -> bool
    ensures front { AppendsFront (W.contents out.old) (W.contents out.new) text.now }
    ensures whole { IsTrue result → Appends (W.contents out.old) (W.contents out.new) text.now }
    ensures failed { watch.new.has_failed ≡ (watch.old.has_failed || not result) }
{
    let mut rest = text;
    while !rest.is_empty() {
        match watch.write(out, rest) {
            Some(n) => rest = &rest[n..],
            None => return false,
        }
    }
    true
}

/// Writes texts one after another. False exactly where a write fails; no more is written then, and what was written is
/// a front of them. Takes no memory.
pub fn write_texts<W: Write>(out: &mut W, watch: &mut Watch<W>, texts: &[&[u8]]) -> bool
    ensures front { AppendsFront (W.contents out.old) (W.contents out.new) (flat_map (λ text. text.now) texts.now) }
    ensures whole { IsTrue result → Appends (W.contents out.old) (W.contents out.new) (flat_map (λ text. text.now) texts.now) }
    ensures failed { watch.new.has_failed ≡ (watch.old.has_failed || not result) }
{
    for text in texts {
        if !write_text(out, watch, text) {
            return false;
        }
    }
    true
}
