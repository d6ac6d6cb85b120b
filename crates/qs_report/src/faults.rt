// Faults, their lines and their statuses.

ghost use Rattle.std.specs.Prelude.{◌≡◌, ◌||◌, IsTrue, not};
ghost use Rattle.std.specs.Io.KnownBytes.{Appends};
ghost use Rattle.qs_text.specs.Texts.{AppendsFront};
ghost use Rattle.qs_report.specs.Faults.{fault_place, fault_status, fault_text, fault_words, read_words, read_place, check_words, play_words, order_words, run_words, outcomes_words};

use itoa::Buffer;
use qs_check::fault_places::CheckFault;
use qs_outcomes::OutcomesFault;
use qs_played::{PlayFault, RunFault};
use qs_script::ReadFault;
use qs_serial::OrderFault;
use qs_text::{Watch, write_texts};
use std::io::Write;

/// Why a run was refused.
#[derive(Clone, Copy, Debug, PartialEq, Eq)]
pub enum Fault {
    /// The words of the command line are none that the program knows.
    CommandLine,
    /// A read of the input failed.
    Input,
    /// The text is no script.
    Read(ReadFault),
    /// The script is no program.
    Check(CheckFault),
    /// The run was not played.
    Play(PlayFault),
    /// The blocks of an order were not played.
    Order(OrderFault),
    /// The program was not run on threads.
    Run(RunFault),
    /// The outcomes of the program were not found.
    Outcomes(OutcomesFault),
    /// An allocation failed elsewhere: for the input or for a report.
    Memory,
}

fn words_of_read(fault: ReadFault) -> &'static [u8]
    ensures words { result.now ≡ read_words fault }
{
    match fault {
        ReadFault::Size => b"read 1 Size",
        ReadFault::Byte { line: _ } => b"read 2 Byte",
        ReadFault::Number { line: _ } => b"read 3 Number",
        ReadFault::Name { line: _ } => b"read 4 Name",
        ReadFault::Form { line: _ } => b"read 5 Form",
        ReadFault::Memory => b"read 6 Memory",
    }
}

// The line of the text, of a fault that has one.
fn place_of_read(fault: ReadFault) -> Option<u32>
    ensures place { result ≡ read_place fault }
{
    match fault {
        ReadFault::Byte { line }
        | ReadFault::Number { line }
        | ReadFault::Name { line }
        | ReadFault::Form { line } => Some(line),
        ReadFault::Size | ReadFault::Memory => None,
    }
}

fn words_of_check(fault: CheckFault) -> &'static [u8]
    ensures words { result.now ≡ check_words fault }
{
    match fault {
        CheckFault::Twice => b"check 1 Twice",
        CheckFault::UnknownObject => b"check 2 UnknownObject",
        CheckFault::ReservedTwice => b"check 3 ReservedTwice",
        CheckFault::NotReserved => b"check 4 NotReserved",
        CheckFault::UnknownOp => b"check 5 UnknownOp",
        CheckFault::Arity => b"check 6 Arity",
        CheckFault::LeaveOutside => b"check 7 LeaveOutside",
        CheckFault::Limit => b"check 8 Limit",
        CheckFault::Range => b"check 9 Range",
        CheckFault::Load => b"check 10 Load",
        CheckFault::Weight => b"check 11 Weight",
        CheckFault::Memory => b"check 12 Memory",
        CheckFault::UnknownTemplate => b"check 13 UnknownTemplate",
        CheckFault::Count => b"check 14 Count",
        CheckFault::OtherKind => b"check 15 OtherKind",
    }
}

fn words_of_play(fault: PlayFault) -> &'static [u8]
    ensures words { result.now ≡ play_words fault }
{
    match fault {
        PlayFault::Memory => b"play 1 Memory",
        PlayFault::Actor => b"play 2 Actor",
        PlayFault::Rounds => b"play 3 Rounds",
    }
}

fn words_of_order(fault: OrderFault) -> &'static [u8]
    ensures words { result.now ≡ order_words fault }
{
    match fault {
        OrderFault::Memory => b"play 1 Memory",
        OrderFault::Order => b"play 4 Order",
    }
}

fn words_of_run(fault: RunFault) -> &'static [u8]
    ensures words { result.now ≡ run_words fault }
{
    match fault {
        RunFault::Memory => b"run 1 Memory",
        RunFault::Threads => b"run 2 Threads",
    }
}

fn words_of_outcomes(fault: OutcomesFault) -> &'static [u8]
    ensures words { result.now ≡ outcomes_words fault }
{
    match fault {
        OutcomesFault::Memory => b"outcomes 1 Memory",
        OutcomesFault::Limit => b"outcomes 2 Limit",
        OutcomesFault::Order => b"outcomes 3 Order",
    }
}

/// The words of a fault, which stand in its line.
pub fn words_of(fault: &Fault) -> &'static [u8]
    ensures words { result.now ≡ fault_words fault.now }
{
    match fault {
        Fault::CommandLine => b"command line",
        Fault::Input => b"input",
        Fault::Read(fault) => words_of_read(*fault),
        Fault::Check(fault) => words_of_check(*fault),
        Fault::Play(fault) => words_of_play(*fault),
        Fault::Order(fault) => words_of_order(*fault),
        Fault::Run(fault) => words_of_run(*fault),
        Fault::Outcomes(fault) => words_of_outcomes(*fault),
        Fault::Memory => b"memory",
    }
}

/// The line of the script that a fault is of, where it has one.
pub fn place_of(fault: &Fault) -> Option<u32>
    ensures place { result ≡ fault_place fault.now }
{
    match fault {
        Fault::Read(fault) => place_of_read(*fault),
        _ => None,
    }
}

/// Writes the line of a fault: `refused: ` and the fault's words and numbers. False exactly where a write fails, which
/// `watch` shows; no more is written then, and what was written is a front of the line. Takes no memory, and asks for
/// no flush.
pub fn fault_line_watched<W: Write>(fault: &Fault, out: &mut W, watch: &mut Watch<W>) -> bool
    ensures front { AppendsFront (W.contents out.old) (W.contents out.new) (fault_text fault.now) }
    ensures whole { IsTrue result → Appends (W.contents out.old) (W.contents out.new) (fault_text fault.now) }
    ensures failed { watch.new.has_failed ≡ (watch.old.has_failed || not result) }
{
    let words = words_of(fault);
    match place_of(fault) {
        None => write_texts(out, watch, &[b"refused: ", words, b"\n"]),
        Some(line) => {
            let mut buffer = Buffer::new();
            let digits = buffer.format(line).as_bytes();
            write_texts(out, watch, &[b"refused: ", words, b" line ", digits, b"\n"])
        }
    }
}

/// Writes the line of a fault, as `fault_line_watched` does; false exactly where a write fails.
pub fn fault_line<W: Write>(fault: &Fault, out: &mut W) -> bool
    ensures front { AppendsFront (W.contents out.old) (W.contents out.new) (fault_text fault.now) }
    ensures whole { IsTrue result → Appends (W.contents out.old) (W.contents out.new) (fault_text fault.now) }
{
    let mut watch = Watch::new();
    fault_line_watched(fault, out, &mut watch)
}

/// The status that a refused run ends with: 2 for a command line, a script or a number that is refused, 3 for out of
/// memory or of threads, 4 for the input.
pub fn status(fault: &Fault) -> u8
    ensures status { result ≡ fault_status fault.now }
{
    match fault {
        Fault::Input => 4,
        Fault::Memory
        | Fault::Run(_)
        | Fault::Read(ReadFault::Memory)
        | Fault::Check(CheckFault::Memory)
        | Fault::Play(PlayFault::Memory)
        | Fault::Order(OrderFault::Memory)
        | Fault::Outcomes(OutcomesFault::Memory) => 3,
        Fault::CommandLine
        | Fault::Read(_)
        | Fault::Check(_)
        | Fault::Play(_)
        | Fault::Order(OrderFault::Order)
        | Fault::Outcomes(OutcomesFault::Limit | OutcomesFault::Order) => 2,
    }
}
