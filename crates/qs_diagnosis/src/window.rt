// The part of a line that is shown: all of it, or where it is long, what stands around a place of it.

ghost use Rattle.std.specs.Prelude.{◌≡◌, ◌≤◌, ◌<◌, ◌+◌, ◌-◌};
ghost use Rattle.qs_diagnosis.specs.Excerpts.{window_of};

/// Bytes of a line that are shown.
const LONGEST_LINE: usize = 100;

/// Bytes before the place, at least, where a line is cut.
const BEFORE: usize = 60;

/// The bytes from one place of a text up to another.
#[derive(Clone, Copy)]
pub(crate) struct Window {
    pub from: usize,
    pub to: usize,
}

// The window of the line from `start` up to `end` around a place in it.
pub(crate) fn around(start: usize, end: usize, place: usize) -> Window
    requires before { start ≤ place }
    requires after { place ≤ end }
    ensures exact { result ≡ window_of start end place }
    ensures from { (start ≤ result.from) × (result.from ≤ place) }
    ensures to { (place ≤ result.to) × (result.to ≤ end) }
{
    if end - start <= LONGEST_LINE {
        return Window {
            from: start,
            to: end,
        };
    }
    let from = if place - start <= BEFORE {
        start
    } else {
        place - BEFORE
    };
    let to = if end - from <= LONGEST_LINE {
        end
    } else {
        from + LONGEST_LINE
    };
    Window { from, to }
}
