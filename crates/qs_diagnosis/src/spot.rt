// Lines and columns.

ghost use Rattle.std.specs.Prelude.{◌≡◌, ◌≤◌, ◌<◌, ◌+◌, ◌^◌, ◌-◌, length};
ghost use Rattle.qs_diagnosis.specs.Spots.{moved, spot_at, line_end_at};

/// Where a byte of a text stands: its line and its column, both from 1 on.
#[derive(Clone, Copy, Debug, PartialEq, Eq)]
pub struct Spot {
    /// One more than the LF before it.
    pub line: usize,
    /// One more than the bytes before it in its line.
    pub column: usize,
}

// Where the next byte stands, after this byte.
fn past(spot: Spot, byte: u8) -> Spot
    requires line { spot.line < 2 ^ 64 - 1 }
    requires column { spot.column < 2 ^ 64 - 1 }
    ensures exact { result ≡ moved spot byte }
    ensures line { result.line ≤ spot.line + 1 }
    ensures column { result.column ≤ spot.column + 1 }
    ensures first { 1 ≤ result.column }
{
    if byte == b'\n' {
        Spot {
            line: spot.line + 1,
            column: 1,
        }
    } else {
        Spot {
            line: spot.line,
            column: spot.column + 1,
        }
    }
}

/// The line and the column of the byte after so many bytes of a text, or of its end.
pub fn spot_of(text: &[u8], offset: usize) -> Spot
    requires within { offset ≤ length text.now }
    ensures exact { result ≡ spot_at text.now offset }
    ensures lines { result.line ≤ offset + 1 }
    ensures within { result.column ≤ offset + 1 }
    ensures first { 1 ≤ result.column }
{
    let mut spot = Spot { line: 1, column: 1 };
    for byte in &text[..offset] {
        spot = past(spot, *byte);
    }
    spot
}

/// Where a line ends: at the first LF from here on, or at the text's end.
pub fn line_end(text: &[u8], from: usize) -> usize
    requires within { from ≤ length text.now }
    ensures exact { result ≡ from + line_end_at text.now from }
    ensures within { result ≤ length text.now }
    ensures after { from ≤ result }
{
    for (i, byte) in text[from..].iter().enumerate() {
        if *byte == b'\n' {
            return from + i;
        }
    }
    text.len()
}
