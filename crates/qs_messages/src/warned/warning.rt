// A warning.

/// Something of a program that may be meant otherwise. Clients, objects, variables and blocks are named by their
/// numbers.
#[derive(Clone, Copy, Debug)]
pub enum Warning {
    /// There is no client, or no client has a block.
    Empty,
    /// No block reserves the object.
    Unreserved {
        object: u8,
    },
    /// A client reads the variable and never sets it.
    NeverSet {
        client: u8,
        variable: u8,
    },
    /// A client assigns the variable and never reads it.
    NeverRead {
        client: u8,
        variable: u8,
    },
    /// A client's block makes no request on a name of its list, which is an object's or, in a template's text, a
    /// formal's.
    Unused {
        client: u8,
        block: u8,
        name: u8,
    },
    /// A request of a client's block is refused, whatever has run before. The requests of a block have numbers in the
    /// order of the text.
    AlwaysRefused {
        client: u8,
        block: u8,
        request: usize,
    },
    /// A request of a client's block is answered by 0, whatever has run before.
    AlwaysZero {
        client: u8,
        block: u8,
        request: usize,
    },
}
