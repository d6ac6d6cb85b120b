// What becomes of a request.

/// What became of a request that an object ran.
#[derive(Clone, Copy, Debug, PartialEq, Eq)]
pub enum Fate {
    /// The command was done, or the query was answered by what is there.
    Done,
    /// The command could not be done: the object counted it as refused.
    Refused,
    /// The query asked for what is not there, and was answered by 0.
    NoValue,
}
