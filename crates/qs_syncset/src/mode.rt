//! Which synchronisations are left out.

ghost use Rattle.std.specs.Prelude.{◌≡◌};
ghost use Rattle.qs_syncset.specs.audit.Modes.{is_static as static_by, is_dynamic as dynamic_by};

/// How synchronisations with handlers that are held already are left out.
#[derive(Clone, Copy, Debug, PartialEq, Eq)]
pub enum Mode {
    /// None is.
    Plain,
    /// By a test as the client comes to one.
    Dynamic,
    /// By removal from the graph, before the client begins.
    Static,
    /// By removal, and those that are left by the test.
    Both,
}

impl Mode {
    /// Whether synchronisations are removed from graphs.
    pub fn is_static(self) -> bool
        ensures value { result ≡ static_by self }
    {
        match self {
            Mode::Plain | Mode::Dynamic => false,
            Mode::Static | Mode::Both => true,
        }
    }

    /// Whether a client that comes to a synchronisation tests whether it holds the handler.
    pub fn is_dynamic(self) -> bool
        ensures value { result ≡ dynamic_by self }
    {
        match self {
            Mode::Plain | Mode::Static => false,
            Mode::Dynamic | Mode::Both => true,
        }
    }
}
