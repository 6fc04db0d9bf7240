//! The versions of scripts: what each may say.

ghost use Rattle.std.specs.Prelude.{◌≡◌};
ghost use Rattle.ks_script.specs.Version.{callers_limit};

/// A version of scripts. The first line says it, unless it is the first version.
#[derive(Clone, Copy, Debug, PartialEq, Eq)]
pub enum Version {
    /// `get`, `put` and `del`, with values of 64 bits.
    First,
    /// `add` and `swap` besides, and values of 128 bits.
    Second,
    /// `scan` besides.
    Third,
    /// `move` besides.
    Fourth,
}

impl Version {
    /// How many callers a script may have.
    pub fn most_callers(self) -> usize
        ensures { result ≡ callers_limit self }
    {
        match self {
            Version::First => 64,
            Version::Second | Version::Third | Version::Fourth => 1024,
        }
    }
}
