//! What a job is to those that hand it on.
ghost use Rattle.std.specs.Prelude.{ℕ};

/// A job that is drawn by ticket.
pub trait Ticketed: Drop {
    /// It is the job of that ticket, and has not run.
    ghost waits: { Self → ℕ → Type 0 };

    /// It is the job of that ticket, and has run.
    ghost finished: { Self → ℕ → Type 0 };
}
