//! What a lock may know of the value that it keeps.
ghost use Rattle.std.specs.Prelude.{◌≡◌, List, length};

/// A value with a project that never changes, a log that only grows, and a state. Contracts see all three as plain data.
pub trait Told {
    type Project;

    type Entry;

    type State;

    ghost project: { Self → Self.Project };

    ghost log: { Self → List Self.Entry };

    ghost state: { Self → Self.State };

    /// How many entries the log has.
    fn log_len(&self) -> u64
        ensures { result ≡ length (log self.now) };
}
