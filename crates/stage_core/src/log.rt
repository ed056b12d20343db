//! The log as contracts see it. No value of these types is made.
use gd_syntax::LoadFault;
use std::marker::Model;

/// An outcome, wherever its result lies.
pub enum OutcomeValue<O> {
    Value(O),
    Fault(LoadFault),
    Block,
}

/// An entry of the log.
pub enum Entry<O> {
    Request(u32),
    Claim(u32, u8),
    Publish(u32, u8, OutcomeValue<O>),
}

/// By file: the stage of its task under way, or 0.
pub struct TasksInProgress {
    stages: Vec<u8>,
}

impl Model for TasksInProgress {
    ghost use Rattle.std.specs.Prelude.{List, ℕ};

    ghost Value = { List ℕ };

    ghost view = { λ t. t.stages.items };
}
