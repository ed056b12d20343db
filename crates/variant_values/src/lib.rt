//! Values of the language, and the cells of the heap as plain data.
#![tactic(auto)]

pub mod cells;
pub mod classes;
pub mod container_methods;
pub mod entries;
pub mod faults;
pub mod laws;
pub mod links;
pub mod nodes;
#[cfg(test)]
mod operator_tests;
pub mod operators;
pub mod string_methods;
pub mod texts;
pub mod thread_safety;
pub mod values;
pub mod weights;

pub use classes::{ClassId, ClassNames, ClassTag, ElementTag, Lineage};
pub use container_methods::{ArrayMethod, DictMethod};
pub use faults::{RunFault, Trouble};
pub use operators::{BinaryOp, UnaryOp, binary, unary};
pub use string_methods::StrMethod;
pub use texts::Str;
pub use values::{Key, Serial, Value};
