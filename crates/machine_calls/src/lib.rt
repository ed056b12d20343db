//! Native calls by kind and name: methods of strings, arrays and dictionaries, and `call` of a callable.
#![tactic(auto)]

pub mod answers;
pub mod methods;
pub mod names;
#[cfg(test)]
mod tests;

pub use answers::NativeAnswer;
pub use methods::method_call;
