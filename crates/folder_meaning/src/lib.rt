//! What a folder of files means.
#![tactic(auto)]

mod const_value;
mod facts;
mod globals;
mod image;
mod known;
mod laws;
mod operators;
mod scope;
mod script_type;
mod shared;
#[cfg(test)]
mod tests;
mod thread_safety;

pub use const_value::ConstValue;
pub use facts::{
    BodyFacts, ClassFacts, Content, Declaration, FileFacts, MemberFacts, NodeFacts, ParamFacts,
    Referent, Signature,
};
pub use globals::Globals;
pub use image::ImageFile;
pub use known::Known;
pub use laws::readings_are_determined;
pub use operators::{value_op, value_prefix};
pub use scope::Scope;
pub use script_type::ScriptType;
pub use shared::Shared;
pub use thread_safety::cross_threads;
