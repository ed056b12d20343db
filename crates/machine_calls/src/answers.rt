use variant_values::values::Value;

/// What a native call answers.
#[derive(Drop)]
pub enum NativeAnswer {
    Value(Value),
    /// A callable, whose function is to be called with the arguments.
    Call(Value),
}
