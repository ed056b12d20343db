/// A method of an array.
#[derive(Clone, Copy, Debug, PartialEq, Eq)]
pub enum ArrayMethod {
    Size,
    IsEmpty,
    Append,
    PushBack,
    PushFront,
    PopBack,
    PopFront,
    Front,
    Back,
    Insert,
    RemoveAt,
    Erase,
    Clear,
    Has,
    Find,
    Count,
    Slice,
    Reverse,
    Sort,
    Duplicate,
    AppendArray,
    Resize,
    Fill,
}

/// A method of a dictionary.
#[derive(Clone, Copy, Debug, PartialEq, Eq)]
pub enum DictMethod {
    Size,
    IsEmpty,
    Has,
    Get,
    Keys,
    Values,
    Erase,
    Clear,
    Duplicate,
    Merge,
}
