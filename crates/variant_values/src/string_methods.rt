// Names of the methods of strings.
/// A method of a string.
#[derive(Clone, Copy, Debug, PartialEq, Eq)]
pub enum StrMethod {
    Length,
    IsEmpty,
    Substr,
    Left,
    Right,
    Find,
    Contains,
    BeginsWith,
    EndsWith,
    Replace,
    Split,
    Join,
    Repeat,
    ToUpper,
    ToLower,
    StripEdges,
    IsValidInt,
    ToInt,
    UnicodeAt,
}
