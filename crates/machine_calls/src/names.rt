// Methods by their names.
ghost use Rattle.std.specs.Prelude.{◌≡◌, option_map, Some};
ghost use Rattle.native_calls.specs.Table.{ArrayMethods, CallsArray, CallsDict, CallsString, DictionaryMethods, StringMethods};
ghost use Rattle.machine_calls.specs.Answers.{call_named};

use variant_values::container_methods::{ArrayMethod, DictMethod};
use variant_values::string_methods::StrMethod;

/// The method of a string that has this name.
pub fn string_method(name: &str) -> Option<StrMethod>
    ensures { call_named StringMethods name.now ≡ option_map (λ m. Some (CallsString m)) result }
{
    match name {
        "length" => Some(StrMethod::Length),
        "is_empty" => Some(StrMethod::IsEmpty),
        "substr" => Some(StrMethod::Substr),
        "left" => Some(StrMethod::Left),
        "right" => Some(StrMethod::Right),
        "find" => Some(StrMethod::Find),
        "contains" => Some(StrMethod::Contains),
        "begins_with" => Some(StrMethod::BeginsWith),
        "ends_with" => Some(StrMethod::EndsWith),
        "replace" => Some(StrMethod::Replace),
        "split" => Some(StrMethod::Split),
        "join" => Some(StrMethod::Join),
        "repeat" => Some(StrMethod::Repeat),
        "to_upper" => Some(StrMethod::ToUpper),
        "to_lower" => Some(StrMethod::ToLower),
        "strip_edges" => Some(StrMethod::StripEdges),
        "is_valid_int" => Some(StrMethod::IsValidInt),
        "to_int" => Some(StrMethod::ToInt),
        "unicode_at" => Some(StrMethod::UnicodeAt),
        _ => None,
    }
}

/// The method of an array that has this name.
pub fn array_method(name: &str) -> Option<ArrayMethod>
    ensures { call_named ArrayMethods name.now ≡ option_map (λ m. Some (CallsArray m)) result }
{
    match name {
        "size" => Some(ArrayMethod::Size),
        "is_empty" => Some(ArrayMethod::IsEmpty),
        "append" => Some(ArrayMethod::Append),
        "push_back" => Some(ArrayMethod::PushBack),
        "push_front" => Some(ArrayMethod::PushFront),
        "pop_back" => Some(ArrayMethod::PopBack),
        "pop_front" => Some(ArrayMethod::PopFront),
        "front" => Some(ArrayMethod::Front),
        "back" => Some(ArrayMethod::Back),
        "insert" => Some(ArrayMethod::Insert),
        "remove_at" => Some(ArrayMethod::RemoveAt),
        "erase" => Some(ArrayMethod::Erase),
        "clear" => Some(ArrayMethod::Clear),
        "has" => Some(ArrayMethod::Has),
        "find" => Some(ArrayMethod::Find),
        "count" => Some(ArrayMethod::Count),
        "slice" => Some(ArrayMethod::Slice),
        "reverse" => Some(ArrayMethod::Reverse),
        "sort" => Some(ArrayMethod::Sort),
        "duplicate" => Some(ArrayMethod::Duplicate),
        "append_array" => Some(ArrayMethod::AppendArray),
        "resize" => Some(ArrayMethod::Resize),
        "fill" => Some(ArrayMethod::Fill),
        _ => None,
    }
}

/// The method of a dictionary that has this name.
pub fn dict_method(name: &str) -> Option<DictMethod>
    ensures { call_named DictionaryMethods name.now ≡ option_map (λ m. Some (CallsDict m)) result }
{
    match name {
        "size" => Some(DictMethod::Size),
        "is_empty" => Some(DictMethod::IsEmpty),
        "has" => Some(DictMethod::Has),
        "get" => Some(DictMethod::Get),
        "keys" => Some(DictMethod::Keys),
        "values" => Some(DictMethod::Values),
        "erase" => Some(DictMethod::Erase),
        "clear" => Some(DictMethod::Clear),
        "duplicate" => Some(DictMethod::Duplicate),
        "merge" => Some(DictMethod::Merge),
        _ => None,
    }
}
