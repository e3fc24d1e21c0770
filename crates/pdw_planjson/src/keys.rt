//! What stands at a key of an object.

ghost use Rattle.std.specs.Prelude.{◌≡◌, map, option_map};
ghost use Rattle.serde_json.specs.View.{view};
ghost use Rattle.pdw_planjson.specs.Keys as spec;

use serde_json::Value;

/// The elements of a list.
pub fn elements(value: &Value) -> Option<&[Value]>
    ensures { option_map (λ list. map view list.now) result ≡ spec.elements_of (view value.now) }
{
    match value.as_array() {
        Some(list) => Some(list.as_slice()),
        None => None,
    }
}

/// The elements of the list at a key.
pub fn list_at<'v>(value: &'v Value, key: &str) -> Option<&'v [Value]>
    ensures { option_map (λ list. map view list.now) result ≡ spec.list_at key.now (view value.now) }
{
    match value.get(key) {
        Some(found) => elements(found),
        None => None,
    }
}

/// The string at a key.
pub fn text_at<'v>(value: &'v Value, key: &str) -> Option<&'v str>
    ensures { option_map (λ text. text.now) result ≡ spec.text_at key.now (view value.now) }
{
    match value.get(key) {
        Some(found) => found.as_str(),
        None => None,
    }
}

/// The unsigned whole number at a key.
pub fn whole_at(value: &Value, key: &str) -> Option<u64>
    ensures { result ≡ spec.whole_at key.now (view value.now) }
{
    match value.get(key) {
        Some(found) => found.as_u64(),
        None => None,
    }
}

/// Whether it is an object with four keys.
pub fn has_four(value: &Value) -> bool
    ensures { result ≡ spec.has_four (view value.now) }
{
    match value.as_object() {
        Some(members) => members.len() == 4,
        None => false,
    }
}
