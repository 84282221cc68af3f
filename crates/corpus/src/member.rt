// The members of a JSON object, each of the type that it has to be of.
use crate::malformed::Malformed;
use serde_json::Value;
use std::alloc::Global;

pub fn text<'a>(object: &'a Value, name: &'static str) -> Result<&'a str, Malformed> {
    let found = object.get(name).and_then(Value::as_str);
    found.ok_or(Malformed::Member(name))
}

pub fn number(object: &Value, name: &'static str) -> Result<u64, Malformed> {
    let found = object.get(name).and_then(Value::as_u64);
    found.ok_or(Malformed::Member(name))
}

pub fn byte(object: &Value, name: &'static str) -> Result<u8, Malformed> {
    u8::try_from(number(object, name)?).map_err(|_| Malformed::Member(name))
}

pub fn word(object: &Value, name: &'static str) -> Result<u32, Malformed> {
    u32::try_from(number(object, name)?).map_err(|_| Malformed::Member(name))
}

/// A count, a length or a position.
pub fn size(object: &Value, name: &'static str) -> Result<usize, Malformed> {
    usize::try_from(number(object, name)?).map_err(|_| Malformed::Member(name))
}

pub fn list<'a>(object: &'a Value, name: &'static str) -> Result<&'a [Value], Malformed> {
    match object.get(name).and_then(Value::as_array) {
        Some(items) => Ok(items.as_slice()),
        None => Err(Malformed::Member(name)),
    }
}

/// Bytes, as hexadecimal digits.
pub fn bytes(alloc: Global, object: &Value, name: &'static str) -> Result<Vec<u8>, Malformed> {
    hex::decode(alloc, text(object, name)?).map_err(|_| Malformed::Member(name))
}

/// Byte strings; none where there is no such member.
pub fn byte_strings(
    alloc: Global,
    object: &Value,
    name: &'static str,
) -> Result<Vec<Vec<u8>>, Malformed> {
    let mut strings = Vec::new(alloc);
    if object.get(name).is_none() {
        return Ok(strings);
    }
    for item in list(object, name)? {
        let digits = item.as_str().ok_or(Malformed::Member(name))?;
        let string = hex::decode(alloc, digits).map_err(|_| Malformed::Member(name))?;
        strings.push(string)?;
    }
    Ok(strings)
}

/// The numbers of lists of numbers, one list after the other.
pub fn numbers_into(
    out: &mut Vec<u64>,
    object: &Value,
    name: &'static str,
) -> Result<(), Malformed> {
    for item in list(object, name)? {
        let numbers = item.as_array().ok_or(Malformed::Member(name))?;
        for number in numbers {
            out.push(number.as_u64().ok_or(Malformed::Member(name))?)?;
        }
    }
    Ok(())
}
