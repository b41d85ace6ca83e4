//! Reads the fields of a text in the form of `decode --json`: a JSON object in each line.

ghost use Rattle.std.specs.Prelude.{IfErr};
ghost use Rattle.text_fields.specs.Reports.{NamesRow};

use crate::encode::EncodeFault;
use crate::written::Written;
use serde_json::Value;
use std::alloc::Global;

/// The objects of the lines, each with the number of its line, but those of faults.
pub(crate) fn objects_in(alloc: Global, text: &str) -> Result<Vec<(usize, Value)>, EncodeFault> {
    let mut objects = Vec::new(alloc);
    let mut row = 0usize;
    for line in text.lines() {
        row = row.saturating_add(1);
        if !line.trim().is_empty() {
            add_object(alloc, row, line, &mut objects)?;
        }
    }
    Ok(objects)
}

// Adds the object of a line, unless it is a fault.
fn add_object(
    alloc: Global,
    row: usize,
    line: &str,
    objects: &mut Vec<(usize, Value)>,
) -> Result<(), EncodeFault>
    ensures { IfErr result (NamesRow row) }
{
    let object = object_in(alloc, row, line)?;
    if object.get("fault").is_none() {
        objects.push((row, object))?;
    }
    Ok(())
}

fn object_in(alloc: Global, row: usize, line: &str) -> Result<Value, EncodeFault>
    ensures { IfErr result (NamesRow row) }
{
    match Value::from_str(alloc, line) {
        Ok(object) => Ok(object),
        Err(fault) if fault.is_memory() => Err(EncodeFault::Memory),
        Err(_) => {
            let words = format!(in alloc; "this is not a JSON object in a line")?;
            Err(EncodeFault::Line(row, words))
        }
    }
}

/// The number of the message, and the field that an object is.
pub(crate) fn field_in(object: &Value) -> Option<(u64, Written<'_>)> {
    let name = object.get("name")?.as_str()?;
    let value = number_in(object, "value")?;
    let width = width_in(object)?;
    let message = message_in(object)?;
    Some((message, Written { name, width, value }))
}

// The number of this name in an object.
fn number_in(object: &Value, name: &str) -> Option<u64> {
    object.get(name)?.as_u64()
}

// The number of the message of an object. Without one it is 0.
fn message_in(object: &Value) -> Option<u64> {
    match object.get("message") {
        Some(number) => number.as_u64(),
        None => Some(0),
    }
}

// The number of bits of the field that an object is.
fn width_in(object: &Value) -> Option<u32> {
    let from = number_in(object, "from")?;
    let to = number_in(object, "to")?;
    let width = to.checked_sub(from)?.checked_add(1)?;
    u32::try_from(width).ok()
}
