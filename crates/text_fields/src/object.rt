//! JSON objects of fields and of refusals.

use crate::print::PrintFault;
use serde_json::{Map, Value, put};
use std::alloc::{AllocError, Global};
use std::io::Write;

/// The content of a member of a JSON object.
#[derive(Clone, Copy)]
pub(crate) enum Content<'w> {
    Number(u64),
    Text(&'w str),
    Null,
}

/// A member of a JSON object: its name and its content.
pub(crate) type Member<'w> = (&'static str, Content<'w>);

/// Prints the object of these members on a line.
pub(crate) fn print_object<W: Write>(
    alloc: Global,
    members: &[Member<'_>],
    out: &mut W,
) -> Result<(), PrintFault> {
    let object = object_of(alloc, members)?;
    let text = object.to_string(alloc)?;
    writeln!(out, "{text}")?;
    Ok(())
}

// The object of these members.
fn object_of(alloc: Global, members: &[Member<'_>]) -> Result<Value, AllocError> {
    let mut object = Map::new(alloc);
    for (name, content) in members {
        let value = value_of(alloc, *content)?;
        put(&mut object, alloc, name, value)?;
    }
    Ok(Value::Object(object))
}

fn value_of(alloc: Global, content: Content<'_>) -> Result<Value, AllocError> {
    match content {
        Content::Number(number) => Ok(Value::from(number)),
        Content::Text(text) => Ok(Value::String(String::from_str(alloc, text)?)),
        Content::Null => Ok(Value::Null),
    }
}
