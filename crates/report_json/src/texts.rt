//! Bytes as texts of JSON, with U+FFFD in place of each piece that is no UTF-8.
ghost use Rattle.std.specs.Prelude.{◌≡◌, IfOk, map};
ghost use Rattle.serde_json.specs.Data.{array};
ghost use Rattle.serde_json.specs.View.{view, items_of};
ghost use Rattle.report_json.specs.Replies.{text_data};

use flow_base::{Bytes, NoMemory};
use name_text::label;
use serde_json::Value;
use std::alloc::{AllocError, Global};

// Several texts.
pub fn texts_value(alloc: Global, texts: &[Bytes]) -> Result<Value, AllocError>
    ensures { IfOk result (λ value. view value ≡ array (items_of (map text_data texts.now))) }
{
    let mut list = Vec::new(alloc);
    for text in texts {
        list.push(text_value(alloc, text.as_slice())?)?;
    }
    Ok(Value::Array(list))
}

// A text.
pub fn text_value(alloc: Global, bytes: &[u8]) -> Result<Value, AllocError>
    ensures { IfOk result (λ value. view value ≡ text_data bytes.now) }
{
    match label(alloc, bytes) {
        Ok(text) => Ok(Value::String(text)),
        Err(NoMemory) => Err(AllocError),
    }
}
