// A line becomes a record.
use crate::forms::{self, Field, Form};
use crate::record::Record;
use crate::refused::{Reason, Refused};
use crate::values::{self, Value};
use crate::words;

// What is left of a line behind what was read of it.
type Rest<'a> = Result<&'a [u8], Refused<'a>>;

// A value where the line goes on. A mark takes no word, and a limit may lack one.
fn put_value<'a>(
    line: &'a [u8],
    name: &'static str,
    value: Value,
    record: &mut Record,
) -> Rest<'a> {
    let (word, rest) = match value {
        Value::Mark => (&line[..0], words::trim(line)),
        _ => words::take(line),
    };
    if word.is_empty() && !matches!(value, Value::Mark | Value::Limit) {
        return Err(Reason::NotHere.of(name.as_bytes()));
    }
    value
        .put(word, record)
        .ok_or(Reason::NoValue.of(name.as_bytes()))?;
    Ok(rest)
}

fn put_values<'a>(
    line: &'a [u8],
    name: &'static str,
    values: &[Value],
    record: &mut Record,
) -> Rest<'a> {
    let mut line = line;
    for value in values {
        line = put_value(line, name, *value, record)?;
    }
    Ok(line)
}

fn put_zeros(values: &[Value], record: &mut Record) {
    for value in values {
        record.put(value.zeros());
    }
}

// The line behind `name:`, if it begins so.
fn behind_name<'a>(line: &'a [u8], name: &str) -> Option<&'a [u8]> {
    line.strip_prefix(name.as_bytes())?.strip_prefix(b":")
}

// The count is that of all messages. One that does not fit is that of a record that is too long.
fn put_messages<'a>(line: &'a [u8], record: &mut Record) -> Rest<'a> {
    let at = record.bytes().len();
    let mut count = 0u16;
    record.put(&count.to_le_bytes());
    for word in line.split(|b| words::is_space(*b)) {
        if !word.is_empty() {
            let n = values::put_messages(word, record).ok_or(Reason::NoValue.of(b"message"))?;
            count = count.saturating_add(n);
        }
    }
    record.put_at(at, &count.to_le_bytes());
    Ok(b"")
}

fn put_bytes<'a>(line: &'a [u8], record: &mut Record) -> Rest<'a> {
    for word in line.split(|b| words::is_space(*b)) {
        values::put_bytes(word, record).ok_or(Reason::NoValue.of(b"bytes"))?;
    }
    Ok(b"")
}

fn put_field<'a>(line: &'a [u8], field: Field, record: &mut Record) -> Rest<'a> {
    match field {
        Field::Named(name, values) => {
            let line = behind_name(line, name).ok_or(Reason::NotHere.of(name.as_bytes()))?;
            put_values(line, name, values, record)
        }
        Field::Optional(name, values) => match behind_name(line, name) {
            Some(line) => put_values(line, name, values, record),
            None => {
                put_zeros(values, record);
                Ok(line)
            }
        },
        Field::Bare(name, values) => put_values(line, name, values, record),
        Field::Byte(b) => {
            record.put(&[b]);
            Ok(line)
        }
        Field::Messages => put_messages(line, record),
        Field::Bytes => put_bytes(line, record),
    }
}

// Of a line behind its first word.
fn put_form<'a>(line: &'a [u8], form: Form, record: &mut Record) -> Result<(), Refused<'a>> {
    let Form(_, kind, fields) = form;
    if kind.is_some() {
        record.put_head();
    }
    let mut line = line;
    for field in fields {
        line = put_field(line, *field, record)?;
    }
    if !line.is_empty() {
        return Err(Reason::Surplus.of(words::take(line).0));
    }
    if record.is_too_long() {
        return Err(Reason::LongRecord.of(b""));
    }
    if let Some(kind) = kind {
        record.fill_head(kind);
    }
    Ok(())
}

// The record of a line, whose comment is cut off; without a word it is nothing.
pub fn make<'a>(line: &'a [u8], record: &mut Record) -> Result<(), Refused<'a>> {
    record.clear();
    let text = words::split_once(line, b'#').map_or(line, |(text, _)| text);
    let (word, rest) = words::take(words::trim(text));
    if word.is_empty() {
        return Ok(());
    }
    let form = forms::of(word).ok_or(Reason::Unknown.of(word))?;
    put_form(rest, form, record)
}
