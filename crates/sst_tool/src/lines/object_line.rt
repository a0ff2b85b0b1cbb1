//! Entries as JSON objects.
ghost use Rattle.std.specs.Prelude.{◌≡◌, ◌≢◌, ℕ, IfErr, IfNone, IfOk, IfSome, List, OnOk, false};
ghost use Rattle.std.specs.Prelude.{length};
ghost use Rattle.sst_tool.specs.lines.Words as spec;
ghost use Rattle.json.specs.Json.{Json};

use crate::lines::LineError;
use crate::lines::word_line::{parse_number, slice_of};
use json::{Error, Scratch, Value, Writer};
use sst_entries::{EntryRef, InternalValue, Slice, ValueType};
use std::alloc::{AllocError, Allocator};

/// Appends the object of an entry.
pub(crate) fn append_object<A: Allocator + Copy>(
    alloc: A,
    text: Vec<u8, A>,
    entry: &EntryRef<'_>,
) -> Result<Vec<u8, A>, AllocError> {
    let mut writer = Writer::new(text);
    write_members(alloc, &mut writer, entry)?;
    Ok(writer.into_inner())
}

fn write_members<A: Allocator + Copy>(
    alloc: A,
    writer: &mut Writer<A>,
    entry: &EntryRef<'_>,
) -> Result<(), AllocError> {
    writer.begin_object()?;
    writer.key("key")?;
    write_bytes(alloc, writer, entry.user_key)?;
    writer.key("seqno")?;
    writer.u64(entry.seqno)?;
    writer.key("kind")?;
    writer.string(name_of(entry.value_type))?;
    writer.key("value")?;
    write_bytes(alloc, writer, entry.value)?;
    writer.end_object()
}

/// Writes bytes as a string, or as an object `{"hex":"ff00"}` if they are not UTF-8.
///
/// # Errors
///
/// Fails only if memory runs out.
pub fn write_bytes<A: Allocator + Copy>(
    alloc: A,
    writer: &mut Writer<A>,
    bytes: &[u8],
) -> Result<(), AllocError> {
    if let Ok(text) = str::from_utf8(bytes) {
        return writer.string(text);
    }
    let digits = hex::encode(alloc, bytes)?;
    writer.begin_object()?;
    writer.key("hex")?;
    writer.string(digits.as_str())?;
    writer.end_object()
}

// The name of a kind.
fn name_of(kind: ValueType) -> &'static str {
    match kind {
        ValueType::Value => "value",
        ValueType::Tombstone => "tombstone",
        ValueType::WeakTombstone => "weak_tombstone",
        ValueType::Indirection => "indirection",
    }
}

/// Parses an object. The first error is that of the text, the members, the sequence number, the
/// kind, the key or the value. Memory can run out once the text is UTF-8.
pub(crate) fn parse_object<A: Allocator + Copy>(
    alloc: A,
    line: &[u8],
) -> Result<InternalValue<A>, LineError>
    ensures spells { IfOk result (λ e. spec.SpellsObject line.now e) }
    ensures refused { IfErr result (λ e. spec.lacks_memory e ≡ false
        → (item : spec.Entry) → ¬ spec.SpellsObject line.now item) }
{
    let Ok(text) = str::from_utf8(line) else {
        return Err(LineError::Json);
    };
    let mut scratch = Scratch::new(alloc);
    match Value::parse_strict(alloc, text, &mut scratch) {
        Ok(object) => read_object(alloc, &object),
        Err(Error::OutOfMemory) => Err(LineError::OutOfMemory),
        Err(_) => Err(LineError::Json),
    }
}

// The values of an entry's members.
#[derive(Drop)]
struct EntryMembers<'v, 'a, A: Allocator> {
    key: &'v Value<'a, A>,
    seqno: &'v Value<'a, A>,
    kind: &'v Value<'a, A>,
    value: &'v Value<'a, A>,
}

// Returns the entry of an object, for whatever line it was parsed from.
fn read_object<A: Allocator + Copy>(
    alloc: A,
    object: &Value<'_, A>,
) -> Result<InternalValue<A>, LineError>
    ensures spells { (line : List ℕ) → spec.IsStrictLine line (spec.value_view object.now)
        → IfOk result (λ e. spec.SpellsObject line e) }
    ensures refused { (line : List ℕ) → spec.IsStrictLine line (spec.value_view object.now)
        → IfErr result (λ e. spec.lacks_memory e ≡ false
        → (item : spec.Entry) → ¬ spec.SpellsObject line item) }
{
    let members = split_members(object)?;
    let seqno = read_number(members.seqno)?;
    let kind = read_kind(members.kind)?;
    let key = read_bytes(alloc, members.key, LineError::KeyMember)?;
    match read_bytes(alloc, members.value, LineError::ValueMember) {
        Ok(value) => Ok(InternalValue::from_components(key, value, seqno, kind)),
        Err(error) => Err(error),
    }
}

// Returns the members of an object that has exactly these four.
fn split_members<'v, 'a, A: Allocator>(
    value: &'v Value<'a, A>,
) -> Result<EntryMembers<'v, 'a, A>, LineError>
    ensures ok { IfOk result
        (λ m. spec.IsEntryObject (spec.value_view value.now) (spec.value_view m.key.now)
        (spec.value_view m.seqno.now) (spec.value_view m.kind.now) (spec.value_view m.value.now)) }
    ensures refused { IfErr result (λ _. (key seqno kind other : Json)
        → ¬ spec.IsEntryObject (spec.value_view value.now) key seqno kind other) }
{
    test_members(value)?;
    find_members(value).ok_or(LineError::Members)
}

// Tests that a value is an object with four members.
fn test_members<A: Allocator>(value: &Value<'_, A>) -> Result<(), LineError>
    ensures ok { OnOk result
        ((members : spec.Members) × (spec.value_view value.now ≡ spec.object members)
        × (length (spec.keys members) ≡ 4)) }
    ensures refused { IfErr result (λ _. (key seqno kind other : Json)
        → ¬ spec.IsEntryObject (spec.value_view value.now) key seqno kind other) }
{
    match value {
        Value::Object(members) if members.len() == 4 => Ok(()),
        Value::Object(_) => Err(LineError::Members),
        _ => Err(LineError::Json),
    }
}

// Returns the members of an entry, if the value has each.
fn find_members<'v, 'a, A: Allocator>(value: &'v Value<'a, A>) -> Option<EntryMembers<'v, 'a, A>>
    ensures some { IfSome result
        (λ m. spec.AreMembersOf (spec.value_view value.now) (spec.value_view m.key.now)
        (spec.value_view m.seqno.now) (spec.value_view m.kind.now) (spec.value_view m.value.now)) }
    ensures none { IfNone result ((key seqno kind other : Json)
        → ¬ spec.IsEntryObject (spec.value_view value.now) key seqno kind other) }
{
    Some(EntryMembers {
        key: value.get("key")?,
        seqno: value.get("seqno")?,
        kind: value.get("kind")?,
        value: value.get("value")?,
    })
}

fn read_number<A: Allocator>(value: &Value<'_, A>) -> Result<u64, LineError>
    ensures ok { IfOk result (λ n. spec.MeansNumber (spec.value_view value.now) n) }
    ensures refused { IfErr result (λ _. (n : ℕ) →
        ¬ spec.MeansNumber (spec.value_view value.now) n) }
{
    match value {
        Value::Number(text) => parse_number(text.as_bytes()).ok_or(LineError::NumberMember),
        _ => Err(LineError::NumberMember),
    }
}

fn read_kind<A: Allocator>(value: &Value<'_, A>) -> Result<ValueType, LineError>
    ensures ok { IfOk result (λ kind. spec.value_view value.now
        ≡ spec.string (spec.kind_name kind)) }
    ensures refused { IfErr result
        (λ _. (kind : spec.ValueType) →
        spec.value_view value.now ≢ spec.string (spec.kind_name kind)) }
{
    match value {
        Value::String(text) => kind_named(text).ok_or(LineError::KindMember),
        _ => Err(LineError::KindMember),
    }
}

fn kind_named(name: &str) -> Option<ValueType>
    ensures some { IfSome result (λ kind. name.now ≡ spec.kind_name kind) }
    ensures none { IfNone result ((kind : spec.ValueType) → name.now ≢ spec.kind_name kind) }
{
    match name {
        "value" => Some(ValueType::Value),
        "tombstone" => Some(ValueType::Tombstone),
        "weak_tombstone" => Some(ValueType::WeakTombstone),
        "indirection" => Some(ValueType::Indirection),
        _ => None,
    }
}

// Returns the bytes of a string, or of the hex digits in an object.
fn read_bytes<A: Allocator + Copy>(
    alloc: A,
    value: &Value<'_, A>,
    fault: LineError,
) -> Result<Slice<A>, LineError>
    ensures ok { IfOk result (λ bytes. spec.MeansBytes (spec.value_view value.now) bytes) }
    ensures refused { IfErr result (λ e. spec.lacks_memory e ≡ false →
        (bytes : List ℕ) → ¬ spec.MeansBytes (spec.value_view value.now) bytes) }
{
    match value {
        Value::String(text) => slice_of(Vec::from_slice(alloc, text.as_bytes())?),
        Value::Object(members) if members.len() == 1 => match value.get("hex") {
            Some(digits) => read_digits(alloc, digits, fault),
            None => Err(fault),
        },
        Value::Object(_) => Err(fault),
        _ => Err(fault),
    }
}

// Returns the bytes of hex digits.
fn read_digits<A: Allocator + Copy>(
    alloc: A,
    value: &Value<'_, A>,
    fault: LineError,
) -> Result<Slice<A>, LineError>
    ensures ok { IfOk result (λ bytes. spec.StandsInDigits (spec.value_view value.now) bytes) }
    ensures refused { IfErr result (λ e. spec.lacks_memory e ≡ false →
        (bytes : List ℕ) → ¬ spec.StandsInDigits (spec.value_view value.now) bytes) }
{
    let Value::String(digits) = value else {
        return Err(fault);
    };
    match hex::decode(alloc, *digits) {
        Ok(bytes) => slice_of(bytes),
        Err(hex::FromHexError::OutOfMemory) => Err(LineError::OutOfMemory),
        Err(_) => Err(fault),
    }
}
