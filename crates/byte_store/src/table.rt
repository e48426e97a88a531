// The values of keys.
ghost use Rattle.std.specs.Prelude.{◌≡◌, IfOk, OnOk, OnErr, Some, None, is_some};
ghost use Rattle.std.specs.Option.{option_map};
ghost use Rattle.byte_store.specs.Table.{table_bytes, appended_length, after_append, HasChanged, HasKept};

use flake_base::Memory;
use indexmap::IndexMap;
use shard_part::VALUE_LIMIT;
use std::alloc::Global;

/// Values by key.
pub type Table = IndexMap<Vec<u8>, Vec<u8>>;

pub fn get<'a>(table: &'a Table, key: &[u8]) -> Option<&'a Vec<u8>>
    ensures { option_map (λ value. value.now.items) result ≡ table_bytes key.now table.now.entries }
{
    table.get(key)
}

pub fn contains(table: &Table, key: &[u8]) -> bool
    ensures { result ≡ is_some (table_bytes key.now table.now.entries) }
{
    table.contains_key(key)
}

/// Gives a key a value; after want of memory the table is as it was.
pub fn put(alloc: Global, table: &mut Table, key: &[u8], value: &[u8]) -> Result<(), Memory>
    ensures ok { OnOk result (HasChanged key.now (Some value.now) table.old.entries table.new.entries) }
    ensures err { OnErr result (table.new.entries ≡ table.old.entries) }
{
    let value = Vec::from_slice(alloc, value)?;
    match table.get_mut(key) {
        Some(place) => {
            *place = value;
            Ok(())
        }
        None => insert(alloc, table, key, value),
    }
}

// Gives a copy of a key a value; after want of memory the table is as it was.
fn insert(alloc: Global, table: &mut Table, key: &[u8], value: Vec<u8>) -> Result<(), Memory>
    ensures ok { OnOk result (HasChanged key.now (Some value.items) table.old.entries table.new.entries) }
    ensures err { OnErr result (table.new.entries ≡ table.old.entries) }
{
    let key = Vec::from_slice(alloc, key)?;
    match table.insert(key, value) {
        Ok(_) => Ok(()),
        Err(_) => Err(Memory),
    }
}

/// Puts bytes behind the value of a key, and answers its length then; nothing, where the value would be too long. A
/// missing key gets the bytes alone. After want of memory each key has what it had.
pub fn append(
    alloc: Global,
    table: &mut Table,
    key: &[u8],
    bytes: &[u8],
) -> Result<Option<u64>, Memory>
    ensures length { IfOk result (λ count. count ≡ appended_length (table_bytes key.now table.old.entries) bytes.now) }
    ensures ok { OnOk result (HasChanged key.now (after_append (table_bytes key.now table.old.entries) bytes.now)
        table.old.entries table.new.entries) }
    ensures err { OnErr result (HasKept table.old.entries table.new.entries) }
{
    match table.get_mut(key) {
        Some(value) => extend(value, bytes),
        None => {
            if bytes.len() > VALUE_LIMIT {
                return Ok(None);
            }
            insert(alloc, table, key, Vec::from_slice(alloc, bytes)?)?;
            Ok(Some(bytes.len() as u64))
        }
    }
}

// Puts bytes behind a value, unless it would be too long; after want of memory the value is as it was.
fn extend(value: &mut Vec<u8>, bytes: &[u8]) -> Result<Option<u64>, Memory>
    ensures length { IfOk result (λ count. count ≡ appended_length (Some value.old.items) bytes.now) }
    ensures ok { OnOk result (Some value.new.items ≡ after_append (Some value.old.items) bytes.now) }
    ensures err { OnErr result (value.new.items ≡ value.old.items) }
{
    let length = value.len().saturating_add(bytes.len());
    if length > VALUE_LIMIT {
        return Ok(None);
    }
    value.extend_from_slice(bytes)?;
    Ok(Some(length as u64))
}

/// Takes a key out, and answers whether it was there.
pub fn remove(table: &mut Table, key: &[u8]) -> bool
    ensures was { result ≡ is_some (table_bytes key.now table.old.entries) }
    ensures removed { HasChanged key.now None table.old.entries table.new.entries }
{
    table.swap_remove(key).is_some()
}
