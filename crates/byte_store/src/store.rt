// The values of all keys.
ghost use Rattle.std.specs.Prelude.{◌≡◌, IfOk, OnOk, OnErr};
ghost use Rattle.std.specs.FinMap as finite;
ghost use Rattle.flake_model.specs.Store as model;
ghost use Rattle.flake_model.specs.Store.{Store as Meaning, Operation, value, found, answer, answer_on, after};
ghost use Rattle.flake_model.specs.Range.{range_of};
ghost use Rattle.shard_part.specs.Parts.{operation_of};
ghost use Rattle.shard_part.specs.Settings.{set_by};
ghost use Rattle.byte_store.specs.Table.{table_bytes, HasDone, HasKept};
ghost use Rattle.byte_store.specs.Store.{HoldsStore, answer_meant};

use crate::table::{Table, append, contains, get, put, remove};
use flake_base::{Bytes, Memory};
use indexmap::IndexMap;
use range_pick::{Span, span};
use shard_part::{Part, PartOp, Setting};
use std::alloc::Global;
use std::marker::Model;

/// What a part of a command answers.
#[derive(Drop)]
pub enum ByteAnswer {
    /// A copy of the value.
    Bulk(Bytes),
    /// The key is missing.
    Null,
    Done,
    /// The length of the value, in bytes.
    Length(u64),
    /// Whether the key was there.
    Did(bool),
    /// The value would be too long, and is as it was.
    TooLong,
}

/// A value for each key that has one.
#[derive(Drop)]
pub struct ByteStore {
    table: Table,
}

impl Model for ByteStore {
    ghost use Rattle.byte_store.specs.Table.{TableEntries};

    ghost Value = { TableEntries };

    ghost view = { λ s. s.table.entries };
}

impl ByteStore {
    pub fn new(alloc: Global) -> ByteStore
        ensures { HoldsStore result finite.empty }
    {
        ByteStore {
            table: IndexMap::new(alloc),
        }
    }

    /// Does a part. After want of memory the store is as it was.
    pub fn run(&mut self, alloc: Global, part: &Part<'_>) -> Result<ByteAnswer, Memory>
        ensures answer { (store : Meaning) → HoldsStore self.old store
            → IfOk result (λ a. answer_meant a ≡ answer store (operation_of part.now)) }
        ensures after { (store : Meaning) → HoldsStore self.old store
            → OnOk result (HoldsStore self.new (after store (operation_of part.now))) }
        ensures memory { (store : Meaning) → HoldsStore self.old store → OnErr result (HoldsStore self.new store) }
    {
        run_on(alloc, &mut self.table, part)
    }
}

// Does a part in a table.
fn run_on(alloc: Global, table: &mut Table, part: &Part<'_>) -> Result<ByteAnswer, Memory>
    ensures answer { IfOk result (λ a. answer_meant a
        ≡ answer_on (table_bytes part.now.key.now table.old.entries) (operation_of part.now)) }
    ensures after { OnOk result
        (HasDone part.now.key.now (operation_of part.now) table.old.entries table.new.entries) }
    ensures memory { OnErr result (HasKept table.old.entries table.new.entries) }
{
    if let Some(setting) = part.op.setting() {
        return set_as(alloc, table, part.key, part.value, setting);
    }
    match part.op {
        PartOp::Get => copied(alloc, table, part.key),
        PartOp::Append => match append(alloc, table, part.key, part.value)? {
            Some(length) => Ok(ByteAnswer::Length(length)),
            None => Ok(ByteAnswer::TooLong),
        },
        PartOp::Del => Ok(ByteAnswer::Did(remove(table, part.key))),
        PartOp::Exists => Ok(ByteAnswer::Did(contains(table, part.key))),
        PartOp::StrLen => Ok(ByteAnswer::Length(bytes_of(table, part.key).len() as u64)),
        PartOp::GetRange { start, end } => range_copied(alloc, table, part.key, start, end),
        _ => unreachable!(),
    }
}

// Sets a key where the setting says so. Asked for it, it answers what the key had before.
fn set_as(
    alloc: Global,
    table: &mut Table,
    key: &[u8],
    value: &[u8],
    setting: Setting,
) -> Result<ByteAnswer, Memory>
    ensures answer { IfOk result (λ a. answer_meant a
        ≡ answer_on (table_bytes key.now table.old.entries) (set_by setting key.now value.now)) }
    ensures after { OnOk result
        (HasDone key.now (set_by setting key.now value.now) table.old.entries table.new.entries) }
    ensures memory { OnErr result (HasKept table.old.entries table.new.entries) }
{
    let stores = setting.when.stores(contains(table, key));
    let answer = match (setting.asks, stores) {
        (true, _) => copied(alloc, table, key)?,
        (false, true) => ByteAnswer::Done,
        (false, false) => ByteAnswer::Null,
    };
    if stores {
        put(alloc, table, key, value)?;
    }
    Ok(answer)
}

// A copy of a key's value.
fn copied(alloc: Global, table: &Table, key: &[u8]) -> Result<ByteAnswer, Memory>
    ensures { IfOk result (λ a. answer_meant a ≡ found (table_bytes key.now table.now.entries)) }
{
    match get(table, key) {
        Some(value) => Ok(ByteAnswer::Bulk(Bytes::from_slice(alloc, value.as_slice())?)),
        None => Ok(ByteAnswer::Null),
    }
}

// The bytes of a key's value; a missing key has none.
fn bytes_of<'a>(table: &'a Table, key: &[u8]) -> &'a [u8]
    ensures { result.now ≡ model.bytes_of (table_bytes key.now table.now.entries) }
{
    match get(table, key) {
        Some(value) => value.as_slice(),
        None => &[],
    }
}

// A copy of the bytes of a key's value from one place to another.
fn range_copied(
    alloc: Global,
    table: &Table,
    key: &[u8],
    start: i64,
    end: i64,
) -> Result<ByteAnswer, Memory>
    ensures { IfOk result (λ a. answer_meant a
        ≡ value (range_of (model.bytes_of (table_bytes key.now table.now.entries)) start end)) }
{
    let bytes = bytes_of(table, key);
    let Span { from, len } = span(bytes.len() as u64, start, end);
    let from = from as usize;
    let bytes = &bytes[from..from + len as usize];
    Ok(ByteAnswer::Bulk(Bytes::from_slice(alloc, bytes)?))
}
