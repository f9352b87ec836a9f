//! The database map as it is kept.
ghost use Rattle.std.specs.Prelude.{◌≡◌, ◌<◌, ◌+◌, ◌^◌, ◌↔◌, IsTrue, IfOk, OnOk, OnErr, IfSome, length, vec_len};
ghost use Rattle.std.specs.Option.{option_copied};
ghost use Rattle.std.specs.FinMap as map;
ghost use Rattle.erm_model.specs.Database.{value_at, at, AreFound, IsNextAt, entries_of, AscendByKey};

use crate::{Key, Pairs, Value};
use std::alloc::{AllocError, Global};
use std::collections::BTreeMap;
use std::marker::Model;

/// A key with its value.
#[derive(Drop)]
pub struct Pair {
    pub key: Key,
    pub value: Value,
}

/// The database map: values by table and key. Contracts see a finite map.
#[derive(Drop)]
pub struct Map {
    entries: BTreeMap<Key, Value>,
}

impl Model for Map {
    ghost use Rattle.std.specs.Coded.{coded_list, coded_ℕ};
    ghost use Rattle.std.specs.FinMap as map;
    ghost use Rattle.erm_model.specs.Database.{Database, key_code};

    ghost Value = { Database };

    ghost coded = { map.code key_code (coded_list coded_ℕ) };

    ghost view = { λ m. map.from_entries m.entries.entries };
}

impl Map {
    /// A map without values.
    pub fn new(alloc: Global) -> Map
        ensures { result ≡ map.empty }
    {
        Map {
            entries: BTreeMap::new(alloc),
        }
    }

    /// How many keys have a value.
    pub fn len(&self) -> usize
        ensures { result ≡ map.len self.now }
    {
        self.entries.len()
    }

    /// Whether no key has a value.
    pub fn is_empty(&self) -> bool
        ensures { IsTrue result ↔ (map.len self.now ≡ 0) }
    {
        self.len() == 0
    }

    /// The value of a key.
    pub fn get(&self, table: u8, key: u64) -> Option<&Value>
        ensures { option_copied result ≡ value_at self.now table key }
    {
        self.entries.get(&Key { table, key })
    }

    /// Sets the value of a key. An `Err` changes nothing.
    pub fn insert(&mut self, table: u8, key: u64, value: Value) -> Result<(), AllocError>
        ensures ok { OnOk result (self.new ≡ map.insert self.old (at table key) value) }
        ensures err { OnErr result (self.new ≡ self.old) }
    {
        self.entries.insert(Key { table, key }, value)?;
        Ok(())
    }

    /// The same map once more.
    pub fn copy(&self) -> Result<Map, AllocError>
        ensures { IfOk result (λ copy. copy ≡ self.now) }
    {
        Ok(Map {
            entries: self.entries.clone()?,
        })
    }

    /// Takes the value of a key away.
    pub fn remove(&mut self, table: u8, key: u64)
        ensures { self.new ≡ map.remove self.old (at table key) }
    {
        self.entries.remove(&Key { table, key });
    }

    /// The keys that have a value, with their values, ascending by table and then by key.
    pub fn pairs(&self, alloc: Global) -> Result<Vec<Pair>, AllocError>
        ensures ascending { IfOk result (λ pairs. AscendByKey pairs.items) }
        ensures all { IfOk result (λ pairs. map.from_entries (entries_of pairs.items) ≡ self.now) }
    {
        let mut pairs = Vec::with_capacity(alloc, self.len())?;
        for (key, value) in &self.entries {
            pairs.push(Pair {
                key: *key,
                value: value.copied(),
            })?;
        }
        Ok(pairs)
    }

    /// The least key of a table at or above `from` that has a value, with the value.
    pub fn next(&self, table: u8, from: u64) -> Option<(u64, Value)>
        ensures { IsNextAt self.now table from result }
    {
        let first = Key { table, key: from };
        let last = Key {
            table,
            key: u64::MAX,
        };
        let (key, value) = self.entries.range(first..=last).next()?;
        Some((key.key, value.copied()))
    }

    /// The keys of a table from `low` to `high`, these two too, that have a value, ascending, with their values.
    pub fn found(&self, alloc: Global, table: u8, low: u64, high: u64) -> Result<Pairs, AllocError>
        ensures { IfOk result (λ found. AreFound self.now table low high found) }
    {
        let mut found = Vec::new(alloc);
        if low > high {
            return Ok(Pairs::new(found));
        }
        let first = Key { table, key: low };
        let last = Key { table, key: high };
        for (key, value) in self.entries.range(first..=last) {
            found.push((key.key, value.copied()))?;
        }
        Ok(Pairs::new(found))
    }
}
