//! The values of a table of TOML, each by its key.

use crate::fault::CaseFault;
use std::alloc::Global;
use toml::{Table, Value};

/// The keys of a table, or of one that isn't given and has none.
#[derive(Clone, Copy)]
pub struct Keys<'a> {
    alloc: Global,
    table: Option<&'a Table>,
}

impl<'a> Keys<'a> {
    /// The keys of a table that has the needed ones and, besides, no others than the optional ones.
    pub fn of(
        alloc: Global,
        table: &'a Table,
        needed: &[&str],
        optional: &[&str],
    ) -> Result<Self, CaseFault> {
        for key in needed {
            if !table.contains_key(*key) {
                return Err(CaseFault::KeyMissing(String::from_str(alloc, key)?));
            }
        }
        for key in table.keys() {
            if !needed.contains(&key.as_str()) && !optional.contains(&key.as_str()) {
                return Err(CaseFault::KeyUnknown(key.clone()?));
            }
        }
        Ok(Keys {
            alloc,
            table: Some(table),
        })
    }

    /// The keys of a value that is such a table; `name` says what it is.
    pub fn of_value(
        alloc: Global,
        name: &str,
        value: &'a Value,
        needed: &[&str],
        optional: &[&str],
    ) -> Result<Self, CaseFault> {
        match value.as_table() {
            Some(table) => Keys::of(alloc, table, needed, optional),
            None => Err(wrong_type(alloc, name)),
        }
    }

    /// The allocator that faults are named with.
    pub fn alloc(&self) -> Global {
        self.alloc
    }

    /// The keys of the table at a key, among these; no keys if it isn't given.
    pub fn below(&self, key: &str, needed: &[&str], optional: &[&str]) -> Result<Self, CaseFault> {
        match self.table(key)? {
            Some(table) => Keys::of(self.alloc, table, needed, optional),
            None => Ok(Keys {
                alloc: self.alloc,
                table: None,
            }),
        }
    }

    /// The value at a key.
    pub fn value(&self, key: &str) -> Option<&'a Value> {
        match self.table {
            Some(table) => table.get(key),
            None => None,
        }
    }

    /// The text at a key.
    pub fn text(&self, key: &str) -> Result<Option<&'a str>, CaseFault> {
        match self.value(key) {
            Some(value) => self.typed(key, value.as_str()),
            None => Ok(None),
        }
    }

    /// The whole number at a key.
    pub fn integer(&self, key: &str) -> Result<Option<i64>, CaseFault> {
        match self.value(key) {
            Some(value) => self.typed(key, value.as_integer()),
            None => Ok(None),
        }
    }

    /// The whole number at a key, if it isn't below 0.
    pub fn natural(&self, key: &str) -> Result<Option<u64>, CaseFault> {
        match self.value(key) {
            Some(value) => self.typed(key, natural_of(value)),
            None => Ok(None),
        }
    }

    /// The table at a key.
    pub fn table(&self, key: &str) -> Result<Option<&'a Table>, CaseFault> {
        match self.value(key) {
            Some(value) => self.typed(key, value.as_table()),
            None => Ok(None),
        }
    }

    /// The list at a key; an empty one if it isn't given.
    pub fn list(&self, key: &str) -> Result<&'a [Value], CaseFault> {
        match self.value(key) {
            Some(value) => list_of(self.alloc, key, value),
            None => Ok(&[]),
        }
    }

    /// The list at a key; `None` if it isn't given.
    pub fn given_list(&self, key: &str) -> Result<Option<&'a [Value]>, CaseFault> {
        match self.value(key) {
            Some(value) => Ok(Some(list_of(self.alloc, key, value)?)),
            None => Ok(None),
        }
    }

    // What a value was found to be, and a fault if it has another type.
    fn typed<T: Copy>(&self, key: &str, found: Option<T>) -> Result<Option<T>, CaseFault> {
        match found {
            Some(value) => Ok(Some(value)),
            None => Err(wrong_type(self.alloc, key)),
        }
    }
}

/// The items of a value that is a list; `name` says what it is.
pub fn list_of<'a>(alloc: Global, name: &str, value: &'a Value) -> Result<&'a [Value], CaseFault> {
    match value.as_array() {
        Some(items) => Ok(items),
        None => Err(wrong_type(alloc, name)),
    }
}

/// The texts of a list; `name` says what it is.
pub fn texts_of(alloc: Global, name: &str, values: &[Value]) -> Result<Vec<String>, CaseFault> {
    let mut texts = Vec::new(alloc);
    for value in values {
        texts.push(text_of(alloc, name, value)?)?;
    }
    Ok(texts)
}

// The text that a value is; `name` says what it is.
fn text_of(alloc: Global, name: &str, value: &Value) -> Result<String, CaseFault> {
    match value.as_str() {
        Some(text) => Ok(String::from_str(alloc, text)?),
        None => Err(wrong_type(alloc, name)),
    }
}

/// The numbers of a list; `name` says what it is.
pub fn numbers_of(alloc: Global, name: &str, values: &[Value]) -> Result<Vec<u64>, CaseFault> {
    let mut numbers = Vec::new(alloc);
    for value in values {
        numbers.push(number_of(alloc, name, value)?)?;
    }
    Ok(numbers)
}

// The whole number that a value is, if it isn't below 0.
fn natural_of(value: &Value) -> Option<u64> {
    u64::try_from(value.as_integer()?).ok()
}

// The whole number, not below 0, that a value is; `name` says what it is.
fn number_of(alloc: Global, name: &str, value: &Value) -> Result<u64, CaseFault> {
    match natural_of(value) {
        Some(number) => Ok(number),
        None => Err(wrong_type(alloc, name)),
    }
}

/// The fault of a value that has another type than its key has.
pub fn wrong_type(alloc: Global, key: &str) -> CaseFault {
    match String::from_str(alloc, key) {
        Ok(key) => CaseFault::WrongType(key),
        Err(_) => CaseFault::NoMemory,
    }
}
