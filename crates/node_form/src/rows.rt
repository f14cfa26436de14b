//! The lists of a program's tables, and rows that are lists themselves.
ghost use Rattle.std.specs.Prelude.{◌≡◌, ◌<◌, ◌≤◌, ◌↔◌, [], ◌∷◌, ◌++◌, length, IsNone, OnOk, OnErr};
ghost use Rattle.std.specs.Prelude.{slice_get, slice_set};
ghost use Rattle.std.specs.Option.{option_copied};

use std::alloc::{AllocError, Global};
use std::marker::Model;

/// A list of a program's tables, which grows at its end, and whose rows can be changed in place.
/// Contracts see it as the list of its rows.
#[derive(Debug, Drop)]
pub struct Rows<T> {
    rows: Vec<T>,
}

impl<T> Model for Rows<T> {
    ghost use Rattle.std.specs.Prelude.{List};

    ghost Value = { List T };

    ghost view = { λ list. list.rows.items };
}

impl<T> Rows<T> {
    /// The empty list. It takes no memory before the first `push`.
    pub fn new(alloc: Global) -> Rows<T>
        ensures { result ≡ [] }
    {
        Rows {
            rows: Vec::new(alloc),
        }
    }

    /// The list of the vector's rows. It takes no memory.
    pub fn of(rows: Vec<T>) -> Rows<T>
        ensures { result ≡ rows.items }
    {
        Rows { rows }
    }

    /// Appends a row, in memory of the list's own allocator. For want of memory the row is dropped.
    pub fn push(&mut self, _alloc: Global, row: T) -> Result<(), AllocError>
    where
        T: Drop,
        ensures appended { OnOk result (self.new ≡ self.old ++ row ∷ []) }
        ensures unchanged { OnErr result (self.new ≡ self.old) }
    {
        self.rows.push(row)?;
        Ok(())
    }

    /// Puts a row in the place of the one of that number, counted from 0.
    pub fn set(&mut self, i: u64, row: T)
    where
        T: Copy,
        requires { i < length self.old }
        ensures { self.new ≡ slice_set self.old i row }
    {
        self.rows[i as usize] = row;
    }

    /// How many rows there are.
    pub fn len(&self) -> u64
        ensures { result ≡ length self.now }
    {
        self.rows.len() as u64
    }

    /// The row of that number, counted from 0; `None` from the length on.
    pub fn get(&self, i: u64) -> Option<&T>
        ensures row { option_copied result ≡ slice_get self.now i }
        ensures none { IsNone result ↔ (length self.now ≤ i) }
    {
        self.rows.get(i as usize)
    }

    /// All rows.
    pub(crate) fn as_slice(&self) -> &[T]
        ensures { result.now ≡ self.now }
    {
        self.rows.as_slice()
    }
}

/// A row that is a list itself, complete when it is made. Contracts see it as that list.
#[derive(Debug, Drop)]
pub struct Row<T> {
    items: Vec<T>,
}

impl<T> Model for Row<T> {
    ghost use Rattle.std.specs.Prelude.{List};

    ghost Value = { List T };

    ghost view = { λ row. row.items.items };
}

impl<T> Row<T> {
    /// The row of these items.
    pub fn of(items: Vec<T>) -> Row<T>
        ensures { result ≡ items.items }
    {
        Row { items }
    }

    /// The items of the row.
    pub fn as_slice(&self) -> &[T]
        ensures { result.now ≡ self.now }
    {
        self.items.as_slice()
    }
}
