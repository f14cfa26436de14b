//! What is noted for numbers.
ghost use Rattle.std.specs.Prelude.{◌≡◌, ◌∷◌, ℕ, [], OnOk, flat_map};
ghost use Rattle.plan_form.specs.of_code_parts.Uses.{arrays_of_items, put_by};
ghost use Rattle.last_writes.specs.Last.{AreNoted, noted};

use plan_form::node_form::{Item, Member};
use std::alloc::{AllocError, Global};
use std::collections::HashMap;

/// For each number what was noted for it last, and 0 for one without.
#[derive(Drop)]
pub struct Noted {
    pub values: HashMap<u64, u64>,
}

impl Noted {
    /// Nothing is noted. It takes no memory.
    pub fn new(alloc: Global) -> Noted
        ensures { (number : ℕ) → noted result number ≡ 0 }
    {
        Noted {
            values: HashMap::new(alloc),
        }
    }

    /// What was noted last for a number, or 0.
    pub fn of(&self, number: u64) -> u64
        ensures { result ≡ noted self.now number }
    {
        self.values.get(&number).copied().unwrap_or(0)
    }

    /// Notes a value for a number.
    pub fn note(&mut self, number: u64, value: u64) -> Result<(), AllocError>
        ensures { OnOk result (AreNoted self.old (number ∷ []) value self.new) }
    {
        self.values.insert(number, value)?;
        Ok(())
    }

    /// Notes a value for each array that one of the members puts.
    pub fn note_puts(&mut self, members: &[Member], value: u64) -> Result<(), AllocError>
        ensures { OnOk result (AreNoted self.old (flat_map put_by members.now) value self.new) }
    {
        for member in members {
            self.note_put(member, value)?;
        }
        Ok(())
    }

    fn note_put(&mut self, member: &Member, value: u64) -> Result<(), AllocError>
        ensures { OnOk result (AreNoted self.old (put_by member.now) value self.new) }
    {
        match *member {
            Member::Put { array, .. } => self.note(u64::from(array), value),
            _ => Ok(()),
        }
    }

    /// Notes a value for the array of each item.
    pub fn note_items(&mut self, items: &[Item], value: u64) -> Result<(), AllocError>
        ensures { OnOk result (AreNoted self.old (arrays_of_items items.now) value self.new) }
    {
        for item in items {
            self.note(u64::from(item.array), value)?;
        }
        Ok(())
    }
}
