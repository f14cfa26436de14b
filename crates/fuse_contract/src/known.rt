//! References that are known to lie within their arrays.
ghost use Rattle.std.specs.Prelude.{◌≡◌, ◌∷◌, ◌++◌, [], OnOk, List, nat_eq};
ghost use Rattle.std.specs.List.{list_any};
ghost use Rattle.temp_norm.specs.of_node_form.declared.arrays.Item.{Item as Place};
ghost use Rattle.temp_norm.specs.of_node_form.Value.{unmoved};
ghost use Rattle.temp_norm.specs.of_code_parts.Uses.{is_item};
ghost use Rattle.fuse_contract.specs.Fusing.{reference, without_array, without_slots};
ghost use Rattle.fuse_contract.specs.Known.{IsKnown, is_since, known_after, or_never};
ghost use Rattle.indexmap.specs.IndexMap.{get};

use indexmap::IndexMap;
use std::alloc::{AllocError, Global};
use temp_norm::node_form::{Instr, Item, Rows};
use zpl_region::Vec3;

/// A reference, as it is told from others.
#[derive(Clone, Copy, PartialEq, Eq, Hash)]
pub(crate) struct Reference {
    pub array: u32,
    pub slot: u32,
    pub shift: Vec3,
}

/// References that are known. Each is noted with the time at which it was learned, by a clock that
/// goes on where something is forgotten; and so is when what was known of a slot or an array was
/// forgotten. So nothing is looked for to be taken out.
#[derive(Drop)]
pub(crate) struct Known {
    pub references: IndexMap<Reference, u64>,
    pub slots: IndexMap<u32, u64>,
    pub arrays: IndexMap<u32, u64>,
    pub time: u64,
}

impl Known {
    /// None. It takes no memory.
    pub(crate) fn new(alloc: Global) -> Known
        ensures { IsKnown result [] }
    {
        Known {
            references: IndexMap::new(alloc),
            slots: IndexMap::new(alloc),
            arrays: IndexMap::new(alloc),
            time: 0,
        }
    }

    /// Whether the reference is known.
    pub(crate) fn knows(&self, item: Item) -> bool
        ensures { (items : List Place) → IsKnown self.now items →
            result ≡ list_any (is_item item) items }
    {
        let Item { array, slot, shift } = item;
        let learned = self
            .references
            .get(&Reference { array, slot, shift })
            .copied();
        is_since(
            learned,
            forgotten(&self.slots, slot),
            forgotten(&self.arrays, array),
        )
    }

    fn learn(&mut self, item: Item) -> Result<(), AllocError>
        ensures { OnOk result ((items : List Place) → IsKnown self.old items →
            IsKnown self.new (item ∷ items)) }
    {
        let Item { array, slot, shift } = item;
        let time = self.time;
        self.references
            .insert(Reference { array, slot, shift }, time)?;
        Ok(())
    }

    /// Learns all of these.
    pub(crate) fn learn_all(&mut self, references: &Rows<Item>) -> Result<(), AllocError>
        ensures { OnOk result ((items : List Place) → IsKnown self.old items →
            IsKnown self.new (references.now ++ items)) }
    {
        for i in 0..references.len() {
            self.learn(*references.get(i).unwrap())?;
        }
        Ok(())
    }

    fn forget_slot(&mut self, slot: u32) -> Result<(), AllocError>
        ensures { OnOk result ((items : List Place) → IsKnown self.old items →
            IsKnown self.new (without_slots (slot ∷ []) items)) }
    {
        let time = self.time.checked_add(1).ok_or(AllocError)?;
        self.slots.insert(slot, time)?;
        self.time = time;
        Ok(())
    }

    fn forget_array(&mut self, array: u32) -> Result<(), AllocError>
        ensures { OnOk result ((items : List Place) → IsKnown self.old items →
            IsKnown self.new (without_array array items)) }
    {
        let time = self.time.checked_add(1).ok_or(AllocError)?;
        self.arrays.insert(array, time)?;
        self.time = time;
        Ok(())
    }

    /// Learns and forgets what a row says that is no loop.
    pub(crate) fn pass(&mut self, alloc: Global, row: Instr) -> Result<(), AllocError>
        ensures { OnOk result ((items : List Place) → IsKnown self.old items →
            IsKnown self.new (known_after items row)) }
    {
        match row {
            Instr::Need {
                slot,
                array,
                shift,
                ..
            } => self.learn(Item { array, slot, shift }),
            Instr::Room { array, slot } => self.learn_room(array, slot),
            Instr::Fix { slot, .. } => self.forget_slot(slot),
            Instr::Dims { slot, .. } => self.forget_slot(slot),
            Instr::Formed { slot, .. } => self.forget_slot(slot),
            Instr::Jump { .. } => self.forget_all(alloc),
            Instr::Unless { .. } => self.forget_all(alloc),
            Instr::Trap { .. } => self.forget_all(alloc),
            Instr::End => self.forget_all(alloc),
            _ => Ok(()),
        }
    }

    fn learn_room(&mut self, array: u32, slot: u32) -> Result<(), AllocError>
        ensures { OnOk result ((items : List Place) → IsKnown self.old items →
            IsKnown self.new (reference slot array unmoved ∷ without_array array items)) }
    {
        self.forget_array(array)?;
        self.learn(Item {
            array,
            slot,
            shift: [0, 0, 0],
        })
    }

    fn forget_all(&mut self, alloc: Global) -> Result<(), AllocError>
        ensures { OnOk result (IsKnown self.new []) }
    {
        *self = Known::new(alloc);
        Ok(())
    }
}

// When what was known of a slot or of an array was forgotten last.
fn forgotten(times: &IndexMap<u32, u64>, number: u32) -> u64
    ensures { result ≡ or_never (get nat_eq times.now number) }
{
    times.get(&number).copied().unwrap_or(0)
}

fn is_since(learned: Option<u64>, slot: u64, array: u64) -> bool
    ensures { result ≡ is_since learned slot array }
{
    match learned {
        Some(time) => slot <= time && array <= time,
        None => false,
    }
}
