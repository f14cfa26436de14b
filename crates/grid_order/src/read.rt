//! Reading an order.
ghost use Rattle.std.specs.Prelude.{◌≡◌, ◌<◌, ◌^◌, ℕ, length, IfOk, OnOk};
ghost use Rattle.grid_order.specs.Reading.{followed_by, read_word, reading};
ghost use Rattle.grid_order.specs.declared.read.OrderFault.TheVariants.{NoMemory};

use crate::order::Order;
use crate::words::{is_gap, item_of};
use std::alloc::{AllocError, Global};

/// Why a text is no order.
#[derive(Clone, Copy, Debug, PartialEq, Eq)]
pub enum OrderFault {
    /// The item at this offset has not its form, names no processor, or gives too many turns.
    BadItem {
        /// The offset of its first byte.
        at: u32,
    },
    /// Memory was wanting.
    NoMemory,
}

impl From<AllocError> for OrderFault {
    ghost from_gives = { λ _ fault. fault ≡ NoMemory };

    fn from(_error: AllocError) -> OrderFault {
        OrderFault::NoMemory
    }
}

/// Reads an order of turns for so many processors.
///
/// Items are separated by spaces, tabs, carriage returns and newlines. The item `p` gives a turn to
/// processor `p`, the item `pxk` gives it `k` turns, of which there may be none and are at most
/// 1,000,000. Numbers are decimal, of any number of digits, with leading zeros allowed.
///
/// The memory goes by the number of items. `BadItem` tells the first wrong item.
pub fn read_order(alloc: Global, bytes: &[u8], count: u32) -> Result<Order, OrderFault>
    requires { length bytes.now < 2 ^ 32 }
    ensures read { IfOk result (λ order. reading count bytes.now ≡ Ok order) }
    ensures refused { (at : ℕ) → result ≡ Err (OrderFault.BadItem at)
        → reading count bytes.now ≡ Err at }
{
    let mut order = Order::new(alloc);
    let mut from = 0;
    for (i, byte) in bytes.iter().enumerate() {
        if is_gap(*byte) {
            add_word(&mut order, &bytes[from..i], from as u32, count)?;
            from = i + 1;
        }
    }
    add_word(&mut order, &bytes[from..], from as u32, count)?;
    Ok(order)
}

/// Adds the turns of a word that begins at this offset: none where it is empty.
fn add_word(order: &mut Order, word: &[u8], from: u32, count: u32) -> Result<(), OrderFault>
    ensures added { OnOk result
        (followed_by (Ok order.old) (read_word count from word.now) ≡ Ok order.new) }
    ensures refused { (at : ℕ) → result ≡ Err (OrderFault.BadItem at)
        → read_word count from word.now ≡ Err at }
{
    if word.is_empty() {
        return Ok(());
    }
    let Some(item) = item_of(word, count) else {
        return Err(OrderFault::BadItem { at: from });
    };
    order.push(item)?;
    Ok(())
}
