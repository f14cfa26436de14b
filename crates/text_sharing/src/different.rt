//! Different texts, and where each stands among them.
ghost use Rattle.std.specs.Prelude.{◌≡◌, IfOk, OnOk, []};
ghost use Rattle.text_sharing.specs.Shared.{different, number_of, with_text};
ghost use Rattle.text_sharing.specs.Numbered.{IsNumbered};

use flat_form::node_form::{Row, Rows, Texts};
use std::alloc::{AllocError, Global};
use std::collections::HashMap;

/// Texts of which no two are equal, in the order in which they were added.
#[derive(Drop)]
pub struct Different<'a> {
    /// The texts.
    pub texts: Texts,
    /// The number of each of them.
    pub numbers: HashMap<&'a [u8], u32>,
}

impl<'a> Different<'a> {
    /// No texts. They take no memory.
    fn new(alloc: Global) -> Different<'a>
        ensures none { result.texts ≡ [] }
        ensures numbered { IsNumbered result }
    {
        Different {
            texts: Rows::new(alloc),
            numbers: HashMap::new(alloc),
        }
    }

    /// Adds a text, unless it is there already.
    fn add(&mut self, alloc: Global, text: &'a [u8]) -> Result<(), AllocError>
        requires { IsNumbered self.old }
        ensures added { OnOk result (self.new.texts ≡ with_text self.old.texts text.entry.now) }
        ensures numbered { OnOk result (IsNumbered self.new) }
    {
        if !self.numbers.contains_key(text) {
            let number = row_number(self.texts.len())?;
            let copy = Row::of(Vec::from_slice(alloc, text)?);
            self.texts.push(alloc, copy)?;
            self.numbers.insert(text, number)?;
        }
        Ok(())
    }

    /// The number of a text.
    pub fn find(&self, text: &[u8]) -> Option<u32>
        requires { IsNumbered self.now }
        ensures { result ≡ number_of self.now.texts text.now }
    {
        self.numbers.get(text).copied()
    }
}

/// The number of a row behind so many others, which has to have room in a row.
fn row_number(rows: u64) -> Result<u32, AllocError>
    ensures { IfOk result (λ number. number ≡ rows) }
{
    u32::try_from(rows).map_err(|_| AllocError)
}

/// The different ones of texts, in the order in which each first stands there.
pub fn different_of<'a>(alloc: Global, texts: &'a Texts) -> Result<Different<'a>, AllocError>
    ensures texts { IfOk result (λ found. found.texts ≡ different texts.now) }
    ensures numbered { IfOk result (λ found. IsNumbered found) }
{
    let mut found = Different::new(alloc);
    for i in 0..texts.len() {
        found.add(alloc, texts.get(i).unwrap().as_slice())?;
    }
    Ok(found)
}
