//! Names in order, each with 32 bytes that are found by the name.

ghost use Rattle.std.specs.Prelude.{◌≡◌, [], Some, None, false, length, slice_index_or, MatchOption, OnOk, OnErr};
ghost use Rattle.definitions.specs.Texts.{has_name};
ghost use Rattle.seed_pact.specs.Said.{no_entries, with_entry, entry_of};

use quota_sets::{Names, NoMemory};
use std::alloc::Global;
use std::marker::Model;

/// Names in the order in which they were added, each with its bytes.
#[derive(Drop)]
pub(crate) struct Entries {
    names: Names,
    values: Vec<[u8; 32]>,
}

/// A name, and the bytes that stand with it.
#[derive(Clone, Copy, Drop)]
pub(crate) struct Entry<'a> {
    pub name: &'a str,
    pub value: [u8; 32],
}

impl Model for Entries {
    ghost use Rattle.std.specs.Prelude.{◌≡◌, length};
    ghost use Rattle.seed_pact.specs.Said.{EntriesValue};

    ghost Value = { EntriesValue };

    ghost view = { λ e. record { names = e.names; values = e.values.items } };

    ghost invariant = { λ e. length e.names ≡ length e.values.items };
}

impl Entries {
    pub fn new(alloc: Global) -> Entries
        ensures { result ≡ no_entries }
    {
        Entries {
            names: Names::new(alloc),
            values: Vec::new(alloc),
        }
    }

    /// How many names there are.
    pub fn len(&self) -> u32
        ensures { result ≡ length self.now.names }
    {
        self.names.len()
    }

    /// The name at a place.
    pub fn name_at(&self, place: u32) -> &str
        ensures { result.now ≡ slice_index_or self.now.names place [] }
    {
        self.names.name_at(place)
    }

    /// The entry of a name.
    #[tactic(auto, unfolding(crate::specs::Said::entry_of))]
    pub fn find(&self, name: &[u8]) -> Option<Entry<'_>>
        ensures { MatchOption result (entry_of self.now name.now ≡ None)
            (λ e. (entry_of self.now name.now ≡ Some e.value) × (e.name.now ≡ name.now)) }
    {
        let place = self.names.find_bytes(name)?;
        Some(Entry {
            name: self.names.name_at(place),
            value: self.values[place as usize],
        })
    }

    /// Adds a new name with its bytes. After `NoMemory` all is as before.
    pub fn push(&mut self, alloc: Global, name: &str, value: [u8; 32]) -> Result<(), NoMemory>
        requires { has_name self.old.names name.now ≡ false }
        ensures ok { OnOk result (self.new ≡ with_entry name.now value self.old) }
        ensures err { OnErr result (self.new ≡ self.old) }
    {
        let copy = String::from_str(alloc, name)?;
        self.values.push(value)?;
        if self.names.add(copy).is_err() {
            let _ = self.values.pop();
            return Err(NoMemory);
        }
        Ok(())
    }

    /// The names alone.
    pub fn into_names(self) -> Names
        ensures { result ≡ self.names }
    {
        let Entries { names, values: _ } = self;
        names
    }
}
