//! Distinct names in order. Whose names they are, and which texts may be names, is not known here.

ghost use Rattle.std.specs.Prelude.{◌≡◌, ◌-◌, ◌<◌, ◌^◌, ◌++◌, ◌∷◌, [], false, length, slice_get, slice_index_or, string_bytes, option_copied, IfOk, IfErr, OnOk, OnErr};
ghost use Rattle.definitions.specs.Texts.{has_name, name_index};
ghost use Rattle.quota_sets.specs.NameList.{AreNames};
ghost use Rattle.quota_sets.specs.Refusals.{refused_name, is_repeated};

use crate::NoMemory;
use indexmap::IndexSet;
use std::alloc::Global;
use std::marker::Model;
use std::str;

/// A list of distinct names in the order in which they were added, found by name or by place.
///
/// Places count from 0. A contract sees the list of the names, each as its bytes.
#[derive(Debug, Drop)]
pub struct Names {
    set: IndexSet<String>,
}

impl Model for Names {
    ghost use Rattle.std.specs.Prelude.{List, ℕ, map, string_bytes};
    ghost use Rattle.quota_sets.specs.NameList.{AreNames};

    ghost Value = { List (List ℕ) };

    ghost view = { λ n. map string_bytes n.set.keys };

    ghost invariant = { λ n. AreNames (map string_bytes n.set.keys) };
}

/// Why a name was not added, with the name.
#[derive(Debug, Drop)]
pub enum NameFault {
    /// The name is there already.
    Repeated(String),
    /// Memory was refused, or the places below 2^32 − 1 are all taken.
    NoMemory(String),
}

impl Names {
    /// No names. The list grows by `alloc`.
    pub fn new(alloc: Global) -> Names
        ensures { result ≡ [] }
    {
        Names {
            set: IndexSet::new(alloc),
        }
    }

    /// Adds a name at the end and answers its place. A name that is there already is refused as
    /// `Repeated`, any other refusal is `NoMemory`; both hand the name back and leave the list.
    pub fn add(&mut self, name: String) -> Result<u32, NameFault>
        ensures place { IfOk result (λ place. place ≡ length self.old) }
        ensures absent { OnOk result (has_name self.old (string_bytes name) ≡ false) }
        ensures added { OnOk result (self.new ≡ self.old ++ string_bytes name ∷ []) }

        ensures unchanged { OnErr result (self.new ≡ self.old) }
        ensures handed_back { IfErr result (λ e. refused_name e ≡ name) }
        ensures repeated { IfErr result (λ e. is_repeated e
            ≡ has_name self.old (string_bytes name)) }
    {
        if self.set.contains(name.as_str()) {
            return Err(NameFault::Repeated(name));
        }
        let count = self.set.len();
        if count >= u32::MAX as usize {
            return Err(NameFault::NoMemory(name));
        }
        let place = count as u32;
        if let Err(refused) = self.set.insert_full(name) {
            return Err(NameFault::NoMemory(refused.value));
        }
        Ok(place)
    }

    /// Adds a copy of a name at the end.
    pub fn add_copy(&mut self, name: &str) -> Result<(), NoMemory>
        requires fresh { has_name self.old name.now ≡ false }
        requires room { length self.old < 2 ^ 32 - 1 }
        ensures ok { OnOk result (self.new ≡ self.old ++ name.now ∷ []) }
        ensures err { OnErr result (self.new ≡ self.old) }
    {
        let alloc = *self.set.allocator();
        let copy = String::from_str(alloc, name)?;
        self.set.insert_full(copy)?;
        Ok(())
    }

    /// The place of a name, or `None` where it is not there.
    pub fn find(&self, name: &str) -> Option<u32>
        ensures value { result ≡ name_index self.now name.now }
        ensures lawful { AreNames self.now }
    {
        let place = self.set.get_index_of(name)?;
        Some(place as u32)
    }

    /// The place of the name with these bytes, or `None` where it is not there. Bytes that are not
    /// UTF-8 are no name.
    pub fn find_bytes(&self, bytes: &[u8]) -> Option<u32>
        ensures value { result ≡ name_index self.now bytes.now }
        ensures lawful { AreNames self.now }
    {
        let set = &self.set;
        let Ok(name) = str::from_utf8(bytes) else {
            return None;
        };
        let place = set.get_index_of(name)?;
        Some(place as u32)
    }

    /// The name at a place, or `None` past the end.
    pub fn at(&self, index: u32) -> Option<&str>
        ensures value { option_copied result ≡ slice_get self.now index }
        ensures lawful { AreNames self.now }
    {
        let name = self.set.get_index(index as usize)?;
        Some(name.as_str())
    }

    /// The name at a place, and an empty one past the end.
    pub fn name_at(&self, place: u32) -> &str
        ensures { result.now ≡ slice_index_or self.now place [] }
    {
        match self.at(place) {
            Some(name) => name,
            None => "",
        }
    }

    /// How many names there are.
    pub fn len(&self) -> u32
        ensures value { result ≡ length self.now }
        ensures lawful { AreNames self.now }
    {
        self.set.len() as u32
    }
}
