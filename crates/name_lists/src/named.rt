//! `NamedLists`: lists of numbers, one for each name that has one.
ghost use Rattle.std.specs.Prelude.{◌≡◌, ◌<◌, [], IfOk, None, OnOk, get_or, length};
ghost use Rattle.name_lists.specs.Lists.{HaveLists, IsAdded, place_of};

use crate::Lists;
use hash_key::HashKey;
use indexmap::IndexMap;
use owl_axioms::Name;
use rel_io::{Dup, NoMemory};
use std::alloc::Global;
use std::marker::Model;

/// A list of numbers for each name that has one: seen as the lists in the order in which their names came, and the place
/// of each name's list.
#[derive(Drop)]
pub struct NamedLists {
    alloc: Global,
    places: IndexMap<Name, usize, HashKey>,
    lists: Lists,
}

impl Model for NamedLists {
    ghost use Rattle.name_lists.specs.Lists.{HaveLists, NamedState};

    ghost Value = { NamedState };

    ghost view = { λ n. record { places = n.places.entries; lists = n.lists } };

    ghost invariant = { λ n. HaveLists (record { places = n.places.entries; lists = n.lists }) };
}

impl NamedLists {
    /// No name has a list.
    pub fn new(alloc: Global, hash_key: HashKey) -> Result<NamedLists, NoMemory>
        ensures lists { IfOk result (λ n. n.lists ≡ []) }
        ensures none { IfOk result (λ n. (name : Name) → place_of n name ≡ None) }
    {
        let lists = Lists::new(alloc, 0)?;
        Ok(NamedLists {
            alloc,
            places: IndexMap::with_hasher(alloc, hash_key),
            lists,
        })
    }

    /// The key with which its table hashes.
    pub fn hash_key(&self) -> HashKey {
        *self.places.hasher()
    }

    /// How many names have a list.
    pub fn len(&self) -> usize
        ensures { result ≡ length self.now.lists }
    {
        self.lists.len()
    }

    /// The place of the list of a name, if it has one.
    pub fn place(&self, name: &Name) -> Option<usize>
        ensures place { result ≡ place_of self.now name.now }
        ensures have { HaveLists self.now }
    {
        match self.places.get(name) {
            Some(at) => Some(*at),
            None => None,
        }
    }

    /// The list at a place.
    pub fn get(&self, at: usize) -> &[u64]
        requires { at < length self.now.lists }
        ensures { result.now ≡ get_or self.now.lists at [] }
    {
        self.lists.get(at)
    }

    /// Adds a number at the end of the list of a name, which it gets if it has none.
    pub fn add(&mut self, name: &Name, number: u64) -> Result<(), NoMemory>
        ensures added { OnOk result (IsAdded self.old name.now number self.new) }
        ensures have { HaveLists self.old }
    {
        match self.place(name) {
            Some(at) => self.lists.add(at, number),
            None => {
                let name = name.copy(self.alloc)?;
                let at = self.lists.len();
                self.lists.add_list(number)?;
                self.places.insert(name, at)?;
                Ok(())
            }
        }
    }
}
