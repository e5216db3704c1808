//! `Lists`: lists of numbers, in places from 0.
ghost use Rattle.std.specs.Prelude.{◌≡◌, ◌<◌, ◌≤◌, ◌++◌, [], ◌∷◌, IfOk, OnOk, get_or, length, map, replicate};
ghost use Rattle.name_lists.specs.Lists.{list_with};

use rel_io::NoMemory;
use std::alloc::Global;
use std::marker::Model;

/// Lists of numbers: seen as the list of these lists.
#[derive(Drop)]
pub struct Lists {
    alloc: Global,
    lists: Vec<Vec<u64>>,
}

impl Model for Lists {
    ghost use Rattle.std.specs.Prelude.{ℕ, List, map};

    ghost Value = { List (List ℕ) };

    ghost view = { λ l. map (λ v. v.items) l.lists.items };
}

impl Lists {
    /// So many lists without numbers.
    pub fn new(alloc: Global, count: usize) -> Result<Lists, NoMemory>
        ensures { IfOk result (λ l. l ≡ replicate count []) }
    {
        let mut lists = Vec::new(alloc);
        for _made in 0..count {
            lists.push(Vec::new(alloc))?;
        }
        Ok(Lists { alloc, lists })
    }

    /// How many lists there are.
    pub fn len(&self) -> usize
        ensures { result ≡ length self.now }
    {
        self.lists.len()
    }

    /// The list at a place.
    pub fn get(&self, at: usize) -> &[u64]
        requires { at < length self.now }
        ensures { result.now ≡ get_or self.now at [] }
    {
        self.lists[at].as_slice()
    }

    /// Adds a number at the end of the list at a place.
    pub fn add(&mut self, at: usize, number: u64) -> Result<(), NoMemory>
        requires { at < length self.old }
        ensures added { OnOk result (self.new ≡ list_with self.old at number) }
        ensures long { length self.new ≡ length self.old }
    {
        self.lists[at].push(number)?;
        Ok(())
    }

    /// Adds a list of one number behind all others.
    pub fn add_list(&mut self, number: u64) -> Result<(), NoMemory>
        ensures added { OnOk result (self.new ≡ self.old ++ (number ∷ []) ∷ []) }
        ensures long { length self.old ≤ length self.new }
    {
        let mut list = Vec::new(self.alloc);
        list.push(number)?;
        self.lists.push(list)?;
        Ok(())
    }
}
