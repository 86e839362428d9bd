//! A list that is kept as the lists of which it was put together.
ghost use Rattle.std.specs.Prelude.{◌≡◌, ◌++◌, [], IfOk, OnOk, flat_map};

use std::alloc::{AllocError, Global};
use std::marker::Model;

// A list of at most so many elements is appended to the one before it.
const FEW: usize = 16;

/// A list, kept as the lists of which it was put together, so that a long list is added without a
/// move of its elements. Contracts see the elements in their order.
#[derive(Drop)]
pub struct Lists<T: Drop> {
    lists: Vec<Vec<T>>,
}

impl<T: Drop> Model for Lists<T> {
    ghost use Rattle.std.specs.Prelude.{List, flat_map};

    ghost Value = { List T };

    ghost view = { λ l. flat_map (λ v. v.items) l.lists.items };
}

impl<T: Drop> Lists<T> {
    /// A list without elements. It allocates nothing.
    pub fn new(alloc: Global) -> Lists<T>
        ensures { result ≡ [] }
    {
        Lists {
            lists: Vec::new(alloc),
        }
    }

    /// The elements of one list.
    ///
    /// # Errors
    ///
    /// `AllocError` if memory runs out.
    pub fn of(alloc: Global, list: Vec<T>) -> Result<Lists<T>, AllocError>
        ensures { IfOk result (λ lists. lists ≡ list.items) }
    {
        let mut lists = Lists::new(alloc);
        lists.add(list)?;
        Ok(lists)
    }

    /// Adds the elements of a list behind those before. A few are moved; more stay where they are.
    ///
    /// # Errors
    ///
    /// `AllocError` if memory runs out. Elements may be lost then.
    pub fn add(&mut self, mut list: Vec<T>) -> Result<(), AllocError>
        ensures { OnOk result (self.new ≡ self.old ++ list.items) }
    {
        if list.is_empty() {
            return Ok(());
        }
        if list.len() <= FEW
            && let Some(mut last) = self.lists.pop()
        {
            last.append(&mut list)?;
            list = last;
        }
        self.lists.push(list)?;
        Ok(())
    }

    /// The lists of which it is put together, in their order.
    pub fn as_lists(&self) -> &[Vec<T>]
        ensures { flat_map (λ v. v.items) result.now ≡ self.now }
    {
        &self.lists
    }

    /// The same, given away.
    pub fn into_lists(self) -> Vec<Vec<T>>
        ensures { flat_map (λ v. v.items) result.items ≡ self }
    {
        let Lists { lists } = self;
        lists
    }

    /// The elements in one list. The first of its lists takes those of the others.
    ///
    /// # Errors
    ///
    /// `AllocError` if memory runs out.
    pub fn into_one(self, alloc: Global) -> Result<Vec<T>, AllocError>
        ensures { IfOk result (λ list. list.items ≡ self) }
    {
        let mut all = Vec::new(alloc);
        for mut list in self.lists {
            if all.is_empty() {
                all = list;
            } else {
                all.append(&mut list)?;
            }
        }
        Ok(all)
    }
}
