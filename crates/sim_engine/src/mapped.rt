//! Sites whose rows are mapped.
ghost use Rattle.std.specs.Prelude.{◌≡◌, ◌++◌, IfOk, OnOk, map};
ghost use Rattle.sim_engine.specs.Mapping.{KeepsRows, Mapping, mapped, mapped_conditions, with_mapper};

use crate::effects::Effects;
use crate::site::Site;
use sim_clock::{Key, Refusal};
use std::alloc::{AllocError, Global};
use std::marker::Model;
use std::mem;

/// Makes other rows of the rows of sites, which have the same keys, sites and counts. It does so on
/// the thread that made the rows.
pub trait RowMapper<S: Site>: Drop {
    /// What is made of a row.
    type New: Drop;

    // What is made of a row, and what is read from it.
    ghost mapping: { Mapping Self S.Row Self.New };

    /// Makes the new row of a row. Contracts see no change in the mapper.
    ///
    /// # Errors
    ///
    /// `AllocError` if memory runs out.
    fn map(&mut self, row: &S::Row) -> Result<Self::New, AllocError>
        ensures made { IfOk result (λ new. new ≡ mapping.made self.old row.now) }
        ensures same { self.new ≡ self.old };

    /// The key of the handling that made a row.
    fn key(new: &Self::New) -> Key
        ensures { result ≡ mapping.key new.now };

    /// The number of the site at which a row was made.
    fn site(new: &Self::New) -> u32
        ensures { result ≡ mapping.site new.now };

    // Keys, sites and counts of rows stay as they are.
    ghost keeps: { KeepsRows S.engine mapping };
}

/// A site whose rows are mapped by a mapper as they are made. Contracts see the site and the
/// mapper.
#[derive(Drop)]
pub struct Mapped<S: Site, M: RowMapper<S>> {
    alloc: Global,
    site: S,
    mapper: M,
    // The memory of the rows of one handling before they are mapped.
    rows: Vec<S::Row>,
}

impl<S: Site, M: RowMapper<S>> Model for Mapped<S, M> {
    ghost use Rattle.std.specs.Prelude.{◌≡◌, []};
    ghost use Rattle.sim_engine.specs.Mapping.{MappedSite, with_mapper};

    ghost Value = { MappedSite S M };

    ghost view = { λ m. with_mapper m.mapper m.site };

    ghost invariant = { λ m. m.rows.items ≡ [] };
}

impl<S: Site, M: RowMapper<S>> Mapped<S, M> {
    /// A site with a mapper.
    pub fn new(alloc: Global, site: S, mapper: M) -> Mapped<S, M>
        ensures { result ≡ with_mapper mapper site }
    {
        Mapped {
            alloc,
            site,
            mapper,
            rows: Vec::new(alloc),
        }
    }

    /// The site without its mapper.
    pub fn into_site(self) -> S
        ensures { result ≡ self.site }
    {
        self.site
    }
}

// Maps rows, and appends the new rows to those before.
fn map_each<S: Site, M: RowMapper<S>>(
    mapper: &mut M,
    rows: &[S::Row],
    made: &mut Vec<M::New>,
) -> Result<(), AllocError>
    ensures made { OnOk result
        (made.new.items ≡ made.old.items ++ map (M.mapping.made mapper.old) rows.now) }
    ensures same { mapper.new ≡ mapper.old }
{
    for row in rows {
        let new = mapper.map(row)?;
        made.push(new)?;
    }
    Ok(())
}

impl<S: Site, M: RowMapper<S>> Site for Mapped<S, M> {
    ghost use Rattle.sim_engine.specs.Mapping.{mapped, mapped_conditions};
    ghost use Rattle.sim_engine.specs.MappingLaws.{mapped_laws};

    type Row = M::New;

    type Transfer = S::Transfer;

    ghost engine = { mapped S.engine M.mapping };

    ghost conditions = { mapped_conditions S.conditions };

    fn transfer_key(transfer: &S::Transfer) -> Key {
        S::transfer_key(transfer)
    }

    fn to(transfer: &S::Transfer) -> u32 {
        S::to(transfer)
    }

    fn row_key(row: &M::New) -> Key {
        M::key(row)
    }

    fn row_site(row: &M::New) -> u32 {
        M::site(row)
    }

    fn number(&self) -> u32 {
        self.site.number()
    }

    #[inline(always)]
    fn least_due(&self) -> Option<Key> {
        self.site.least_due()
    }

    fn accept(&mut self, transfer: S::Transfer) -> Result<(), Refusal> {
        self.site.accept(transfer)
    }

    fn handle_into(
        &mut self,
        key: Key,
        effects: &mut Effects<M::New, S::Transfer>,
    ) -> Result<(), Refusal> {
        let mut inner = Effects {
            rows: mem::replace(&mut self.rows, Vec::new(self.alloc)),
            sent: mem::replace(&mut effects.sent, Vec::new(self.alloc)),
        };
        self.site.handle_into(key, &mut inner)?;
        let Effects { mut rows, sent } = inner;
        effects.sent = sent;
        map_each::<S, M>(&mut self.mapper, &rows, &mut effects.rows)?;
        rows.clear();
        self.rows = rows;
        Ok(())
    }

    ghost laws = { mapped_laws M.mapping S.laws };
}
