//! Rows by name.
ghost use Rattle.std.specs.Prelude.{◌≡◌, ◌+◌, ℕ, true, false, OnOk, OnErr, IsOk, IfSome, option_copied, None};
ghost use Rattle.std.specs.Map.{set_value};
ghost use Rattle.std.specs.BTreeMap.{is_at, insert_entry};
ghost use Rattle.crl_model.specs.Names.{at_name, name_cmp};
ghost use Rattle.crl_table.specs.Tables.{table_of, has_place, HasPlace, weight, weight_of, IsUpdate, IsPut};

use crl_model::OutOfMemory;
use crl_model::name::Name;
use std::alloc::Global;
use std::collections::BTreeMap;
use std::marker::Model;
use std::mem;

/// Rows by name. A name first gets a place, which takes memory. From then on its row can be put and taken
/// out as often as wanted, and no memory is asked for. Each call takes a number of steps that is logarithmic
/// in the number of places.
#[derive(Drop)]
pub struct Table<T> {
    places: BTreeMap<Name, Option<T>>,
}

impl<T> Model for Table<T> {
    ghost use Rattle.std.specs.Prelude.{List};
    ghost use Rattle.std.specs.declared.option.Option.{Option};
    ghost use Rattle.crl_model.specs.declared.name.Name.{Name};

    ghost Value = { List (Name × Option T) };

    ghost view = { λ t. t.places.entries };
}

impl<T: Drop> Table<T> {
    ghost use Rattle.std.specs.Borrow.{sem};
    ghost use Rattle.std.specs.Option.{option_copied_mut};
    ghost use Rattle.crl_table.specs.Lending.{lends_row};

    /// The table without places.
    #[tactic(auto, unfolding(crate::specs::Tables::table_of, crate::specs::Tables::has_place, crate::specs::Tables::weight))]
    pub fn new(alloc: Global) -> Table<T>
        ensures rows { table_of result ≡ (λ name. None) }
        ensures places { has_place result ≡ (λ name. false) }
        ensures weight { (w : T → ℕ) → weight w result ≡ 0 }
    {
        Table {
            places: BTreeMap::new(alloc),
        }
    }

    /// The row of the name, if it has one.
    #[tactic(auto, unfolding(crate::specs::Tables::table_of))]
    pub fn get(&self, name: &Name) -> Option<&T>
        ensures { option_copied result ≡ table_of self.now name.now }
    {
        self.places.get(name)?.as_ref()
    }

    /// The row of the name, if it has one, to be changed where it stands.
    pub fn get_mut(&mut self, name: &Name) -> Option<&mut T>
        ensures* writes_back { sem 𝓛 (lends_row T.row self.entry name.now result) }
        ensures row { option_copied_mut result ≡ table_of self.old name.now }
    {
        match self.places.get_mut(name) {
            Some(place) => place.as_mut(),
            None => None,
        }
    }

    /// Whether the name has a place.
    #[tactic(auto, unfolding(crate::specs::Tables::has_place))]
    pub fn has_place(&self, name: &Name) -> bool
        ensures { result ≡ has_place self.now name.now }
    {
        self.places.contains_key(name)
    }

    /// Gives the name a place, if it has none.
    ///
    /// # Errors
    ///
    /// `OutOfMemory`, which comes only where the name has no place; then nothing changes.
    pub fn ready(&mut self, name: &Name) -> Result<(), OutOfMemory>
        ensures rows { table_of self.new ≡ table_of self.old }
        ensures places { OnOk result (has_place self.new ≡ at_name (has_place self.old) name.now true) }
        ensures place { OnOk result (HasPlace name.now self.new) }
        ensures weight { (w : T → ℕ) → weight w self.new ≡ weight w self.old }
        ensures succeeds { HasPlace name.now self.old → IsOk result }
        ensures err { OnErr result (self.new ≡ self.old) }
    {
        if self.has_place(name) {
            return Ok(());
        }
        self.add(name)?;
        Ok(())
    }

    /// The row of the name, which has a place, is this one from now on.
    pub fn put(&mut self, name: &Name, row: T)
        requires place { HasPlace name.now self.old }
        ensures { IsPut name.now row self.old self.new }
    {
        let _ = self.swap(name, Some(row));
    }

    /// Takes the row of the name out, if it has one. Its place stays.
    pub fn take(&mut self, name: &Name) -> Option<T>
        ensures row { result ≡ table_of self.old name.now }
        ensures rows { table_of self.new ≡ at_name (table_of self.old) name.now None }
        ensures gone { table_of self.new name.now ≡ None }
        ensures places { has_place self.new ≡ has_place self.old }
        ensures place { IfSome result (λ row. HasPlace name.now self.new) }
        ensures weight { (w : T → ℕ) → weight w self.new + weight_of w result ≡ weight w self.old }
    {
        if !self.has_place(name) {
            return None;
        }
        self.swap(name, None)
    }

    /// Gives a name that has no place an empty one.
    #[tactic(auto, unfolding(crate::specs::Tables::table_of, crate::specs::Tables::has_place))]
    fn add(&mut self, name: &Name) -> Result<(), OutOfMemory>
        requires absent { has_place self.old name.now ≡ false }
        ensures places { OnOk result (self.new ≡ insert_entry name_cmp self.old name.now None) }
        ensures update { OnOk result (IsUpdate name.now None self.old self.new) }
        ensures err { OnErr result (self.new ≡ self.old) }
    {
        self.places.insert(*name, None)?;
        Ok(())
    }

    /// Puts a row, or none, into the name's place. Answers what was there.
    #[tactic(auto, unfolding(crate::specs::Tables::table_of, crate::specs::Tables::has_place))]
    fn swap(&mut self, name: &Name, row: Option<T>) -> Option<T>
        requires place { HasPlace name.now self.old }
        ensures value { result ≡ table_of self.old name.now }
        ensures places { self.new ≡ set_value (is_at (name_cmp name.now)) self.old row }
        ensures update { IsUpdate name.now row self.old self.new }
    {
        match self.places.get_mut(name) {
            Some(place) => mem::replace(place, row),
            None => unreachable!(),
        }
    }
}
