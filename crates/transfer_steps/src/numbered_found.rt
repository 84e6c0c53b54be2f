//! What is found of a method while its code is gone through, its paths by their numbers.
ghost use Rattle.std.specs.Prelude.{◌≡◌, ◌<◌, [], ◌∷◌, None, OnOk, List, length};
ghost use Rattle.access_paths.specs.declared.path.Path.{Path as TablePath};
ghost use Rattle.access_paths.specs.Table.{IsTable, path_at};
ghost use Rattle.owner_domain.specs.Values.{names_of};
ghost use Rattle.owner_domain.specs.Numbered.{read_value, IsInRange};
ghost use Rattle.access_domain.specs.Numbered.{read_access, read_accesses, AreNumbered};
ghost use Rattle.call_subst.specs.Numbered.{read_paths, AreBelow};
ghost use Rattle.transfer_steps.specs.Marks.{IsMarked, marks, returns_of, nothing};
ghost use Rattle.transfer_steps.specs.Numbered.{read_found, AreFoundNumbers};

use crate::found::Stop;
use access_domain::{NumberedAccess, NumberedAccesses};
use indexmap::IndexSet;
use owner_domain::{NumberedValue, lose_both};
use racer_base::MAX_SUMMARY_KEYS;
use std::alloc::Global;
use wobbly_paths::Adding;

/// What was found so far.
#[derive(Drop)]
pub struct NumberedFound {
    pub records: NumberedAccesses,
    /// The numbers of the wobbly paths.
    pub wobbly: IndexSet<u32>,
    /// The join of the values that were returned.
    pub result: Option<NumberedValue>,
}

impl NumberedFound {
    /// Nothing.
    pub fn nothing(alloc: Global) -> NumberedFound
        ensures found { (table : List TablePath) → read_found table result ≡ nothing }
        ensures numbers { (table : List TablePath) → AreFoundNumbers table result }
    {
        NumberedFound {
            records: NumberedAccesses::new(alloc),
            wobbly: IndexSet::new(alloc),
            result: None,
        }
    }

    /// Notes a record.
    pub fn note_record(&mut self, access: NumberedAccess) -> Result<(), Stop>
        ensures found { (table : List TablePath) → IsTable table → AreFoundNumbers table self.old → access.path <
            length table →
            IsMarked (read_found table self.old) (marks (read_access table access ∷ []) []) (read_found table
            self.new) result }
        ensures numbers { OnOk result ((table : List TablePath) → IsTable table → AreFoundNumbers table self.old →
            access.path < length table → AreFoundNumbers table self.new) }
    {
        match self.records.add(access) {
            Adding::Added | Adding::Present => Ok(()),
            Adding::Full => Err(Stop::Large),
            Adding::Memory => Err(Stop::Memory),
        }
    }

    /// Notes records.
    pub fn note_records(&mut self, records: &[NumberedAccess]) -> Result<(), Stop>
        ensures found { (table : List TablePath) → IsTable table → AreFoundNumbers table self.old → AreNumbered table
            records.now →
            IsMarked (read_found table self.old) (marks (read_accesses table records.now) []) (read_found table
            self.new) result }
        ensures numbers { OnOk result ((table : List TablePath) → IsTable table → AreFoundNumbers table self.old →
            AreNumbered table records.now → AreFoundNumbers table self.new) }
    {
        for record in records {
            match self.note_record(*record) {
                Ok(()) => {}
                Err(stop) => return Err(stop),
            }
        }
        Ok(())
    }

    /// Notes the number of a wobbly path.
    pub fn note_number(&mut self, number: u32) -> Result<(), Stop>
        ensures found { (table : List TablePath) → IsTable table → AreFoundNumbers table self.old → number < length
            table →
            IsMarked (read_found table self.old) (marks [] (path_at table number ∷ [])) (read_found table self.new)
            result }
        ensures numbers { OnOk result ((table : List TablePath) → IsTable table → AreFoundNumbers table self.old →
            number < length table → AreFoundNumbers table self.new) }
    {
        if self.wobbly.contains(&number) {
            return Ok(());
        }
        if self.wobbly.len() >= MAX_SUMMARY_KEYS {
            return Err(Stop::Large);
        }
        let Ok(_) = self.wobbly.insert(number) else {
            return Err(Stop::Memory);
        };
        Ok(())
    }

    /// Notes the number of a named value.
    pub fn note_name(&mut self, value: NumberedValue) -> Result<(), Stop>
        ensures found { (table : List TablePath) → IsTable table → AreFoundNumbers table self.old → IsInRange table
            value →
            IsMarked (read_found table self.old) (marks [] (names_of (read_value table value))) (read_found table
            self.new) result }
        ensures numbers { OnOk result ((table : List TablePath) → IsTable table → AreFoundNumbers table self.old →
            IsInRange table value → AreFoundNumbers table self.new) }
    {
        match value {
            NumberedValue::Named(number) => self.note_number(number),
            NumberedValue::Owned | NumberedValue::Unnamed => Ok(()),
        }
    }

    /// Notes these numbers of wobbly paths.
    pub fn note_numbers(&mut self, numbers: &[u32]) -> Result<(), Stop>
        ensures found { (table : List TablePath) → IsTable table → AreFoundNumbers table self.old → AreBelow (length
            table) numbers.now →
            IsMarked (read_found table self.old) (marks [] (read_paths table numbers.now)) (read_found table
            self.new) result }
        ensures numbers { OnOk result ((table : List TablePath) → IsTable table → AreFoundNumbers table self.old →
            AreBelow (length table) numbers.now → AreFoundNumbers table self.new) }
    {
        for number in numbers {
            match self.note_number(*number) {
                Ok(()) => {}
                Err(stop) => return Err(stop),
            }
        }
        Ok(())
    }

    /// Notes a returned value, and the names that are lost where it joins the others.
    pub fn note_result(&mut self, alloc: Global, value: NumberedValue) -> Result<(), Stop>
        ensures found { (table : List TablePath) → IsTable table → AreFoundNumbers table self.old → IsInRange table
            value →
            IsMarked (read_found table self.old) (returns_of (read_value table value)) (read_found table self.new)
            result }
        ensures numbers { OnOk result ((table : List TablePath) → IsTable table → AreFoundNumbers table self.old →
            IsInRange table value → AreFoundNumbers table self.new) }
    {
        let Some(earlier) = self.result else {
            self.result = Some(value);
            return Ok(());
        };
        if earlier == value {
            return Ok(());
        }
        let mut lost = Vec::new(alloc);
        let Ok(()) = lose_both(earlier, value, &mut lost) else {
            return Err(Stop::Memory);
        };
        self.result = Some(NumberedValue::Unnamed);
        self.note_numbers(lost.as_slice())
    }
}
