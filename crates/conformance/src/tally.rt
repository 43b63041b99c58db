// Counts cases, by name too, and those that differ.
use std::alloc::{AllocError, Global};
use std::collections::BTreeMap;
use std::io;

#[derive(Drop)]
pub(crate) struct Tally<'a> {
    cases: u64,
    differences: u64,
    names: BTreeMap<&'a str, u64>,
}

impl<'a> Tally<'a> {
    pub(crate) fn new(heap: Global) -> Tally<'a> {
        Tally {
            cases: 0,
            differences: 0,
            names: BTreeMap::new(heap),
        }
    }

    // Counts a case, and answers its number, from 1.
    pub(crate) fn count_case(&mut self) -> u64 {
        self.cases = self.cases.saturating_add(1);
        self.cases
    }

    pub(crate) fn count_name(&mut self, name: &'a str) -> Result<(), AllocError> {
        let count = self.names.entry(name)?.or_insert(0);
        *count = count.saturating_add(1);
        Ok(())
    }

    pub(crate) fn count_difference(&mut self) {
        self.differences = self.differences.saturating_add(1);
    }

    pub(crate) fn is_clean(&self) -> bool {
        self.differences == 0
    }

    // A line for each name, and one for all.
    pub(crate) fn print(&self, rt: &HostRuntime) -> io::Result<()> {
        for (name, count) in self.names.iter() {
            println!(rt; "{name} {count}")?;
        }
        let cases = self.cases;
        let differences = self.differences;
        println!(rt; "{cases} cases, {differences} differences")
    }
}
