//! How many of some rows passed.

/// How many rows passed and failed.
#[derive(Clone, Copy)]
pub struct Counts<'a> {
    passed: u32,
    failed: u32,
    /// The first row that failed.
    first: &'a str,
}

impl<'a> Counts<'a> {
    pub const NONE: Counts<'static> = Counts {
        passed: 0,
        failed: 0,
        first: "",
    };

    /// Counts a row.
    pub fn add(&mut self, passes: bool, row: &'a str) {
        if passes {
            self.passed = self.passed.saturating_add(1);
        } else {
            if self.failed == 0 {
                self.first = row;
            }
            self.failed = self.failed.saturating_add(1);
        }
    }

    /// Writes how many of these passed and failed, and the first that failed.
    pub fn write(&self, rt: &HostRuntime, what: &str) -> anyhow::Result<()> {
        println!(rt;
            "{} {what}: {} passed, {} failed{}{}",
            self.passed.saturating_add(self.failed),
            self.passed,
            self.failed,
            if self.failed == 0 { "" } else { ", first " },
            self.first
        )?;
        Ok(())
    }
}
