//! How many of some rows are as they must be.

/// How many rows were looked at, and which of them aren't as they must be.
#[derive(Clone, Copy)]
pub struct Counts<'a> {
    all: u32,
    wrong: u32,
    /// The first that isn't.
    first: &'a str,
}

impl<'a> Counts<'a> {
    pub const NONE: Counts<'static> = Counts {
        all: 0,
        wrong: 0,
        first: "",
    };

    /// Counts a row.
    pub fn add(&mut self, is_right: bool, row: &'a str) {
        self.all = self.all.saturating_add(1);
        if !is_right {
            if self.wrong == 0 {
                self.first = row;
            }
            self.wrong = self.wrong.saturating_add(1);
        }
    }

    /// Whether so many rows were looked at.
    pub fn are(&self, due: u64) -> bool {
        u64::from(self.all) == due
    }

    /// Writes that all are as they must be, or how many aren't and the first of these.
    pub fn write(&self, rt: &HostRuntime, what: &str) -> anyhow::Result<()> {
        if self.wrong == 0 {
            println!(rt; "{what}: all as they must be")?;
        } else {
            println!(rt;
                "{what}: {} of {} wrong, first {}",
                self.wrong, self.all, self.first
            )?;
        }
        Ok(())
    }
}
