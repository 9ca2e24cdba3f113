use std::process::ExitCode;

/// The numbers of cases and tables that were run, and the number of those that did not come out as
/// they must.
#[derive(Clone, Copy)]
pub struct Report {
    pub cases: u64,
    pub tables: u64,
    pub wrong: u64,
}

impl Report {
    pub fn new() -> Report {
        Report {
            cases: 0,
            tables: 0,
            wrong: 0,
        }
    }

    /// Counts one more table or case.
    pub fn add(&mut self, is_table: bool, is_wrong: bool) {
        self.tables = self.tables.saturating_add(u64::from(is_table));
        self.cases = self.cases.saturating_add(u64::from(!is_table));
        self.wrong = self.wrong.saturating_add(u64::from(is_wrong));
    }

    /// The exit status of the run.
    pub fn status(&self) -> ExitCode {
        if self.wrong == 0 {
            ExitCode::SUCCESS
        } else {
            ExitCode::from(1)
        }
    }
}
