use crate::finding::Finding;
use crate::flaw::Flaw;
use crate::row::Row;
use crate::text::Text;
use crate::told::Told;
use std::alloc::Global;

/// What a row is run with.
#[derive(Drop)]
pub struct Bench {
    pub command: Text,
    /// The answer.
    pub came: Told,
    wanted: Text,
}

impl Bench {
    pub fn new(alloc: Global) -> Bench {
        Bench {
            command: Text::new(alloc),
            came: Told::new(alloc),
            wanted: Text::new(alloc),
        }
    }

    /// Takes the command of a row. There is no answer to it yet.
    pub fn take(&mut self, row: Row<'_>) -> Result<(), Flaw> {
        self.came.text.clear();
        self.command.set(row.round, row.command)
    }

    /// Compares the answer with those that are right.
    pub fn compare(
        &mut self,
        alloc: Global,
        row: Row<'_>,
        found: &mut Finding,
    ) -> Result<(), Flaw> {
        for answer in row.answers.split(" or ") {
            self.wanted.set(row.round, answer)?;
            if self.wanted.bytes.as_slice() == self.came.text.as_bytes() {
                return Ok(());
            }
        }
        self.wanted.set(row.round, row.answers)?;
        self.tell(alloc, row.line, found)?;
        Err(Flaw::Differs)
    }

    fn tell(&self, alloc: Global, line: usize, found: &mut Finding) -> Result<(), Flaw> {
        let (came, wanted) = (
            &self.came.text,
            String::from_utf8_lossy(alloc, &self.wanted.bytes)?,
        );
        Ok(write!(found.told, "line {line}: {came:?} in place of {wanted:?}")?)
    }
}
