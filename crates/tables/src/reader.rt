// The lines of a text, taken table by table.
ghost use Rattle.std.specs.Prelude.{◌≡◌, ◌+◌, ◌-◌, ◌^◌, ◌<◌, [], ◌∷◌, length, MatchOption};
ghost use Rattle.tables.specs.Lines.{lines_of};

use crate::types::Table;
use text::take_field;

/// Where a reader is in a table.
#[derive(Clone, Copy, PartialEq, Eq, Debug)]
pub enum Stage {
    /// before the first table: its names line comes next
    Names,
    /// behind a names line or a row
    Values,
    /// behind the empty line that ended a table: the names line of the next comes
    Gap,
}

/// What one step of a reader has found.
#[derive(Clone, Copy, PartialEq, Eq, Debug)]
pub enum Step<'a> {
    /// the names line
    Begun,
    /// a line of values
    Row(&'a [u8]),
    /// the end of the table
    Ended,
}

/// The names line of a table does not stand at a line, counted from 1, where it must.
#[derive(Clone, Copy, PartialEq, Eq, Debug)]
pub struct NoNames {
    pub line: usize,
    pub table: Table,
}

/// What is not read yet of a text, how many lines are read, and where in its table the reader is.
#[derive(Drop)]
pub struct Reader<'a> {
    rest: &'a [u8],
    line: usize,
    stage: Stage,
    ghost countable: { line + length rest.now < 2 ^ 64 - 1 },
}

impl<'a> Reader<'a> {
    ghost use Rattle.tables.specs.declared.reader.Stage.TheVariants.{Names};
    ghost use Rattle.tables.specs.Stepping.{Gives, left};

    /// No line is read.
    pub fn new(text: &'a [u8]) -> Reader<'a>
        ensures left { left result ≡ lines_of text.now }
        ensures line { result.line ≡ 0 }
        ensures stage { result.stage ≡ Names }
    {
        Reader {
            rest: text,
            line: 0,
            stage: Stage::Names,
        }
    }

    /// How many lines are read: the number of the last one.
    pub fn line(&self) -> usize
        ensures { result ≡ self.now.line }
    {
        self.line
    }

    // The next line, if there is one; the last one may lack its newline.
    fn next_line(&mut self) -> Option<&'a [u8]>
        ensures { MatchOption result
            ((left self.old ≡ []) × (self.new ≡ self.old))
            (λ line. (left self.old ≡ line.now ∷ left self.new) × (self.new.line ≡ self.old.line + 1) × (self.new.stage ≡ self.old.stage)) }
    {
        if self.rest.is_empty() {
            return None;
        }
        self.line += 1;
        match take_field(self.rest, b'\n') {
            Some((line, after)) => {
                self.rest = after;
                Some(line)
            }
            None => {
                let line = self.rest;
                self.rest = &[];
                Some(line)
            }
        }
    }

    /// The next step in a table: its names line, a line of its values, or its end.
    pub fn step(&mut self, table: Table) -> Result<Step<'a>, NoNames>
        ensures { Gives table self.old self.new result }
    {
        let number = self.line + 1;
        let line = self.next_line();
        match (&mut self.stage, line) {
            (Stage::Values, None) => match table.next() {
                None => Ok(Step::Ended),
                Some(table) => Err(NoNames {
                    line: number,
                    table,
                }),
            },
            (stage @ Stage::Values, Some(line)) => {
                if line.is_empty() && table.next().is_some() {
                    *stage = Stage::Gap;
                    return Ok(Step::Ended);
                }
                Ok(Step::Row(line))
            }
            (stage @ (Stage::Names | Stage::Gap), Some(line)) if line == table.names() => {
                *stage = Stage::Values;
                Ok(Step::Begun)
            }
            (Stage::Names | Stage::Gap, _) => Err(NoNames {
                line: number,
                table,
            }),
        }
    }
}
