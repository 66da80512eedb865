// The rows of the third table, put to a check.
ghost use Rattle.std.specs.Prelude.{◌≡◌, [], List, MatchResult};
ghost use Rattle.systems.specs.declared.Choice.{Choice};
ghost use Rattle.systems.specs.Runs.{Load};
ghost use Rattle.text.specs.Pieces.{Bytes};
ghost use Rattle.tables.specs.declared.types.Limit.{Limit};
ghost use Rattle.checker.specs.Holding.{CameBy, standing};
ghost use Rattle.answers.specs.Answers.{Refused};
ghost use Rattle.runner.specs.Passing.{BadChoice, Chooses, SecondRead, ThirdRead};

use answers::RunError;
use checker::Check;
use tables::{Reader, Step, Table, read_choice};

// Puts the choice of a line with this number.
fn choose_row(check: &mut Check, number: usize, line: &[u8]) -> Result<(), RunError>
    ensures { MatchResult result (λ _. Chooses check.old line.now check.new) (BadChoice (standing check.old) number line.now) }
{
    let choice = read_choice(line).map_err(|why| RunError::Line { line: number, why })?;
    check
        .choose(choice)
        .map_err(|why| RunError::Choice { line: number, why })
}

// Puts the choices of the third table.
pub(crate) fn choose_rows(check: &mut Check, reader: &mut Reader<'_>) -> Result<(), RunError>
    ensures { (all : List Bytes) (equations : List Load) (limits : List Limit) → SecondRead all equations limits reader.old → CameBy equations [] check.old →
        MatchResult result
        (λ _. (choices : List Choice) × ThirdRead all equations limits choices × CameBy equations choices check.new)
        (Refused all) }
{
    loop {
        match reader.step(Table::Choices) {
            Ok(Step::Begun) => {}
            Ok(Step::Row(line)) => choose_row(check, reader.line(), line)?,
            Ok(Step::Ended) => return Ok(()),
            Err(lacks) => return Err(RunError::from(lacks)),
        }
    }
}
