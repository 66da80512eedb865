ghost use Rattle.std.specs.Prelude.{◌≡◌, ◌+◌, ◌<◌, ◌≤◌, ◌++◌, length, Ok};
ghost use Rattle.model.specs.Witnesses.{spelled};
ghost use Rattle.text.specs.Pieces.{Bytes};
ghost use Rattle.witness.specs.Answers.{fill_answer, filled, length_answer};
ghost use Rattle.witness.specs.Holding.{contents_of};
ghost use Rattle.readout.specs.Rows.{row, shown, table};

use crate::building::{Text, add, add_number};
use witness::Witness;

// How many letters of a word a table shows.
const SHOWN: u64 = 64;

// Adds the first letters of what the word of a variable spells.
fn add_letters(text: &mut Text, witness: &Witness, variable: u8, count: usize)
    requires few { count ≤ 64 }
    requires there { fill_answer (spelled (contents_of witness.now) variable) 0 count ≡ Ok tt }
    requires room { length text.old.items ≤ 3930 }
    ensures items { (before : Bytes) × (length before ≡ count) × (text.new.items ≡ text.old.items ++ filled (spelled (contents_of witness.now) variable) 0 before) }
    ensures bound { length text.new.items ≤ length text.old.items + 64 }
{
    let mut letters = [0; SHOWN as usize];
    let beginning = &mut letters[..count];
    witness.fill(variable, 0, beginning).unwrap();
    add(text, beginning);
}

// Adds how the word of a variable begins, which spells so many letters. (A witness and a variable stay two parameters: a struct of them would be made for
// each row and read by one call.)
fn add_beginning(text: &mut Text, witness: &Witness, variable: u8, total: u64)
    requires told { length_answer (spelled (contents_of witness.now) variable) ≡ Ok total }
    requires room { length text.old.items ≤ 3930 }
    ensures items { text.new.items ≡ text.old.items ++ shown (spelled (contents_of witness.now) variable) }
    ensures bound { length text.new.items ≤ length text.old.items + 67 }
{
    if total == 0 {
        add(text, b"-");
        return;
    }
    // a cast, since there is no From to usize; it is at most 64
    add_letters(text, witness, variable, total.min(SHOWN) as usize);
    if total > SHOWN {
        add(text, b"...");
    }
}

// Adds the row of a variable, if it has a word.
fn add_row(text: &mut Text, witness: &Witness, variable: u8)
    requires named { variable < 26 }
    requires room { length text.old.items ≤ 3900 }
    ensures items { text.new.items ≡ text.old.items ++ row variable (spelled (contents_of witness.now) variable) }
    ensures bound { length text.new.items ≤ length text.old.items + 100 }
{
    let Ok(total) = witness.length(variable) else {
        return;
    };
    add(text, &[b'A' + variable, b' ']);
    add_number(text, total);
    add(text, b" ");
    add_beginning(text, witness, variable, total);
    add(text, b"\n");
}

// The table of all words.
pub(crate) fn table_of(witness: &Witness) -> Text
    ensures { result.items ≡ table (contents_of witness.now) }
{
    let mut text = Text::new();
    add(&mut text, b"variable length letters\n");
    for variable in 0..26 {
        add_row(&mut text, witness, variable);
    }
    text
}
