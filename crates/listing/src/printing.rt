ghost use Rattle.std.specs.Prelude.{◌≡◌, ◌<◌, ◌≤◌, reverse, length, MatchResult};
ghost use Rattle.model.specs.Buffers.{Put};
ghost use Rattle.text.specs.Pieces.{lines_text};
ghost use Rattle.format.specs.Listing.{entry_lines, listing, rule_line, rule_lines, word_text};
ghost use Rattle.witness.specs.Holding.{contents_of};
ghost use Rattle.listing.specs.Printing.{Printed, Room};
ghost use Rattle.listing.specs.Refusals.{print_number};
ghost use Rattle.listing.specs.Tables.{variable_text};
ghost use Rattle.listing.specs.Words.{names_after};

use crate::printer::Printer;
use crate::refusals::PrintRefusal;
use model::Rule;
use witness::Witness;

// The parts of a listing.
impl Printer<'_> {
    // Prints the line of the rule that makes the letter `made`, without its newline.
    fn rule(&mut self, made: u16, rule: Rule)
        requires { Room self.old (rule_line made rule) }
        ensures { Printed self.old (rule_line made rule) self.new }
    {
        self.letter(made);
        match rule {
            Rule::Pair(a, b) => {
                self.bytes(b" pair ");
                self.letter(a);
                self.bytes(b" ");
                self.letter(b);
            }
            Rule::Block(a, count) => {
                self.bytes(b" block ");
                self.letter(a);
                self.bytes(b" ");
                self.number(u64::from(count));
            }
        }
    }

    // Prints the lines of the first table.
    fn rules(&mut self, rules: &[Rule])
        requires few { length rules.now ≤ 512 }
        requires room { Room self.old (lines_text (rule_lines (reverse rules.now))) }
        ensures { Printed self.old (lines_text (rule_lines (reverse rules.now))) self.new }
    {
        for (i, rule) in rules.iter().enumerate() {
            self.rule(26 + i as u16, *rule);
            self.bytes(b"\n");
        }
    }

    // Prints the letters, with a comma before each.
    fn more_letters(&mut self, letters: &[u16])
        requires { Room self.old (names_after letters.now) }
        ensures { Printed self.old (names_after letters.now) self.new }
    {
        for letter in letters {
            self.bytes(b",");
            self.letter(*letter);
        }
    }

    // Prints the letters with commas between them, or -.
    fn word(&mut self, word: &[u16])
        requires { Room self.old (word_text word.now) }
        ensures { Printed self.old (word_text word.now) self.new }
    {
        match word {
            [] => self.bytes(b"-"),
            [first, more @ ..] => {
                self.letter(*first);
                self.more_letters(more);
            }
        }
    }

    // Prints the line of a variable, if it has a word.
    fn variable(&mut self, witness: &Witness, variable: u8)
        requires named { variable < 26 }
        requires room { Room self.old (variable_text (contents_of witness.now) variable) }
        ensures { Printed self.old (variable_text (contents_of witness.now) variable) self.new }
    {
        let (Some(word), Ok(total)) = (witness.word(variable), witness.length(variable)) else {
            return;
        };
        self.bytes(&[b'A' + variable, b' ']);
        self.number(total);
        self.bytes(b" ");
        self.word(word);
        self.bytes(b"\n");
    }

    // Prints the lines of the second table.
    fn variables(&mut self, witness: &Witness)
        requires { Room self.old (lines_text (entry_lines (contents_of witness.now).rules (contents_of witness.now).entries)) }
        ensures { Printed self.old (lines_text (entry_lines (contents_of witness.now).rules (contents_of witness.now).entries)) self.new }
    {
        for variable in 0..26 {
            self.variable(witness, variable);
        }
    }

    // Prints both tables.
    fn tables(&mut self, witness: &Witness)
        requires { Room self.old (listing (contents_of witness.now)) }
        ensures { Printed self.old (listing (contents_of witness.now)) self.new }
    {
        self.bytes(b"letter make first second\n");
        self.rules(witness.rules());
        self.bytes(b"\nvariable length word\n");
        self.variables(witness);
    }
}

// No listing is longer.
const LONGEST: usize = 20_000;

/// Writes the listing to the front of `out`, leaves what stands behind it, and answers its length; refused (71) where `out` has fewer than 20,000 bytes,
/// and then `out` is as it was.
pub fn print(witness: &Witness, out: &mut [u8]) -> Result<usize, PrintRefusal>
    ensures { MatchResult result
        (λ n. (20000 ≤ length out.old) × Put out.old 0 (listing (contents_of witness.now)) out.new n)
        (λ e. (print_number e ≡ 71) × (length out.old < 20000) × (out.new ≡ out.old)) }
{
    if out.len() < LONGEST {
        return Err(PrintRefusal::BufferTooShort);
    }
    let mut printer = Printer::new(out);
    printer.tables(witness);
    Ok(printer.end)
}
