// What a close writes into the caller's witness.
ghost use Rattle.std.specs.Prelude.{◌≡◌, ◌+◌, ◌<◌, ◌≤◌, true, [], ◌∷◌, length};
ghost use Rattle.model.specs.Spelling.{known};
ghost use Rattle.model.specs.Witnesses.{all_below, entry_fits, letters_in};
ghost use Rattle.guarantee.specs.Closing.{entry, witness as what_is_found};
ghost use Rattle.witness.specs.Holding.{contents_of, nothing};
ghost use Rattle.checker.specs.Holding.{standing, system_of};
ghost use Rattle.checker.specs.Popped.{lengthened_by, with_entries};

use crate::popped::Letters;
use crate::store::Check;
use measure::variable::Variable;
use witness::Witness;

// Adds letters to the newest word. (That a word is begun stays a clause: a type for it would be a second witness.)
fn add_letters(witness: &mut Witness, word: &[u16])
    requires started { 0 < length (contents_of witness.old).entries }
    requires below { all_below (known (contents_of witness.old).rules) word.now ≡ true }
    requires room { length word.now + letters_in (contents_of witness.old).entries ≤ 1024 }
    ensures { contents_of witness.new ≡ with_entries (contents_of witness.old) (lengthened_by word.now (contents_of witness.old).entries) }
{
    for letter in word {
        witness.push_letter(*letter).unwrap();
    }
}

impl Check {
    // Adds the rules.
    fn add_rules(&self, witness: &mut Witness)
        requires { contents_of witness.old ≡ nothing }
        ensures { contents_of witness.new ≡ record { rules = (standing self.now).rules; entries = [] } }
    {
        for rule in self.stand.rules() {
            witness.add_rule(*rule).unwrap();
        }
    }

    // Adds the word of x that was popped, behind those of the variables before it. (The list is lent for the word.)
    fn add_word(&self, witness: &mut Witness, x: u8, letters: &mut Letters)
        requires { entry_fits (contents_of witness.old).rules (contents_of witness.old).entries (entry (standing self.now) x) ≡ true }
        ensures { contents_of witness.new ≡ with_entries (contents_of witness.old) (entry (standing self.now) x ∷ (contents_of witness.old).entries) }
    {
        witness.start_word(x).unwrap();
        self.put_word(letters, x);
        add_letters(witness, letters.as_slice());
    }

    // Adds the word of each variable of the system, from A to Z.
    fn add_words(&self, witness: &mut Witness)
        requires { contents_of witness.old ≡ record { rules = (standing self.now).rules; entries = [] } }
        ensures { contents_of witness.new ≡ what_is_found (system_of self.now) (standing self.now) }
    {
        let mut letters = Letters::new();
        for variable in Variable::all() {
            let x = variable.number();
            if self.system[usize::from(x)] {
                self.add_word(witness, x, &mut letters);
            }
        }
    }

    // Writes the rules, and the word of each variable of the system, in place of what the witness held.
    pub(crate) fn write(&self, witness: &mut Witness)
        ensures { contents_of witness.new ≡ what_is_found (system_of self.now) (standing self.now) }
    {
        witness.clear();
        self.add_rules(witness);
        self.add_words(witness);
    }
}
