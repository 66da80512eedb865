ghost use Rattle.std.specs.Prelude.{◌≡◌, ◌<◌, [], ◌∷◌, length};
ghost use Rattle.systems.specs.declared.Choice.TheVariants.{Left, Right, Erase};
ghost use Rattle.writing.specs.Writer.{erase_empty as erasing, pop_first as popping_first, pop_last as popping_last};
ghost use Rattle.writer.specs.Following.{Does, Ready, Wrote};

use crate::store::Draft;
use systems::Choice;
use writing::ChoiceRecord;

impl Draft<'_> {
    // Puts one more choice into the list.
    pub(crate) fn put(&mut self, choice: Choice)
        requires { self.old.count < length self.old.list.now }
        ensures same { self.new.list.ghost_name ≡ self.old.list.ghost_name }
        ensures wrote { Wrote self.old (choice ∷ []) self.new }
        ensures left { self.new.left.now ≡ self.old.left.now }
    {
        self.list[self.count] = ChoiceRecord::from(choice);
        self.count += 1;
    }

    // Pops a first letter a of the word of x.
    pub(crate) fn pop_first(&mut self, x: u8, a: u16)
        requires variable { x < 26 }
        requires ready { Ready (popping_first a x) self.old }
        ensures { Does (popping_first a x) self.old self.new }
    {
        if self.left.pop_first(x, a) {
            self.put(Choice::Left(x, a));
        }
    }

    // Pops a last letter a of the word of x.
    pub(crate) fn pop_last(&mut self, x: u8, a: u16)
        requires variable { x < 26 }
        requires ready { Ready (popping_last a x) self.old }
        ensures { Does (popping_last a x) self.old self.new }
    {
        if self.left.pop_last(x, a) {
            self.put(Choice::Right(x, a));
        }
    }

    // Erases x where its word is empty.
    pub(crate) fn erase_empty(&mut self, x: u8)
        requires variable { x < 26 }
        requires ready { Ready (erasing x) self.old }
        ensures { Does (erasing x) self.old self.new }
    {
        if self.left.erase_empty(x) {
            self.put(Choice::Erase(x));
        }
    }
}
