// A round's pair or blocks.
ghost use Rattle.std.specs.Prelude.{◌≡◌, ◌≤◌, [], ◌∷◌, map};
ghost use Rattle.systems.specs.declared.Choice.TheVariants.{Block, Pair};
ghost use Rattle.writing.specs.Writer.{join_blocks as joining_blocks, join_pair as joining_pair};
ghost use Rattle.writing.specs.Turns.{block_lengths};
ghost use Rattle.writer.specs.Following.{Does, Ready};
ghost use Rattle.leftover.specs.Noting.{noted_lengths};

use crate::store::Draft;
use leftover::{Lengths, MOST_LETTERS};
use model::Rule;
use systems::Choice;

impl Draft<'_> {
    // Puts the choice of a pair into the list, and joins.
    fn pair(&mut self, a: u16, b: u16)
        requires { Ready (λ _. Pair a b ∷ []) self.old }
        ensures { Does (λ _. Pair a b ∷ []) self.old self.new }
    {
        self.put(Choice::Pair(a, b));
        self.left.join(Rule::Pair(a, b));
    }

    // Puts the choice of blocks of n times a into the list, and joins.
    fn block(&mut self, a: u16, n: u32)
        requires some { 2 ≤ n }
        requires ready { Ready (λ _. Block a n ∷ []) self.old }
        ensures { Does (λ _. Block a n ∷ []) self.old self.new }
    {
        self.put(Choice::Block(a, n));
        self.left.join(Rule::Block(a, n));
    }

    // The rest of a round where the first live variable's word begins with ab.
    pub(crate) fn join_pair(&mut self, a: u16, b: u16)
        requires { Ready (joining_pair a b) self.old }
        ensures { Does (joining_pair a b) self.old self.new }
    {
        self.prepare_pairs(a, b);
        self.pair(a, b);
    }

    // Joins blocks of a, for each length that is noted, rising.
    fn blocks(&mut self, a: u16, noted: &Lengths)
        requires { Ready (λ _. map (Block a) (noted_lengths noted.now)) self.old }
        ensures { Does (λ _. map (Block a) (noted_lengths noted.now)) self.old self.new }
    {
        for n in 2..MOST_LETTERS + 1 {
            if noted[n] {
                self.block(a, n as u32);
            }
        }
    }

    // The rest of a round where the first live variable's word begins with aa.
    pub(crate) fn join_blocks(&mut self, a: u16)
        requires { Ready (λ st. joining_blocks a (block_lengths a st) st) self.old }
        ensures { Does (λ st. joining_blocks a (block_lengths a st) st) self.old self.new }
    {
        self.prepare_blocks(a);
        let noted = self.left.lengths(a);
        self.blocks(a, &noted);
    }
}
