// What the live variables do in a round before a pair or blocks are joined.
ghost use Rattle.std.specs.Prelude.{◌<◌};
ghost use Rattle.writing.specs.Writer.{again, each, erase_empty, erasures, for_block, for_pair, pop_first, pop_last, pop_rows, variables};
ghost use Rattle.writer.specs.Following.{Does, Ready};

use crate::store::Draft;

impl Draft<'_> {
    // Erases each live variable whose word is empty.
    pub(crate) fn erase_all(&mut self)
        requires { Ready erasures self.old }
        ensures { Does erasures self.old self.new }
    {
        for x in 0..26 {
            self.erase_empty(x);
        }
    }

    // Before the pair ab is joined: x pops a first b and a last a, and is erased if then empty.
    fn prepare_pair(&mut self, x: u8, a: u16, b: u16)
        requires variable { x < 26 }
        requires ready { Ready (for_pair a b x) self.old }
        ensures { Does (for_pair a b x) self.old self.new }
    {
        self.pop_first(x, b);
        self.pop_last(x, a);
        self.erase_empty(x);
    }

    // Each live variable does so.
    pub(crate) fn prepare_pairs(&mut self, a: u16, b: u16)
        requires { Ready (each (for_pair a b) variables) self.old }
        ensures { Does (each (for_pair a b) variables) self.old self.new }
    {
        for x in 0..26 {
            self.prepare_pair(x, a, b);
        }
    }

    // Pops each a with which the word of x begins, among its first n letters.
    fn pop_firsts(&mut self, n: usize, x: u8, a: u16)
        requires variable { x < 26 }
        requires ready { Ready (again n (pop_first a x)) self.old }
        ensures { Does (again n (pop_first a x)) self.old self.new }
    {
        for _ in 0..n {
            self.pop_first(x, a);
        }
    }

    // Pops each a with which the word of x ends, among its last n letters.
    fn pop_lasts(&mut self, n: usize, x: u8, a: u16)
        requires variable { x < 26 }
        requires ready { Ready (again n (pop_last a x)) self.old }
        ensures { Does (again n (pop_last a x)) self.old self.new }
    {
        for _ in 0..n {
            self.pop_last(x, a);
        }
    }

    // Before blocks of a are joined: x pops its leading and its trailing a's, and is erased if then empty.
    fn prepare_block(&mut self, x: u8, a: u16)
        requires variable { x < 26 }
        requires ready { Ready (for_block a x) self.old }
        ensures { Does (for_block a x) self.old self.new }
    {
        let n = self.left.letters(x);
        self.pop_firsts(n, x, a);
        self.pop_lasts(n, x, a);
        self.erase_empty(x);
    }

    // Each live variable does so.
    pub(crate) fn prepare_blocks(&mut self, a: u16)
        requires { Ready (pop_rows a) self.old }
        ensures { Does (pop_rows a) self.old self.new }
    {
        for x in 0..26 {
            self.prepare_block(x, a);
        }
    }
}
