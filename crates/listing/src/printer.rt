ghost use Rattle.std.specs.Prelude.{◌≡◌, decimal};
ghost use Rattle.text.specs.Names.{letter_name};
ghost use Rattle.listing.specs.Printing.{Printed, Room};

use itoa::Buffer;

// The caller's buffer, and the place behind what is printed. (The buffer is lent, so that printing needs no memory; the library's writers promise no
// bytes
// of a slice.)
#[derive(Drop)]
pub(crate) struct Printer<'a> {
    pub(crate) out: &'a mut [u8],
    pub(crate) end: usize,
}

impl<'a> Printer<'a> {
    // Nothing is printed yet.
    pub(crate) fn new(out: &'a mut [u8]) -> Printer<'a>
        ensures same { result.out.ghost_name ≡ out.entry.ghost_name }
        ensures kept { result.out.now ≡ out.old }
        ensures start { result.end ≡ 0 }
    {
        Printer { out, end: 0 }
    }

    // Prints bytes.
    pub(crate) fn bytes(&mut self, bytes: &[u8])
        requires { Room self.old bytes.now }
        ensures { Printed self.old bytes.now self.new }
    {
        let start = self.end;
        self.end += bytes.len();
        self.out[start..self.end].copy_from_slice(bytes);
    }

    // Prints the decimal of a number.
    pub(crate) fn number(&mut self, n: u64)
        requires { Room self.old (decimal n) }
        ensures { Printed self.old (decimal n) self.new }
    {
        self.bytes(Buffer::new().format(n).as_bytes());
    }

    // Prints the name of a letter.
    pub(crate) fn letter(&mut self, a: u16)
        requires { Room self.old (letter_name a) }
        ensures { Printed self.old (letter_name a) self.new }
    {
        if a < 26 {
            self.bytes(&[b'a' + a as u8]);
        } else {
            self.bytes(b"#");
            self.number(u64::from(a));
        }
    }
}
