// What the tests share.
use runner::Runner;
use std::alloc::Global;
use std::test::Fail;

// How many bytes a buffer has to have.
pub(crate) const LEAST_ROOM: usize = 20_000;

// A byte that stands in no text that is printed.
pub(crate) const FILLING: u8 = 7;

// The first line of a refusal.
const REFUSAL: &[u8] = b"refusal line detail\n";

// Texts up to the first line of values of each table: of the first one, of the second (line 5) and of the third (line 7), and of the second with no
// equation before it (line 4).
pub(crate) const EQUATIONS: &[u8] = b"left right\n";

pub(crate) const LIMITS: &[u8] = b"left right\nXa abY\n\nvariable least most\n";

pub(crate) const CHOICES: &[u8] = b"left right\nX ab\n\nvariable least most\n\ndo name with\n";

pub(crate) const NO_EQUATION: &[u8] = b"left right\n\nvariable least most\n";

// The worked tables, and what is printed of them.
pub(crate) const WORKED: &[u8] =
    b"left right\nXa abY\n\nvariable least most\nX 2 2\n\ndo name with\npair a b\nleft X #26\nerase X -\nleft Y a\nerase Y -\n";

pub(crate) const WORKED_LISTING: &[u8] =
    b"letter make first second\n#26 pair a b\n\nvariable length word\nX 2 #26\nY 1 a\n";

// The listing with no rule and no variable.
pub(crate) const EMPTY_LISTING: &[u8] = b"letter make first second\n\nvariable length word\n";

// A runner and the buffer that it prints to.
#[derive(Drop)]
pub(crate) struct Desk {
    heap: Global,
    runner: Runner,
    out: Vec<u8>,
}

impl Desk {
    pub(crate) fn new(heap: Global) -> Result<Desk, Fail> {
        Ok(Desk {
            heap,
            runner: Runner::new(heap)?,
            out: vec![in heap; FILLING; LEAST_ROOM]?,
        })
    }

    // The text that is printed of this input, where the rest of the buffer is as it was.
    pub(crate) fn print(&mut self, input: &[u8]) -> Result<&[u8], Fail> {
        self.out.fill(FILLING);
        let length = match self.runner.run(input, self.out.as_mut_slice()) {
            Ok(length) => length,
            Err(refused) => refused.length,
        };
        let out = self.out.as_slice();
        if length > out.len() {
            return Err(Fail::new("a text is longer than the buffer"));
        }
        let (text, rest) = out.split_at(length);
        if rest.iter().any(|byte| *byte != FILLING) {
            return Err(Fail::new("the rest of the buffer is written"));
        }
        Ok(text)
    }

    // This text is printed of this input.
    pub(crate) fn prints(&mut self, input: &[u8], wanted: &[u8]) -> Result<(), Fail> {
        let heap = self.heap;
        let text = self.print(input)?;
        if text != wanted {
            let text = String::from_utf8_lossy(heap, text)?;
            let input = String::from_utf8_lossy(heap, input)?;
            return Err(Fail::new(format!(in heap; "{text} is printed of {input}")?));
        }
        Ok(())
    }

    // This input is refused so: number, line and detail.
    pub(crate) fn refuses(&mut self, input: &[u8], refused: &[u8]) -> Result<(), Fail> {
        let wanted = joined(self.heap, &[REFUSAL, refused, b"\n"])?;
        self.prints(input, wanted.as_slice())
    }
}

// The parts in a row.
pub(crate) fn joined(heap: Global, parts: &[&[u8]]) -> Result<Vec<u8>, Fail> {
    let mut all = Vec::new(heap);
    for part in parts {
        all.extend_from_slice(*part)?;
    }
    Ok(all)
}

// The part so many times in a row.
pub(crate) fn times(heap: Global, part: &[u8], count: usize) -> Result<Vec<u8>, Fail> {
    let mut all = Vec::new(heap);
    for _ in 0..count {
        all.extend_from_slice(part)?;
    }
    Ok(all)
}

// Each text behind this head is refused so.
pub(crate) fn refused_behind(
    heap: Global,
    head: &[u8],
    rows: &[(&[u8], &[u8])],
) -> Result<(), Fail> {
    let mut desk = Desk::new(heap)?;
    for (text, refused) in rows {
        let input = joined(heap, &[head, *text])?;
        desk.refuses(input.as_slice(), *refused)?;
    }
    Ok(())
}
