// A text that is put together, in place.
ghost use Rattle.std.specs.Prelude.{◌≡◌, ◌+◌, ◌≤◌, ◌++◌, decimal, length};
ghost use Rattle.model.specs.Buffers.{Put};

use arrayvec::ArrayVec;
use itoa::Buffer;

// A table and the text of a refusal have fewer bytes.
pub(crate) const MOST_BYTES: usize = 4_000;

// The bytes so far.
pub(crate) type Text = ArrayVec<u8, MOST_BYTES>;

// Adds bytes.
pub(crate) fn add(text: &mut Text, bytes: &[u8])
    requires { length text.old.items + length bytes.now ≤ 4000 }
    ensures { text.new.items ≡ text.old.items ++ bytes.now }
{
    text.try_extend_from_slice(bytes).unwrap();
}

// Adds the decimal of a number, which has at most 20 digits.
pub(crate) fn add_number(text: &mut Text, n: u64)
    requires { length text.old.items ≤ 3980 }
    ensures items { text.new.items ≡ text.old.items ++ decimal n }
    ensures bound { length text.new.items ≤ length text.old.items + 20 }
{
    add(text, Buffer::new().format(n).as_bytes());
}

// Puts the text at the front of a buffer, and answers its length.
pub(crate) fn put(text: &Text, out: &mut [u8]) -> usize
    requires { 4000 ≤ length out.old }
    ensures put { Put out.old 0 text.now.items out.new result }
    ensures long { length out.new ≡ length out.old }
    ensures within { result ≤ length out.new }
{
    let n = text.len();
    out[..n].copy_from_slice(text.as_slice());
    n
}
