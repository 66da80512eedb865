// The text of a refusal.
ghost use Rattle.std.specs.Prelude.{◌≡◌, ◌+◌, ◌≤◌, ◌++◌, length, decimal};
ghost use Rattle.answers.specs.Printing.{detail_text, error_text, over};

use answers::RunError;
use arrayvec::ArrayVec;
use itoa::Buffer;
use model::name::capital;
use systems::Detail;

// No text of a refusal is longer: 20 bytes of names, three fields of at most 20 bytes, and a byte behind each.
const LONGEST: usize = 83;

type Text = ArrayVec<u8, LONGEST>;

// Adds bytes.
fn add(text: &mut Text, bytes: &[u8])
    requires { length text.old.items + length bytes.now ≤ 83 }
    ensures { text.new.items ≡ text.old.items ++ bytes.now }
{
    text.try_extend_from_slice(bytes).unwrap();
}

// Adds the decimal of a number.
fn add_number(text: &mut Text, n: u64)
    requires { length text.old.items + 20 ≤ 83 }
    ensures value { text.new.items ≡ text.old.items ++ decimal n }
    ensures short { length text.new.items ≤ length text.old.items + 20 }
{
    add(text, Buffer::new().format(n).as_bytes());
}

// Adds the name of what a refusal names.
fn add_detail(text: &mut Text, detail: Option<Detail>)
    requires { length text.old.items + 20 ≤ 83 }
    ensures value { text.new.items ≡ text.old.items ++ detail_text detail }
    ensures short { length text.new.items ≤ length text.old.items + 20 }
{
    match detail {
        None => add(text, b"-"),
        Some(Detail::Variable(x)) => match capital(x) {
            Some(name) => add(text, &[name as u8]),
            None => add(text, b"-"),
        },
        Some(Detail::Equation(i)) => add_number(text, u64::from(i)),
    }
}

// The text of a refusal.
fn text_of(why: RunError) -> Text
    ensures value { result.items ≡ error_text why }
    ensures short { length result.items ≤ 83 }
{
    let mut text = Text::new();
    add(&mut text, b"refusal line detail\n");
    add_number(&mut text, u64::from(why.number()));
    add(&mut text, b" ");
    add_number(&mut text, why.line() as u64);
    add(&mut text, b" ");
    add_detail(&mut text, why.detail());
    add(&mut text, b"\n");
    text
}

// Puts the text of a refusal at the front of a buffer, and answers its length.
pub(crate) fn print_error(why: RunError, out: &mut [u8]) -> usize
    requires { 83 ≤ length out.old }
    ensures length { result ≡ length (error_text why) }
    ensures text { out.new ≡ over (error_text why) out.old }
{
    let text = text_of(why);
    let end = text.len();
    out[..end].copy_from_slice(text.as_slice());
    end
}
