ghost use Rattle.std.specs.Prelude.{◌≡◌, ◌+◌, ◌<◌, ◌≤◌, true, false, length, MatchOption};
ghost use Rattle.writing.specs.Refusals.{a_to_z, bytes_at, is_word, span_of};

use writing::Span;

/// The words of A to Z that a caller gives, each a part of one buffer.
#[derive(Clone, Copy, Debug)]
pub struct GivenWords<'a> {
    /// the bytes of all words, a to z
    pub buffer: &'a [u8],
    /// where the word of each of A to Z stands
    pub spans: [Span; 26],
}

// The bytes of a span, where it lies in the buffer.
fn bytes(buffer: &[u8], span: Span) -> Option<&[u8]>
    ensures { MatchOption result
        (length buffer.now < span.start + span.length)
        (λ bytes. (span.start + span.length ≤ length buffer.now) × (bytes.now ≡ bytes_at buffer.now span)) }
{
    let end = span.start.checked_add(span.length)?;
    buffer.get(span.start..end)
}

// Whether every byte is one of a to z.
fn is_a_to_z(bytes: &[u8]) -> bool
    ensures { result ≡ a_to_z bytes.now }
{
    bytes.iter().all(|b| b.is_ascii_lowercase())
}

impl GivenWords<'_> {
    // The bytes of the word of x, where its span lies in the buffer and they are a to z.
    pub(crate) fn word(&self, x: u8) -> Option<&[u8]>
        requires { x < 26 }
        ensures { MatchOption result
            (is_word self.now.buffer.now (span_of self.now.spans x) ≡ false)
            (λ word. (is_word self.now.buffer.now (span_of self.now.spans x) ≡ true) × (word.now ≡ bytes_at self.now.buffer.now (span_of self.now.spans x))) }
    {
        bytes(self.buffer, self.spans[usize::from(x)]).filter(|word| is_a_to_z(word))
    }
}
