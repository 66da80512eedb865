ghost use Rattle.std.specs.Prelude.{◌+◌, ◌^◌, ◌<◌, length};

/// A part of a line, with its place: how many bytes of the line stand before it.
#[derive(Clone, Copy, Debug)]
pub struct Part<'a> {
    pub bytes: &'a [u8],
    pub place: usize,
    ghost inside: { place + length bytes.now < 2 ^ 64 },
}

/// A field by how it begins, holding its part of the line with its place.
#[derive(Clone, Copy, Debug)]
pub enum Token<'a> {
    /// any other field
    Word(Part<'a>),
    /// a field that begins with a digit
    Number(Part<'a>),
    /// what follows a #
    LetterName(Part<'a>),
}
