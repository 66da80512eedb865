ghost use Rattle.std.specs.Prelude.{◌<◌, length, MatchOption};
ghost use Rattle.witness.specs.Holding.{contents_of};
ghost use Rattle.listing.specs.Words.{NotPushed, NotWorded, Pushed, Worded};

use text::letter;
use witness::Witness;

// Adds the letter that the piece names to the newest word, if it may come next. (That a word is begun stays a clause: a type for it would be a
// second witness.)
fn push_piece(witness: &mut Witness, piece: &[u8]) -> Option<()>
    requires { 0 < length (contents_of witness.old).entries }
    ensures { MatchOption result
        (NotPushed (contents_of witness.old) piece.now)
        (λ _. Pushed (contents_of witness.old) piece.now (contents_of witness.new)) }
{
    witness.push_letter(letter(piece)?).ok()
}

// Adds the letters of the word that the field is to the newest word, if they may come.
pub(crate) fn read_word(witness: &mut Witness, field: &[u8]) -> Option<()>
    requires { 0 < length (contents_of witness.old).entries }
    ensures { MatchOption result
        (NotWorded (contents_of witness.old) field.now)
        (λ _. Worded (contents_of witness.old) field.now (contents_of witness.new)) }
{
    if field == b"-".as_slice() {
        return Some(());
    }
    for piece in field.split(|b| *b == b',') {
        push_piece(witness, piece)?;
    }
    Some(())
}
