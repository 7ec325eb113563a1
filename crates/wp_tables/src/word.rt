ghost use Rattle.std.specs.Prelude.{◌≡◌};
ghost use Rattle.wp_tables.specs.DeskFile.{word_of};

/// The word of a command.
#[derive(Clone, Copy, PartialEq, Eq)]
pub enum Word {
    Submit,
    Allot,
    Release,
    Cancel,
    Pick,
    Missing,
    Receive,
}

impl Word {
    /// The word that a field is. None comes exactly where it is no command's.
    pub fn read(field: &[u8]) -> Option<Word>
        ensures { result ≡ word_of field.now }
    {
        if field == b"submit".as_slice() {
            Some(Word::Submit)
        } else if field == b"allot".as_slice() {
            Some(Word::Allot)
        } else if field == b"release".as_slice() {
            Some(Word::Release)
        } else if field == b"cancel".as_slice() {
            Some(Word::Cancel)
        } else if field == b"pick".as_slice() {
            Some(Word::Pick)
        } else if field == b"missing".as_slice() {
            Some(Word::Missing)
        } else if field == b"receive".as_slice() {
            Some(Word::Receive)
        } else {
            None
        }
    }
}
