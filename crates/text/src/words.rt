// Words: what a type's values are written as.
ghost use Rattle.std.specs.Prelude.{◌≡◌, ℕ, List};
ghost use Rattle.text.specs.Words.{named};

// A type whose values are written as words.
pub trait Spelled: Copy {
    ghost spelling: { Self → List ℕ };

    fn spell(self) -> &'static [u8]
        ensures { result.now ≡ spelling self };
}

// The first of `words` that is written as `text`.
pub fn find_word<W: Spelled>(text: &[u8], words: &[W]) -> Option<W>
    ensures { result ≡ named W.spelling words.now text.now }
{
    words.iter().find(|w| text == w.spell()).copied()
}
