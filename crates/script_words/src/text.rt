ghost use Rattle.std.specs.Prelude.{◌≡◌};
ghost use Rattle.script_words.specs.Texts.{is_text, plain_rest, rest_after};

// Whether the word is this text.
// Callers pass a byte string, an array, which `==` compares with no slice.
#[tactic(auto, unfolding(crate::specs::Texts::is_text))]
pub fn is_text(word: &[u8], text: &[u8]) -> bool
    ensures { result ≡ is_text word.now text.now }
{
    word == text
}

// What follows the prefix, if the word begins with it.
// `strip_prefix` promises this case by case, and callers' proofs need the one equation.
pub fn after<'a>(word: &'a [u8], prefix: &[u8]) -> Option<&'a [u8]>
    ensures { plain_rest result ≡ rest_after prefix.now word.now }
{
    word.strip_prefix(prefix)
}
