ghost use Rattle.std.specs.Prelude.{◌≡◌, ℕ, ◌<◌, ◌≤◌, true, false, [], ◌∷◌, length, slice_index, slice_index_or};
ghost use Rattle.std.specs.Iterator.{YieldsFirstRef, item_count};
ghost use Rattle.script_words.specs.Words.{is_blank, in_class, place, content_of, words_in};

// Spaces and tabs part words.
fn is_blank(byte: u8) -> bool
    ensures { result ≡ is_blank byte }
{
    byte == b' ' || byte == b'\t'
}

// What is looked for in the bytes of a line.
#[derive(Clone, Copy)]
pub enum Class {
    Blank,
    Visible,
    Byte(u8),
}

impl Class {
    fn has(self, byte: u8) -> bool
        ensures { result ≡ in_class self byte }
    {
        match self {
            Class::Blank => is_blank(byte),
            Class::Visible => !is_blank(byte),
            Class::Byte(wanted) => byte == wanted,
        }
    }
}

// The place of the first byte of the class, or the end.
// It stands beside `first_place` since it asks nothing of its callers.
pub fn place(bytes: &[u8], class: Class) -> usize
    ensures value { result ≡ place (in_class class) bytes.now }
    ensures bound { result ≤ length bytes.now }
{
    first_place(bytes, |byte| class.has(byte))
}

// The place of the first byte that passes the test, or the end.
pub fn first_place<F: Fn(u8) -> bool>(bytes: &[u8], test: F) -> usize
    requires { F.IsAlwaysCallable test }
    ensures before { (k : ℕ) → k < result → F.post test (slice_index bytes.now k) false }
    ensures found { result < length bytes.now → F.post test (slice_index bytes.now result) true }
    ensures bound { result ≤ length bytes.now }
{
    bytes
        .iter()
        .position(|byte| test(*byte))
        .unwrap_or(bytes.len())
}

// The line without a carriage return at its end and without a comment.
pub fn content(line: &[u8]) -> &[u8]
    ensures { result.now ≡ content_of line.now }
{
    let line = line.strip_suffix(b"\r").unwrap_or(line);
    &line[..first_place(line, |byte| byte == b'#')]
}

// The first word, empty if there is none, and what follows it: a word is never empty, so that no Option is wanted beside it.
fn first_word(content: &[u8]) -> (&[u8], &[u8])
    ensures some { 0 < length result.0.now → words_in content.now ≡ result.0.now ∷ words_in result.1.now }
    ensures none { length result.0.now ≡ 0 → (words_in content.now ≡ []) × (words_in result.1.now ≡ []) }
{
    let start = first_place(content, |byte| !is_blank(byte));
    let behind = &content[start..];
    behind.split_at(first_place(behind, is_blank))
}

// The words of a line's content that are not read yet.
#[derive(Clone, Copy)]
pub struct Words<'a> {
    pub rest: &'a [u8],
}

impl<'a> Iterator for Words<'a> {
    type Item = &'a [u8];

    ghost next_gives = { YieldsFirstRef (λ s. words_in s.rest.now) };

    ghost remaining = { item_count (λ s. words_in s.rest.now) };

    fn next(&mut self) -> Option<&'a [u8]> {
        let (word, rest) = first_word(self.rest);
        self.rest = rest;
        if word.is_empty() { None } else { Some(word) }
    }
}

// The word with this index; empty if there are not so many, as the definitions of the commands have it.
pub fn word(content: &[u8], index: usize) -> &[u8]
    ensures { result.now ≡ slice_index_or (words_in content.now) index [] }
{
    Words { rest: content }.nth(index).unwrap_or(&[])
}
