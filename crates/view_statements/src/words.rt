// Words of the source language.
ghost use Rattle.std.specs.Prelude.{◌≡◌, map};
ghost use Rattle.java_words.specs.Words as words;

/// Whether a word is one of these.
pub fn is_among(word: &[u8], texts: &[&[u8]]) -> bool
    ensures { result ≡ words.is_among word.now (map (λ text. text.now) texts.now) }
{
    match texts {
        [] => false,
        [text, texts @ ..] => word == *text || is_among(word, texts),
    }
}

/// Whether a word is reserved in the source language.
pub fn is_reserved(word: &[u8]) -> bool
    ensures { result ≡ words.is_reserved_word word.now }
{
    is_among(
        word,
        &[
            b"class", b"public", b"private", b"static", b"void", b"int", b"long", b"boolean",
            b"if", b"else", b"for", b"while", b"return", b"new", b"true", b"false", b"import",
            b"package", b"break",
        ],
    )
}
