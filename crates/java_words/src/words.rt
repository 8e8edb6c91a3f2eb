// Words that have a meaning of their own.
ghost use Rattle.std.specs.Prelude.{◌≡◌, map};
ghost use Rattle.java_words.specs.Words as specs;

const RESERVED_WORDS: [&str; 19] = [
    "class", "public", "private", "static", "void", "int", "long", "boolean", "if", "else", "for",
    "while", "return", "new", "true", "false", "import", "package", "break",
];

const TYPE_WORDS: [&str; 8] = [
    "List",
    "Set",
    "String",
    "Long",
    "Integer",
    "Boolean",
    "Comparator",
    "System",
];

/// Whether a word is one of these.
pub fn is_among(word: &str, texts: &[&str]) -> bool
    ensures { result ≡ specs.is_among word.now (map (λ text. text.now) texts.now) }
{
    match texts {
        [] => false,
        [text, texts @ ..] => word == *text || is_among(word, texts),
    }
}

/// Whether a word is reserved: nothing has it as its name.
pub fn is_reserved_word(word: &str) -> bool
    ensures { result ≡ specs.is_reserved_word word.now }
{
    is_among(word, &RESERVED_WORDS)
}

/// Whether a word names a type or a class of the language: no table has it as its name.
pub fn is_type_word(word: &str) -> bool
    ensures { result ≡ specs.is_type_word word.now }
{
    is_among(word, &TYPE_WORDS)
}
