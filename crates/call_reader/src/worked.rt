//! What tokens with calls are, as laws that compute. They do nothing.
ghost use Rattle.std.specs.Prelude.{◌≡◌, false, Ok};
ghost use Rattle.java_lex.specs.Lexing.{lexed};
ghost use Rattle.java_grammar.specs.ReadBack.{SameProgram};
ghost use Rattle.call_reader.specs.SpelledOut.{spelled_out, has_call};
ghost use Rattle.call_reader.specs.Worked.{tokens_of, call, query, sum, no_value, class_tokens, class, text, text_tokens};

/// A call is spelled out as a query, and where it isn't the whole value, so that no program has the tokens.
pub fn worked_calls_are_spelled_out()
    ensures call { spelled_out (tokens_of call) ≡ tokens_of query }
    ensures sum { spelled_out (tokens_of sum) ≡ tokens_of no_value }
    ensures query { has_call (tokens_of query) ≡ false }
{}

/// The tokens of a class with a call have that class, but for places.
pub fn worked_classes_are_read()
    ensures { SameProgram (spelled_out (tokens_of class_tokens)) class }
{}

/// A text has tokens, and these have that class with calls, but for places.
pub fn worked_texts_are_read()
    ensures tokens { lexed text ≡ Ok text_tokens }
    ensures program { SameProgram (spelled_out text_tokens.list) class }
{}
