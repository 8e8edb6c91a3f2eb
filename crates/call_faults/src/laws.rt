//! Laws of the grammar with calls, for the crates above. They do nothing.
ghost use Rattle.std.specs.Prelude.{◌≡◌, List, Err};
ghost use Rattle.qbs_base.specs.declared.memory.Fail.TheVariants as fails;
ghost use Rattle.java_lex.specs.declared.token.Token.{Token};
ghost use Rattle.java_lex.specs.declared.token.Tokens.{Tokens};
ghost use Rattle.java_ast.specs.Tree.{PlainProgram};
ghost use Rattle.java_grammar.specs.Marks.{all_strict};
ghost use Rattle.java_parser.specs.declared.fault.ParseFault.{ParseFault};
ghost use Rattle.java_parser.specs.Kept.{IsKept};
ghost use Rattle.call_reader.specs.SpelledOut.{spelled_out};
ghost use Rattle.call_reader.specs.WithCalls.{IsReadableWithCalls, IsFaultWithCalls, parsed_with_calls};
ghost use Rattle.call_faults.specs.Larger.{spelled, HasProgramWithCalls};

/// Where the limits hold at all tokens, the grammar with calls is the one that `read_helpers` reads.
pub fn programs_with_calls_are_of_the_larger_grammar()
    ensures spelled { (ts : List Token) → spelled (all_strict ts) ≡ all_strict (spelled_out ts) }
    ensures found { (ts : List Token) (p : PlainProgram) → HasProgramWithCalls (all_strict ts) p → IsReadableWithCalls ts p }
    ensures only { (ts : List Token) (p : PlainProgram) → IsReadableWithCalls ts p → HasProgramWithCalls (all_strict ts) p }
{}

/// The fault that is kept of tokens with calls is the one of the grammar with calls: something of it begins with the tokens before the
/// fault's, and nothing goes on with that one, or nothing if the limits hold at it.
pub fn faults_with_calls_are_of_the_larger_grammar()
    ensures kept { (tokens : Tokens) (f : ParseFault) → IsFaultWithCalls tokens f → IsKept HasProgramWithCalls tokens (fails.Fault f) }
    ensures read { (tokens : Tokens) (f : ParseFault) → parsed_with_calls tokens ≡ Err f → IsKept HasProgramWithCalls tokens (fails.Fault f) }
{}
