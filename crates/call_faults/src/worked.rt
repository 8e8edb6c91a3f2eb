//! Worked faults of tokens with calls, as laws that compute. They do nothing.
ghost use Rattle.std.specs.Prelude.{◌≡◌, Err};
ghost use Rattle.java_grammar.specs.Faults.{IsUnexpected};
ghost use Rattle.call_reader.specs.WithCalls.{parsed_with_calls};
ghost use Rattle.call_faults.specs.Larger.{HasProgramWithCalls};
ghost use Rattle.call_faults.specs.Worked.{behind_a_call, in_a_call, unexpected_at};

/// A call is the whole value, so that the fault of `x = g() + 1` stands at its `+`, and it has no empty argument, so that the fault of `g(,)`
/// stands at its comma.
pub fn worked_faults_are_kept()
    ensures behind { parsed_with_calls behind_a_call ≡ Err (unexpected_at 14) }
    ensures within { parsed_with_calls in_a_call ≡ Err (unexpected_at 13) }
    ensures behind_grammar { IsUnexpected HasProgramWithCalls behind_a_call.list 14 }
    ensures within_grammar { IsUnexpected HasProgramWithCalls in_a_call.list 13 }
{}
