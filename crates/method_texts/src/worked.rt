//! A worked source, as a law that computes. It does nothing.
ghost use Rattle.std.specs.Prelude.{◌≡◌};
ghost use Rattle.method_texts.specs.Anew.{text_anew};
ghost use Rattle.method_texts.specs.Worked.{source, with_call, without_call, written};

/// The method with a call is written anew, and all other bytes stay.
pub fn worked_method_is_written_anew()
    ensures { text_anew source with_call without_call ≡ written }
{}
