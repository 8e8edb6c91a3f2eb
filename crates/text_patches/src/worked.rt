//! A worked source, as a law that computes. It does nothing.
ghost use Rattle.std.specs.Prelude.{◌≡◌, codes};
ghost use Rattle.text_patches.specs.Patching.{with_texts};
ghost use Rattle.text_patches.specs.Worked.{source, in_order, out_of_order};

/// Texts come in place of their bytes, also of more than there are. Behind a text that is out of order the source goes on from its last byte.
pub fn worked_texts_stand_in_place()
    ensures in_order { with_texts source 0 in_order ≡ codes "one 2 3" }
    ensures out_of_order { with_texts source 0 out_of_order ≡ codes "one 21 two three" }
{}
