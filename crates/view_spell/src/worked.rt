// Worked patches and queries, and a law of marks. They do nothing.
ghost use Rattle.std.specs.Prelude.{◌≡◌, ℕ, ◌+◌, ◌≤◌, ◌++◌, List, length, codes, true, false};
ghost use Rattle.text_patches.specs.declared.patch.TextPatch.{TextPatch};
ghost use Rattle.text_patches.specs.Patching.{with_texts};
ghost use Rattle.view_spell.specs.Joins.{are_bound};
ghost use Rattle.view_spell.specs.Marks.{moved, past, written_to};
ghost use Rattle.view_spell.specs.Placed.{are_apart};
ghost use Rattle.view_spell.specs.Worked.{source, second, third, crossing, at_first, schema, joined};
ghost use Rattle.view_spell.specs.declared.marks.Mark.{Mark};

/// What is written in place of the bytes up to one of them, and in place of those from there on. A mark says how long the first part is.
pub fn marks_say_where_bytes_stand()
    ensures apart { (text : List ℕ) (a b c : ℕ) (ps qs : List TextPatch) → are_apart a b ps ≡ true → are_apart b c qs ≡ true → with_texts text a (ps ++ qs) ≡ written_to text a b ps ++ with_texts text b qs }
    ensures length { (text : List ℕ) (m : Mark) (b : ℕ) (ps : List TextPatch) → are_apart m.byte b ps ≡ true → b ≤ length text → m.written + length (written_to text m.byte b ps) ≡ moved (past m ps) b }
{}

/// Two words give way. The third one then stands two bytes further to the front.
pub fn worked_patches_are_apart()
    ensures second { are_apart 0 8 second ≡ true }
    ensures third { are_apart 8 13 third ≡ true }
    ensures crossing { are_apart 0 13 crossing ≡ false }
    ensures written { with_texts source 0 (second ++ third) ≡ codes "one 2 3" }
    ensures front { written_to source 0 8 second ≡ codes "one 2 " }
    ensures mark { moved (past at_first second) 8 ≡ 6 }
{}

/// Each user has one role, so users are listed once each, and a role as often as a user has it.
pub fn worked_joins_list_rows_once_or_more()
    ensures users { are_bound schema (joined 1) 1 ≡ true }
    ensures roles { are_bound schema (joined 2) 2 ≡ false }
{}
