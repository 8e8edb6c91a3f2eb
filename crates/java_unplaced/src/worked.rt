//! Two classes that are equal but for places, and not equal, as a law that computes. It does nothing.
ghost use Rattle.std.specs.Prelude.{◌≡◌, []};
ghost use Rattle.qbs_base.specs.Values.{Schema};
ghost use Rattle.java_ast.specs.Unplaced.{unplaced_program};
ghost use Rattle.java_mean.specs.declared.ending.RunFault.TheVariants.{Overflow};
ghost use Rattle.java_mean.specs.Keeps.{Keeps};
ghost use Rattle.java_mean.specs.Outcome.{Faulted, outcome};
ghost use Rattle.java_mean.specs.Worked.{somewhere, staff};
ghost use Rattle.java_unplaced.specs.Worked.{class_at, elsewhere, total_at};

/// Both fault, each at its own place, and each keeps the other.
pub fn worked_faults_stand_at_their_own_places()
    ensures differ { class_at somewhere ≡ class_at elsewhere → ⊥ }
    ensures alike { unplaced_program (class_at somewhere) ≡ unplaced_program (class_at elsewhere) }
    ensures first { outcome staff (total_at somewhere) [] 100 ≡ Faulted Overflow somewhere }
    ensures second { outcome staff (total_at elsewhere) [] 100 ≡ Faulted Overflow elsewhere }
    ensures there { (schema : Schema) → Keeps (class_at somewhere) (class_at elsewhere) schema }
    ensures back { (schema : Schema) → Keeps (class_at elsewhere) (class_at somewhere) schema }
{}
