// Writing what is due.
ghost use Rattle.std.specs.Prelude.{◌≡◌};
ghost use Rattle.deliveries.specs.Deliver.{Delivers, IsSent, FailsToSend, change};
ghost use Rattle.deliveries.specs.declared.plan.Plan.{Plan};

use crate::Plan;
use files_sinks::{Sink, WriteAnswer};
use qbs_base::Status;

/// Writes the text to `out` and then the line to `rep`, each by one call where it has bytes.
pub fn deliver<O: Sink, E: Sink>(
    status: Status,
    text: &[u8],
    line: &[u8],
    out: &mut O,
    rep: &mut E,
) -> Status
    ensures { Delivers (record { status = status; out = text.now; rep = line.now })
        (change O.told O.faults O.by_write out.old out.new) (change E.told E.faults E.by_write rep.old rep.new) result }
{
    if let WriteAnswer::Failed = send(text, out) {
        return Status::WriteFault;
    }
    if let WriteAnswer::Failed = send(line, rep) {
        return Status::WriteFault;
    }
    status
}

/// Writes a plan.
pub fn deliver_plan<O: Sink, E: Sink>(plan: &Plan, out: &mut O, rep: &mut E) -> Status
    ensures { Delivers plan.now
        (change O.told O.faults O.by_write out.old out.new) (change E.told E.faults E.by_write rep.old rep.new) result }
{
    deliver(
        plan.status,
        plan.out.as_slice(),
        plan.rep.as_slice(),
        out,
        rep,
    )
}

ghost use Rattle.files_sinks.specs.Outside.{Writes};

// One call, where there is something to write.
#[tactic(auto, using(crate::proofs::Sending::nothing_sent, crate::proofs::Sending::sent_by_none, crate::proofs::Sending::sent_by_one, crate::proofs::Sending::failed_by_one))]
fn send<K: Sink>(piece: &[u8], sink: &mut K) -> WriteAnswer
    ensures wrote { Writes (K.told sink.old) (K.told sink.new) piece.now result }
    ensures sent { IsSent (change K.told K.faults K.by_write sink.old sink.new) piece.now }
    ensures fails { result ≡ WriteAnswer.Failed → FailsToSend (change K.told K.faults K.by_write sink.old sink.new) piece.now }
{
    if piece.is_empty() {
        return WriteAnswer::Ok;
    }
    sink.write_all(piece)
}
