// A tighter sheet never does more: a tight and a loose pack, both new, fed the same records.
#![tactic(auto)]

ghost use Rattle.std.specs.Prelude.{◌≡◌};
ghost use Rattle.pack.specs.Called.{Called};
ghost use Rattle.pack.specs.Steps.{fresh};
ghost use Rattle.order.specs.Generous.{Generous};
ghost use Rattle.prescribers.specs.Usual.{usual_gives};
ghost use Rattle.tighter.specs.Order.{newest_first, last_answers, TighterRun, TighterNeverMore, TighterCall};

use answers::Answer;
use pack::Pack;
use prescribers::{Prescriber, usual};
use sheet::Sheet;

// One record to both packs: the tight pack's answer and the loose pack's.
pub fn call_both<P: Prescriber, Q: Prescriber>(
    tight: &mut Pack<P>,
    loose: &mut Pack<Q>,
    bytes: &[u8],
) -> (Answer, Answer)
    ensures tight { Called tight.old bytes.now tight.new result.0 }
    ensures loose { Called loose.old bytes.now loose.new result.1 }
    ensures ordered { TighterCall tight.old.timed.sheet.limits (P.Prescriber.gives tight.old.prescriber) tight.old.state loose.old.timed.sheet.limits (Q.Prescriber.gives loose.old.prescriber) loose.old.state result.0 result.1 }
{
    let a = tight.call(bytes);
    let b = loose.call(bytes);
    (a, b)
}

// Feeds the records to both packs, and answers with what both said of the last one.
fn feed_both<P: Prescriber, Q: Prescriber>(
    tight: &mut Pack<P>,
    loose: &mut Pack<Q>,
    records: &[&[u8]],
) -> Option<(Answer, Answer)>
    requires { (tight.old.state ≡ fresh) × (loose.old.state ≡ fresh) }
    ensures last { result ≡ last_answers tight.old.timed.sheet.limits (P.Prescriber.gives tight.old.prescriber) loose.old.timed.sheet.limits (Q.Prescriber.gives loose.old.prescriber) (newest_first records.now) }
    ensures ordered { TighterNeverMore tight.old.timed.sheet.limits (P.Prescriber.gives tight.old.prescriber) loose.old.timed.sheet.limits (Q.Prescriber.gives loose.old.prescriber) (newest_first records.now) }
{
    let mut last = None;
    for bytes in records {
        last = Some(call_both(tight, loose, bytes));
    }
    last
}

// A tighter pack never does more. Two new packs, on two accepted sheets and with two prescribers of any kinds, are given every
// record of the list, of any length and bytes; the answers of both to the last one come back. Where the loose sheet is at least
// as generous as the tight one and the prescribers are in that order too, the tight pack's answer to each record of the list is
// never more than the loose pack's.
pub fn run_both<P: Prescriber + Drop, Q: Prescriber + Drop>(
    tight: (Sheet, P),
    loose: (Sheet, Q),
    records: &[&[u8]],
) -> Option<(Answer, Answer)>
    ensures last { result ≡ last_answers tight.0.limits (P.Prescriber.gives tight.1) loose.0.limits (Q.Prescriber.gives loose.1) (newest_first records.now) }
    ensures ordered { TighterNeverMore tight.0.limits (P.Prescriber.gives tight.1) loose.0.limits (Q.Prescriber.gives loose.1) (newest_first records.now) }
{
    let mut cautious = Pack::new(tight.0, tight.1);
    let mut generous = Pack::new(loose.0, loose.1);
    feed_both(&mut cautious, &mut generous, records)
}

// The same with the usual stack of each sheet: these are in order whenever the sheets are.
pub fn run_usual(tight: Sheet, loose: Sheet, records: &[&[u8]]) -> Option<(Answer, Answer)>
    ensures last { result ≡ last_answers tight.limits (usual_gives tight.limits) loose.limits (usual_gives loose.limits) (newest_first records.now) }
    ensures ordered { Generous loose.limits tight.limits → TighterRun tight.limits (usual_gives tight.limits) loose.limits (usual_gives loose.limits) (newest_first records.now) }
{
    let cautious = usual(&tight);
    let generous = usual(&loose);
    run_both((tight, cautious), (loose, generous), records)
}
