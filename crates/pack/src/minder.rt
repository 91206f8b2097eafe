// The pack that answers calls.
ghost use Rattle.std.specs.Prelude.{◌≡◌, ◌≤◌};
ghost use Rattle.pack.specs.Steps.{fresh, shown};

use super::state::State;
use super::timed::TimedSheet;
use answers::Answer;
use calls::Rejection;
use faults::Switch;
use prescribers::Prescriber;
use reading::Region;
use sheet::Sheet;

#[derive(Debug, Drop)]
pub struct Pack<P: Prescriber> {
    timed: TimedSheet,
    prescriber: P,
    state: State,
    // the host limit is one that a record can bring
    ghost limited: { state.limit ≤ 20000 },
}

// Before the first accepted reading.
const NOTHING: Answer = Answer {
    refusal: None,
    charge: false,
    discharge: false,
    faults: 0,
    current: 0,
    voltage: 0,
    region: Region::Room,
    level: 0,
};

impl<P: Prescriber> Pack<P> {
    ghost use Rattle.pack.specs.Called.{Called};

    pub fn new(sheet: Sheet, prescriber: P) -> Pack<P>
        ensures sheet { result.timed.sheet ≡ sheet }
        ensures prescriber { result.prescriber ≡ prescriber }
        ensures state { result.state ≡ fresh }
    {
        Pack {
            timed: TimedSheet::new(sheet),
            prescriber,
            state: State::new(),
        }
    }

    // What stands, with the refusal of a record.
    fn show(&self, refusal: Option<Rejection>) -> Answer
        ensures { result ≡ shown (P.Prescriber.gives self.now.prescriber) self.now.state refusal }
    {
        let Some(last) = self.state.last else {
            return Answer { refusal, ..NOTHING };
        };
        let given = self.prescriber.prescribe(&last.reading);
        let charge = self.state.is_on(Switch::Charge);
        Answer {
            refusal,
            charge,
            discharge: self.state.is_on(Switch::Discharge),
            faults: timing::mask(&self.state.watches.standing()),
            current: if charge {
                given.current.min(self.state.limit)
            } else {
                0
            },
            voltage: if charge { given.voltage } else { 0 },
            region: last.region,
            level: last.level,
        }
    }

    // Answers a record of bytes. A refused one changes nothing, and its answer is what stands.
    #[tactic(auto, using(crate::proofs::Permitting::limit_after))]
    pub fn call(&mut self, bytes: &[u8]) -> Answer
        ensures { Called self.old bytes.now self.new result }
    {
        let taken = self.state.take(&self.timed, bytes);
        self.show(taken.err())
    }
}
