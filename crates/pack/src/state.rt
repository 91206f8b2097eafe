// What the accepted calls have left, apart from the sheet and the prescriber: plain memory, the same for every kind of pack.
ghost use Rattle.std.specs.Prelude.{◌≡◌};
ghost use Rattle.std.specs.Result.{result_err};
ghost use Rattle.pack.specs.Steps.{fresh, reads, moved, permitted, outcome, refusal_in, after, held, is_on};

use super::timed::TimedSheet;
use calls::{Call, Offs, Rejection};
use faults::Switch;
use inforce::Ages;
use reading::{Prepared, Reading, Region};
use timing::Watches;

// The host limit, in mA, before the host says one: the widest that a record can bring.
const WIDEST: u16 = 20000;

#[derive(Clone, Copy, Debug, PartialEq, Eq)]
pub struct State {
    // one watch for each fault, moved by every accepted reading since the last accepted clear
    pub watches: Watches,
    // one age for each row, moved by every accepted reading
    pub ages: Ages,
    // the last accepted reading
    pub last: Option<Prepared>,
    // a host word has come since the last accepted reading
    pub word: bool,
    // the host limit, in mA
    pub limit: u16,
    // the switches that the host holds off
    pub offs: Offs,
}

// The sheet is handed in where a call needs it: a state that held it would be the pack.
impl State {
    // No call has come: no host word, no switch-off, and the widest limit.
    pub(crate) fn new() -> State
        ensures { result ≡ fresh }
    {
        State {
            watches: Watches::new(),
            ages: Ages::new(),
            last: None,
            word: false,
            limit: WIDEST,
            offs: Offs {
                charge: false,
                discharge: false,
            },
        }
    }

    // A clear is only for a pack that is held off on both sides.
    fn permit(&self, call: Call) -> Result<Call, Rejection>
        ensures { result ≡ permitted self.now.offs call }
    {
        let off = self.offs.charge && self.offs.discharge;
        match call {
            Call::Clear if !off => Err(Rejection::Live),
            _ => Ok(call),
        }
    }

    // The call that a record brings, or its refusal.
    fn admit(&self, bytes: &[u8]) -> Result<Call, Rejection>
        ensures { result ≡ outcome self.now.offs bytes.now }
    {
        self.permit(calls::parse(bytes)?)
    }

    // An accepted reading moves every watch and every age, and uses up the host word.
    #[tactic(auto, unfolding(crate::specs::Steps::reads))]
    fn apply_reading(&mut self, timed: &TimedSheet, reading: Reading)
        ensures { self.new ≡ reads timed.now.sheet.limits self.old reading }
    {
        let TimedSheet {
            sheet,
            waits,
            levels,
        } = timed;
        let region = Region::of(&sheet.limits.degrees, reading.cell);
        self.ages.pass(region.row(), reading.elapsed);
        let level = self
            .ages
            .level(region.level(sheet), levels, waits.transition);
        let prepared = Prepared {
            reading,
            region,
            level,
            word: self.word,
        };
        self.watches
            .advance(&faults::observe(sheet, &prepared), &waits.faults);
        self.last = Some(prepared);
        self.word = false;
    }

    fn apply(&mut self, timed: &TimedSheet, call: Call)
        ensures { self.new ≡ moved timed.now.sheet.limits self.old call }
    {
        match call {
            Call::Read(reading) => self.apply_reading(timed, reading),
            Call::Word => self.word = true,
            Call::Limit(limit) => self.limit = limit,
            Call::Switch(offs) => self.offs = offs,
            Call::Clear => self.watches.clear(),
        }
    }

    // Moves by a record. A refusal moves nothing.
    pub(crate) fn take(&mut self, timed: &TimedSheet, bytes: &[u8]) -> Result<(), Rejection>
        ensures refusal { result_err result ≡ refusal_in (outcome self.old.offs bytes.now) }
        ensures state { self.new ≡ after timed.now.sheet.limits self.old bytes.now }
    {
        let call = self.admit(bytes)?;
        self.apply(timed, call);
        Ok(())
    }

    // The host holds the switch off.
    fn is_held(&self, switch: Switch) -> bool
        ensures { result ≡ held switch self.now.offs }
    {
        match switch {
            Switch::Charge => self.offs.charge,
            Switch::Discharge => self.offs.discharge,
        }
    }

    // No standing fault blocks the switch, and no switch-off holds it.
    pub(crate) fn is_on(&self, switch: Switch) -> bool
        ensures { result ≡ is_on switch self.now }
    {
        !faults::is_blocked(switch, &self.watches.standing()) && !self.is_held(switch)
    }
}
