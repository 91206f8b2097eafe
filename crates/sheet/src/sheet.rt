// A sheet that was accepted: whoever has one knows that its fields are in range and agree. Image to sheet, sheet to image, and the delays.
ghost use Rattle.std.specs.Prelude.{◌≡◌, ◌<◌, true, Ok};
ghost use Rattle.delays.specs.Delays.{delay_of};
ghost use Rattle.layout.specs.Accepted.{sound, fits};
ghost use Rattle.layout.specs.Charging.{pre_qual_volt, precharge_below, precharge_most};
ghost use Rattle.layout.specs.Decoded.{decoded};
ghost use Rattle.layout.specs.Encoded.{image_of};
ghost use Rattle.layout.specs.Laws.{Judged, WritesBack, OneImage};

use super::shares::share;
use delays::Timer;
use judging::judge;
use layout::{IMAGE, Limits, Refusal};
use writing::write_image;

#[derive(Clone, Copy, Debug, PartialEq, Eq)]
pub struct Sheet {
    pub limits: Limits,
    ghost valid: { sound limits ≡ true },
    ghost sized: { fits limits ≡ true },
}

impl Sheet {
    ghost use Rattle.sheet.specs.Verdicts.{limits_in};

    // The sheet that an image holds, or the first refusal that the image is owed. A method and no TryFrom: each of the four promises is a
    // clause with a name here, and a trait would have them all in one ghost member. The same goes for `encode`.
    pub fn decode(image: &[u8]) -> Result<Sheet, Refusal>
        ensures value { limits_in result ≡ decoded image.now }
        ensures judged { Judged image.now (limits_in result) }
        ensures back { WritesBack image.now (limits_in result) }
        ensures only { OneImage image.now (limits_in result) }
    {
        let limits = judge(image)?;
        Ok(Sheet { limits })
    }

    // The image of the sheet, which is read as this sheet again.
    pub fn encode(&self) -> [u8; IMAGE]
        ensures value { result ≡ image_of self.now.limits }
        ensures read { decoded result ≡ Ok self.now.limits }
    {
        write_image(&self.limits)
    }

    // The delay of a timer, in milliseconds.
    pub fn delay(&self, timer: Timer) -> u32
        ensures { result ≡ delay_of timer self.now.limits.timing.delaycfg }
    {
        delays::delay(self.limits.timing.delaycfg, timer)
    }

    // Below this voltage, in mV, the cell is precharged.
    pub fn precharge_below(&self) -> u32
        ensures { result ≡ precharge_below self.now.limits }
    {
        u32::from(self.limits.levels.trip) + 50 * u32::from(self.pre_qual_volt())
    }

    // PreQualVolt, in steps of 50 mV above the under-voltage trip.
    pub fn pre_qual_volt(&self) -> u16
        ensures value { result ≡ pre_qual_volt self.now.limits.levels.chargecfg }
        ensures bound { result < 16 }
    {
        (self.limits.levels.chargecfg >> 9) % 16
    }

    // The most that precharging allows, in mA: a share of the Room row's current.
    pub fn precharge_most(&self) -> u16
        ensures { result ≡ precharge_most self.now.limits }
    {
        let shares = 1 + self.limits.levels.chargecfg % 64;
        share::<256>(self.limits.rows[ROOM].current, shares)
    }
}

const ROOM: usize = 3;
