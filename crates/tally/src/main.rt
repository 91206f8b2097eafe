// Reads and decides as packminder does, but prints no line for a record: only, at the end, how many came and the sum of all numbers
// of their answers. With it the work of deciding is measured apart from that of printing.
#![tactic(auto)]

use answers::Answer;
use feed::{each_record, fill};
use pack::Pack;
use prescribers::usual;
use sheet::{IMAGE, Sheet, Verdict};
use std::io;
use std::io::{BufWriter, Read, Write};

#[derive(Debug, Drop)]
struct Tally {
    records: u64,
    sum: u64,
}

impl Tally {
    fn add(&mut self, answer: &Answer) {
        self.records = self.records.wrapping_add(1);
        let switches = u64::from(answer.charge) + 2 * u64::from(answer.discharge);
        let region = i8::from(answer.region).cast_unsigned().wrapping_add(4);
        // Each of the seven has 16 bits at most, so their sum fits.
        let numbers = u64::from(answer.refusal.map_or(0, u8::from))
            + switches
            + u64::from(answer.faults)
            + u64::from(answer.current)
            + u64::from(answer.voltage)
            + u64::from(answer.level)
            + u64::from(region);
        self.sum = self.sum.wrapping_add(numbers);
    }
}

// Judges the image, and minds a new pack until the input ends if it makes a sheet.
fn run<R: Read, W: Write>(input: &mut R, out: &mut W) -> io::Result<()> {
    let mut image = [0u8; IMAGE];
    let judged = Sheet::decode(fill(input, &mut image)?);
    let verdict = Verdict::from(&judged);
    writeln!(out, "{verdict}")?;
    let Ok(sheet) = judged else {
        return Ok(());
    };
    let mut pack = Pack::new(sheet, usual(&sheet));
    let mut tally = Tally { records: 0, sum: 0 };
    each_record(input, |record| {
        tally.add(&pack.call(record));
        Ok(())
    })?;
    let Tally { records, sum } = tally;
    writeln!(out, "{records} {sum}")
}

fn main(rt: HostRuntime) -> io::Result<()> {
    let mut out = BufWriter::new(rt.alloc(), rt.stdout())?;
    run(&mut rt.stdin(), &mut out)?;
    out.flush()
}
