// Input for a program, in pieces of a known size.
#![tactic(auto)]

ghost use Rattle.std.specs.Prelude.{◌<◌, ◌≤◌, length, IfOk};

use calls::RECORD;
use std::io;
use std::io::Read;

// Room for 341 records.
const ROOM: usize = 341 * RECORD;

// Fills the buffer from its start, as far as the input goes, and answers how many bytes came.
fn fill_count<R: Read>(input: &mut R, buffer: &mut [u8]) -> io::Result<usize>
    ensures { IfOk result (λ n. n ≤ length buffer.old) }
{
    let mut have = 0;
    // counted by hand, since a read says only how many bytes came: there is no list to go over
    while have < buffer.len() {
        let n = input.read(&mut buffer[have..])?;
        if n == 0 {
            break;
        }
        have += n;
    }
    Ok(have)
}

// Fills the buffer from its start, as far as the input goes, and answers the bytes that came. A pipe may bring them one by one, so
// fewer than the buffer takes came only where the input has ended.
pub fn fill<'a, R: Read>(input: &mut R, buffer: &'a mut [u8]) -> io::Result<&'a [u8]>
    ensures { IfOk result (λ came. length came.now ≤ length buffer.old) }
{
    let have = fill_count(input, buffer)?;
    Ok(&buffer[..have])
}

// Hands over the records of the input, one after the other, until it ends. A last one that was cut short is handed over too.
pub fn each_record<R: Read, F: FnMut(&[u8]) -> io::Result<()>>(
    input: &mut R,
    mut each: F,
) -> io::Result<()>
    requires { (state : F) (piece : _) → 0 < length piece.now → length piece.now ≤ RECORD → F.pre state piece }
{
    let mut buffer = [0u8; ROOM];
    // no input reaches this bound: every function has to end
    for _ in 0..u64::MAX {
        let records = fill(input, &mut buffer)?;
        for record in records.chunks(RECORD) {
            each(record)?;
        }
        if records.len() < ROOM {
            break;
        }
    }
    Ok(())
}

#[cfg(test)]
mod tests {
    use super::{RECORD, each_record, fill};
    use std::io::Read;
    use std::test::Fail;

    // One read never reaches past the end of a part, so the first buffer takes two reads.
    #[test]
    fn goes_on_after_a_short_read(rt: HostRuntime) -> Result<(), Fail> {
        let first: &[u8] = b"ab";
        let second: &[u8] = b"cde";
        let mut input = first.chain(second);
        let mut buffer = [0u8; 4];
        assert!(rt; fill(&mut input, &mut buffer)? == b"abcd".as_slice());
        assert!(rt; fill(&mut input, &mut buffer)? == b"e".as_slice());
        assert!(rt; buffer == *b"ebcd");
        assert!(rt; fill(&mut input, &mut buffer)?.is_empty());
        Ok(())
    }

    // More than one buffer takes, and the last record is one byte long.
    #[test]
    fn hands_over_each_record(rt: HostRuntime) -> Result<(), Fail> {
        let bytes = [7u8; 4105];
        let mut input: &[u8] = &bytes;
        let mut whole: u64 = 0;
        let mut cut: u64 = 0;
        each_record(&mut input, |record| {
            if record.len() == RECORD {
                whole = whole.wrapping_add(1);
            } else {
                cut = cut.wrapping_add(record.len() as u64);
            }
            Ok(())
        })?;
        assert_eq!(rt; whole, 342);
        assert_eq!(rt; cut, 1);
        Ok(())
    }
}
