// The boundaries of each kind of rule of the sheet image, on both sides, from a table. The stored cases of `corpus` have every place.
#![tactic(auto)]

#[cfg(test)]
mod tests {
    use sample::sample_image;
    use sheet::{IMAGE, Refusal, Sheet, Verdict, VerdictNumbers};
    use std::process::Abort;
    use std::test::Fail;

    // A word put into the sample at the place of its low byte, and another one (116 puts none); then the number and place of the
    // verdict that is due once the sum is right.
    const CASES: &str = "\
# as it is
116 0 116 0 0 0
# under-voltage trip, up to the release
22 3000 116 0 0 0
22 3001 116 0 6 24
22 5000 116 0 6 24
22 5001 116 0 5 22
# release
24 2800 116 0 0 0
24 2799 116 0 6 24
24 5000 116 0 0 0
24 5001 116 0 5 24
# shutdown
26 5000 116 0 0 0
26 5001 116 0 5 26
# over-voltage drop, up to the lowest level of a row
28 4100 116 0 0 0
28 4101 116 0 6 96
28 4151 116 0 6 60
28 5000 116 0 6 60
28 5001 116 0 5 28
# permanent over-voltage
30 5000 116 0 0 0
30 5001 116 0 5 30
# over-currents
32 20000 116 0 0 0
32 20001 116 0 5 32
34 20000 116 0 0 0
34 20001 116 0 5 34
# full voltage, drop and current
36 5000 116 0 0 0
36 5001 116 0 5 36
38 5000 116 0 0 0
38 5001 116 0 5 38
40 20000 116 0 0 0
40 20001 116 0 5 40
# charge word: only D13 must be clear
42 57343 116 0 0 0
42 8192 116 0 5 42
# first and last edge (two bytes at a time)
44 128 116 0 0 0
44 0 116 0 0 0
44 1 116 0 6 45
50 12850 116 0 0 0
50 12594 116 0 6 51
50 32562 116 0 0 0
# hysteresis, after the permanent degree
54 5195 116 0 0 0
54 5451 116 0 5 55
# the first row
56 20000 116 0 0 0
56 20001 116 0 5 56
58 4150 116 0 0 0
58 4151 116 0 6 58
58 5000 116 0 6 58
58 5001 116 0 5 58
60 4000 116 0 0 0
60 3999 116 0 6 58
60 5000 116 0 0 0
60 5001 116 0 5 60
58 50 60 100 0 0
58 50 60 99 6 60
# the last row
92 20001 116 0 5 92
94 4101 116 0 6 94
96 5001 116 0 5 96
94 0 96 99 6 96
# step voltages
98 3950 116 0 0 0
98 3951 116 0 6 100
98 5001 116 0 5 98
100 4050 116 0 0 0
100 4051 116 0 6 102
104 4050 116 0 0 0
104 4049 116 0 6 104
104 5000 116 0 0 0
104 5001 116 0 5 104
# ratios (two bytes at a time)
106 3088 116 0 0 0
106 3089 116 0 5 106
106 3598 116 0 0 0
106 3854 116 0 6 107
108 2570 116 0 0 0
108 2826 116 0 6 109
108 4362 116 0 5 109
106 4112 116 0 0 0
107 3340 116 0 6 108
# any delay word, and the switch word's D15-D13
110 65535 116 0 0 0
112 0 116 0 0 0
112 8192 116 0 5 112
112 16384 116 0 5 112
112 32768 116 0 5 112
# the lowest place, and ranges before agreement
40 20001 112 8192 5 40
24 2799 112 8192 5 112
24 2799 100 0 6 24
# edition, count and entries before the ranges
0 1282 116 0 2 0
0 1280 116 0 2 0
0 1025 116 0 2 0
0 1537 116 0 2 0
2 5634 116 0 3 1
2 5889 116 0 3 1
4 23 116 0 3 1
4 278 116 0 3 1
6 3075 116 0 3 2
8 45 116 0 3 2
10 11011 116 0 3 3
12 55 116 0 3 3
14 3077 116 0 3 4
16 97 116 0 3 4
18 773 116 0 3 5
20 111 116 0 3 5
20 366 116 0 3 5
4 23 22 5001 3 1
8 45 20 111 3 2";

    fn put(image: &mut [u8; IMAGE], at: usize, word: u16) {
        if at < IMAGE - 1 {
            image[at..at + 2].copy_from_slice(&word.to_le_bytes());
        }
    }

    fn sum(image: &[u8; IMAGE]) -> u16 {
        image[..114]
            .iter()
            .fold(0, |sum: u16, byte| sum.wrapping_add(u16::from(*byte)))
    }

    fn verdict(image: &[u8]) -> Verdict {
        Verdict::from(&Sheet::decode(image))
    }

    // The number and the place as the line of a verdict has them: the tests keep the numbers of the format.
    fn expect(rt: &impl Abort, image: &[u8], number: u8, place: u8) {
        let v = verdict(image);
        assert_eq!(rt; v.number(), number);
        assert_eq!(rt; v.place(), place);
    }

    fn numbers(rt: &impl Abort, line: &str) -> Result<[u16; 6], Fail> {
        let mut numbers = [0; 6];
        let mut words = line.split(' ');
        for number in &mut numbers {
            *number = words.next().expect(rt, "six words").parse()?;
        }
        assert!(rt; words.next().is_none());
        Ok(numbers)
    }

    fn try_case(rt: &impl Abort, line: &str) -> Result<(), Fail> {
        let [at, word, next, other, number, place] = numbers(rt, line)?;
        let mut image = sample_image();
        put(&mut image, usize::from(at), word);
        put(&mut image, usize::from(next), other);
        let total = sum(&image);
        put(&mut image, 114, total);
        let v = verdict(&image);
        assert_eq!(rt; u16::from(v.number()), number, "{line}");
        assert_eq!(rt; u16::from(v.place()), place, "{line}");
        Ok(())
    }

    #[test]
    fn every_rule_on_both_sides(rt: HostRuntime) -> Result<(), Fail> {
        for line in CASES.lines().filter(|line| !line.starts_with('#')) {
            try_case(&rt, line)?;
        }
        Ok(())
    }

    #[test]
    fn lengths_and_sums(rt: HostRuntime) {
        expect(&rt, &[], 1, 0);
        expect(&rt, &[1; 117], 1, 0);
        let mut image = sample_image();
        expect(&rt, &image[0..115], 1, 0);
        assert_eq!(rt; sum(&image), 6908);
        put(&mut image, 114, 6907);
        expect(&rt, &image, 4, 0);
        put(&mut image, 114, 6909);
        expect(&rt, &image, 4, 0);
        put(&mut image, 22, 5001);
        expect(&rt, &image, 4, 0);
    }

    #[test]
    fn the_sample_is_written_back(rt: HostRuntime) {
        let sheet = Sheet::decode(&sample_image()).expect(&rt, "the sample is a sheet");
        assert_eq!(rt; sheet.encode(), sample_image());
    }

    // No contract says the text of a refusal: each is compared whole.
    #[test]
    fn texts_of_the_refusals(rt: HostRuntime) -> Result<(), Fail> {
        let texts = [
            (Refusal::Length, "an image has 116 bytes"),
            (Refusal::Header, "wrong edition or count of entries"),
            (Refusal::Entry(3), "entry 3 of the contents is wrong"),
            (Refusal::Sum, "wrong sum"),
            (Refusal::Range(112), "the field at 112 is out of its range"),
            (
                Refusal::Conflict(24),
                "the field at 24 is at odds with another one",
            ),
        ];
        for (refusal, text) in texts {
            assert_eq!(rt; format!(in rt.alloc(); "{refusal}")?.as_str(), text);
        }
        Ok(())
    }

    // Numbers that no image brings: those of a pair that is out of range.
    #[test]
    fn numbers_of_no_image(rt: HostRuntime) -> Result<(), Fail> {
        let numbers = VerdictNumbers {
            number: 9,
            place: 200,
        };
        assert_eq!(rt;
            format!(in rt.alloc(); "{numbers}")?.as_str(),
            "sheet 9 200"
        );
        Ok(())
    }
}
