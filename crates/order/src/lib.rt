// Whether one sheet is at least as generous as another: a pack on the tighter one then never does what the other would not.
#![tactic(auto)]

mod fields;
mod generous;
mod zones;

pub use generous::at_least_as_generous;

#[cfg(test)]
mod tests {
    use super::at_least_as_generous;
    use sample::sample_image;
    use sheet::Sheet;
    use std::process::Abort;
    use std::test::Fail;

    // The sample with one byte less here and as much less in the sum, whose low byte is 252.
    fn with_less(rt: &impl Abort, at: usize, by: u8) -> Result<bool, Fail> {
        let mut image = sample_image();
        assert!(rt; at < 114);
        image[at] = image[at].wrapping_sub(by);
        image[114] = 252u8.saturating_sub(by);
        let sample = Sheet::decode(&sample_image())?;
        let tight = Sheet::decode(&image)?;
        assert!(rt; at_least_as_generous(&sample, &sample));
        assert!(rt; at_least_as_generous(&sample, &tight));
        Ok(at_least_as_generous(&tight, &sample))
    }

    #[test]
    fn a_tighter_sheet_is_not_as_generous(rt: HostRuntime) -> Result<(), Fail> {
        // CHGWDT 1 becomes 0; the last edge 55 becomes 54; the Room level falls by 1
        assert!(rt; !with_less(&rt, 111, 0x40)?);
        assert!(rt; !with_less(&rt, 51, 1)?);
        assert!(rt; !with_less(&rt, 78, 1)?);
        assert!(rt; with_less(&rt, 44, 0)?);
        Ok(())
    }
}
