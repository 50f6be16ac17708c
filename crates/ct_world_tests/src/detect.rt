use ct_detect::{Always, Ask, Detector, EveryNth, Listed, Never, Seeded};
use ct_names::MemberSet;
use std::test::Fail;

// The answers to asks of the first six coordinators, one after another.
fn six(detector: &mut dyn Detector) -> [bool; 6] {
    let mut answers = [false; 6];
    for i in 0..6u8 {
        answers[usize::from(i)] = detector.suspects(Ask {
            member: 1,
            coordinator: i + 1,
            instance: 3,
            round: u32::from(i) + 1,
        });
    }
    answers
}

#[test]
fn detectors_suspect_as_they_are_told(rt: HostRuntime) -> Result<(), Fail> {
    let mut third = EveryNth::new(3).ok_or("some")?;
    let mut second = MemberSet::new();
    second.insert(2);
    assert!(rt; EveryNth::new(0).is_none());
    assert_eq!(rt; six(&mut third), [false, false, true, false, false, true]);
    assert_eq!(rt;
        six(&mut Listed::new(second)),
        [false, true, false, false, false, false]
    );
    assert_eq!(rt; six(&mut Never::new()), [false; 6]);
    assert_eq!(rt; six(&mut Always::new()), [true; 6]);
    assert_eq!(rt; six(&mut Seeded::new(42, 0)), [false; 6]);
    assert_eq!(rt; six(&mut Seeded::new(42, 256)), [true; 6]);
    Ok(())
}
