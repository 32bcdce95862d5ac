//! A trail's memory, its file and its totals.
use records::Refusal;
use std::test::Fail;
use totals::{Totals, totals_of};
use trail::{Full, Trail};
use trail_file::{from_bytes, to_bytes};

#[test]
fn a_trail_takes_as_many_words_as_it_has_room(rt: HostRuntime) -> Result<(), Fail> {
    let mut trail = Trail::new(rt.alloc(), 2)?;
    assert_eq!(rt; trail.append(0x6000_0001), Ok(()));
    assert_eq!(rt; trail.free(), 1);
    assert_eq!(rt; trail.append(0x6000_0002), Ok(()));
    assert_eq!(rt; trail.append(0x6000_0003), Err(Full));
    assert!(rt; trail.words() == &[0x6000_0001, 0x6000_0002][0..2]);
    trail.clear();
    assert_eq!(rt; trail.free(), 2);
    Ok(())
}

#[test]
fn a_file_has_the_highest_byte_first_and_reads_back(rt: HostRuntime) {
    let mut out = [9u8; 9];
    assert_eq!(rt;
        to_bytes(&[0x7, 0x8, 0x9], &mut out),
        Err(Refusal::ShortBuffer)
    );
    assert!(rt; out == [9u8; 9]);
    assert_eq!(rt; to_bytes(&[0x77FF_FFFF, 0x3102_320F], &mut out), Ok(8));
    assert!(rt; out == [0x77, 0xFF, 0xFF, 0xFF, 0x31, 0x02, 0x32, 0x0F, 9]);
    let mut words = [5u32; 3];
    assert_eq!(rt; from_bytes(&out, &mut words), Err(Refusal::UnevenLength));
    assert_eq!(rt;
        from_bytes(&out[0..8], &mut words[0..1]),
        Err(Refusal::ShortBuffer)
    );
    assert!(rt; words == [5, 5, 5]);
    assert_eq!(rt; from_bytes(&out[0..8], &mut words), Ok(2));
    assert!(rt; words == [0x77FF_FFFF, 0x3102_320F, 5]);
}

#[test]
fn totals_tell_ends_by_outcome_and_what_is_open(rt: HostRuntime) -> Result<(), Fail> {
    let words = [
        0x3009_1000,
        0x1001_1000,
        0x3001_1000,
        0x1001_1000,
        0x1102_2800,
        0x3102_320F,
        0x1103_3000,
        0x3103_2000,
    ];
    let totals = totals_of(&words)?;
    let text = format!(in rt.alloc(); "{totals}")?;
    assert!(rt; text.as_str() == "accepted 4\ndone 2\naborted 1\nerror 1\nopen 1\n");
    Ok(())
}

#[test]
fn a_trail_without_words_has_nothing_to_book(rt: HostRuntime) {
    assert_eq!(rt; totals_of(&[]), Ok(Totals::default()));
}
