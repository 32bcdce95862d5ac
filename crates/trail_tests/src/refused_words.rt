//! Words without lawful form, each next to one that has it.
use words::{BadWord, check_words, decode};

#[test]
fn words_without_lawful_form_are_refused(rt: HostRuntime) {
    let bad = [
        0,
        0x0800_0001,
        0x8000_0000,
        0xF000_0001,
        0x1805_1000,
        0x1020_1000,
        0x1005_0000,
        0x1005_6000,
        0x1007_5800,
        0x1005_1001,
        0x2820_0000,
        0x2005_0001,
        0x3005_0000,
        0x3005_4000,
        0x3005_1001,
        0x3005_2108,
        0x3005_3000,
        0x3005_3107,
        0x3005_3118,
        0x3005_320B,
        0x3005_320E,
        0x3005_3300,
        0x3005_3311,
        0x3005_3401,
        0x4000_0000,
        0x4044_0000,
        0x4021_0000,
        0x4017_0000,
        0x4801_0000,
        0x4001_0001,
        0x520A_1EFF,
        0x5DF5_E101,
        0x720A_1EFF,
        0x7DF5_E101,
    ];
    for word in bad {
        assert!(rt;
            decode(word).is_err(),
            "a word without lawful form was read"
        );
    }
    let good = [
        0x520A_1F00,
        0x5DF5_E100,
        0x720A_1F00,
        0x7DF5_E100,
        0x371F_32FF,
        0x6000_0000,
    ];
    assert_eq!(rt; check_words(&good), Ok(()));
    assert_eq!(rt;
        check_words(&[0x6000_0001, 0x5800_0000, 0x3005_320E, 0]),
        Err(BadWord { index: 2 })
    );
}
