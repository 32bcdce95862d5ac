//! A line of each kind, as text, in a buffer and by `Display`.
use records::{AxisState, Cause, Outcome, Record, Refusal};
use std::test::Fail;
use text::{text_of, write_line};

#[test]
fn each_kind_has_its_line(rt: HostRuntime) -> Result<(), Fail> {
    let words = [
        0x1005_1000,
        0x1102_2800,
        0x1003_3800,
        0x1006_4000,
        0x1007_5000,
        0x2005_0000,
        0x3005_1000,
        0x3005_2000,
        0x3005_320F,
        0x3102_3108,
        0x371F_32FC,
        0x3000_3301,
        0x4001_0000,
        0x4134_0000,
        0x4056_0000,
        0x5800_0001,
        0x6000_0001,
        0x6FFF_FFFF,
        0x77FF_FFFF,
    ];
    let text = text_of(rt.alloc(), &words)?;
    assert!(rt;
        text.as_str()
            == "accept 0 5 absolute abort\n\
                accept 1 2 relative buffer\n\
                accept 0 3 velocity buffer\n\
                accept 0 6 halt abort\n\
                accept 0 7 stop abort\n\
                begin 0 5\n\
                end 0 5 done\n\
                end 0 5 aborted\n\
                end 0 5 error 2 0 15\n\
                end 1 2 error 1 0 8\n\
                end 7 31 error 2 15 12\n\
                end 0 0 error 3 0 1\n\
                state 0 disabled standstill\n\
                state 1 stopping discrete\n\
                state 0 continuous errorstop\n\
                place 1\n\
                cycle 1\n\
                cycle 268435455\n\
                target -1\n\
                "
    );
    Ok(())
}

#[test]
fn a_record_displays_as_its_line(rt: HostRuntime) -> Result<(), Fail> {
    let heap = rt.alloc();
    let cause = Cause::Drive { fault: 7 };
    let end = Record::End {
        axis: 3,
        block: 30,
        outcome: Outcome::Error { cause },
    };
    let state = Record::State {
        axis: 2,
        old: AxisState::ErrorStop,
        new: AxisState::Disabled,
    };
    let text = format!(in heap; "{end}; {state}")?;
    assert!(rt; text.as_str() == "end 3 30 error 3 0 7; state 2 errorstop disabled");
    Ok(())
}

#[test]
fn a_buffer_below_80_bytes_is_refused_first_and_left(rt: HostRuntime) {
    let mut short = [7u8; 79];
    assert_eq!(rt; write_line(0, &mut short), Err(Refusal::ShortBuffer));
    assert_eq!(rt;
        write_line(0x2005_0000, &mut short),
        Err(Refusal::ShortBuffer)
    );
    assert!(rt; short == [7u8; 79]);
    let mut room = [7u8; 80];
    assert_eq!(rt; write_line(0, &mut room), Err(Refusal::BadWord));
    assert!(rt; room == [7u8; 80]);
    assert_eq!(rt; write_line(0x5800_0001, &mut room), Ok(7));
    let held = *b"place 1\x07";
    assert!(rt; room[0..8] == held[0..8]);
}
