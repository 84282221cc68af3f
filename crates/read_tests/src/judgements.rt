// The judgement of a message that was walked, as a call of its own.
use crate::build::KEY;
use crate::profiles::{OLD, told, whole};
use profile::Fixed;
use reader::{judge, read};
use std::test::Fail;
use wire::{Refusal, Row};

#[test]
fn a_message_that_was_walked(rt: HostRuntime) -> Result<(), Fail> {
    let message = whole(rt.alloc(), 2, 0)?;
    let mut table = [Row::BLANK; 24];
    let walked = read(&message, &mut table, &Fixed::Csk, &KEY);
    assert_eq!(rt; walked, told(11, 10, 89));
    let rows = &table[..11];
    let purpose = Refusal::FieldNotTaken { byte: 4, field: 3 };
    for (profile, span, answer) in [
        (Fixed::Csk, 89, Ok(())),
        (Fixed::Csk, 88, Err(Refusal::NotPassed(88))),
        (Fixed::Pck, 89, Err(purpose)),
        (Fixed::Pck, 88, Err(purpose)),
    ] {
        assert_eq!(rt; judge(&message, rows, span, &profile, &KEY), answer);
    }
    Ok(())
}

// Rows of no message, and a span past the end.
#[test]
fn rows_that_lie_elsewhere(rt: HostRuntime) -> Result<(), Fail> {
    let message = whole(rt.alloc(), 2, 0)?;
    let answer = judge(&message, &[OLD], 9000, &Fixed::Csk, &KEY);
    assert_eq!(rt;
        answer,
        Err(Refusal::BelowLeast {
            length: 97,
            slot: 1
        })
    );
    Ok(())
}
