//! Payloads that are known octet by octet.
use crate::plain::Plain;
use crate::wide::{Mark, Wide};
use crc10::crc_of;
use kinds::{Cas, CasBits, Digit, Digits, System};
use std::test::Fail;
use type3::{Kind, Payload, Redundancy, Stamp, read_either, read_payload, write_payload};

const NO_BITS: CasBits = CasBits {
    a: false,
    b: false,
    c: false,
    d: false,
};

const ALL_BITS: CasBits = CasBits {
    a: true,
    b: true,
    c: true,
    d: true,
};

fn payload<T: Copy>(redundancy: u8, stamp: u16, message: T) -> Result<Payload<T>, Fail> {
    let redundancy = Redundancy::new(redundancy).ok_or_else(|| Fail::new("no redundancy"))?;
    let stamp = Stamp::new(stamp).ok_or_else(|| Fail::new("no stamp"))?;
    Ok(Payload {
        redundancy,
        stamp,
        message,
    })
}

// The number with which a payload of digits or bits is refused, if it is.
fn refused(octets: &[u8]) -> Option<u8> {
    read_either::<Digits, Cas>(octets)
        .err()
        .map(|refusal| refusal.number())
}

// (Each test keeps the octets that its buffer begins with, so that they are not one function.)
#[test]
fn no_bits(rt: HostRuntime) -> Result<(), Fail> {
    let mut octets = [0xff; 5];
    assert_eq!(rt;
        write_payload::<Cas>(payload(0, 0, NO_BITS)?, &mut octets)?,
        5
    );
    assert!(rt; octets == [0x00, 0x00, 0x00, 0x0c, 0x66]);
    Ok(())
}

#[test]
fn all_bits_of_a_late_refresh(rt: HostRuntime) -> Result<(), Fail> {
    let mut octets = [0; 5];
    assert_eq!(rt;
        write_payload::<Cas>(payload(3, 16383, ALL_BITS)?, &mut octets)?,
        5
    );
    assert!(rt; octets == [0xff, 0xff, 0x0f, 0x0c, 0x05]);
    Ok(())
}

#[test]
fn key_zero_at_full_level(rt: HostRuntime) -> Result<(), Fail> {
    let digit = Digit::new(System::Dtmf.into(), 0, 0)?;
    let mut octets = [0; 6];
    assert_eq!(rt;
        write_payload::<Digits>(payload(0, 0, digit)?, &mut octets)?,
        6
    );
    assert!(rt; octets == [0x00, 0x00, 0x00, 0x00, 0x0a, 0x55]);
    Ok(())
}

#[test]
fn key_five_and_one_wrong_bit(rt: HostRuntime) -> Result<(), Fail> {
    let digit = Digit::of_key('5', -10)?;
    let mut octets = [0; 6];
    assert_eq!(rt;
        write_payload::<Digits>(payload(0, 0, digit)?, &mut octets)?,
        6
    );
    assert!(rt; octets == [0x00, 0x00, 0x0a, 0x05, 0x0a, 0xeb]);
    assert_eq!(rt; refused(&octets), None);
    assert_eq!(rt; refused(&[0x00, 0x00, 0x0a, 0x05, 0x0a, 0xea]), Some(24));
    Ok(())
}

// Their check is right, and they name message type 0.
#[test]
fn five_zero_octets(rt: HostRuntime) {
    assert_eq!(rt; refused(&[0; 5]), Some(25));
}

// Up to three changed bits are always found, and four are not: here key zero is read as key eight.
#[test]
fn four_wrong_bits_pass(rt: HostRuntime) -> Result<(), Fail> {
    let sent = [0x00u8, 0x00, 0x00, 0x00, 0x0a, 0x55];
    let came = [0x00u8, 0x00, 0x00, 0x08, 0x0a, 0x46];
    let changed = sent.iter().zip(&came).fold(0u32, |changed, (sent, came)| {
        changed.saturating_add((sent ^ came).count_ones())
    });
    assert_eq!(rt; changed, 4);
    let read = read_payload::<Digits>(&came)?;
    assert_eq!(rt; read.message.code(), 8);
    Ok(())
}

#[test]
fn short_buffer_is_untouched(rt: HostRuntime) -> Result<(), Fail> {
    let mut octets = [0xaa; 4];
    match write_payload::<Cas>(payload(0, 0, ALL_BITS)?, &mut octets) {
        Ok(_) => Err(Fail::new("written")),
        Err(refusal) => {
            assert_eq!(rt; refusal.number(), 19);
            assert!(rt; octets == [0xaa; 4]);
            Ok(())
        }
    }
}

// "123456789" behind six zero bits, and then ten for the check: the value that catalogues of CRCs print.
#[test]
fn check_value(rt: HostRuntime) {
    let text = [
        0x00, 0xc4, 0xc8, 0xcc, 0xd0, 0xd4, 0xd8, 0xdc, 0xe0, 0xe4, 0x00,
    ];
    assert_eq!(rt; crc_of(&text), 0x199);
}

// How many bodies of digits have this cause, or none, as those that are read.
fn digit_bodies(cause: Option<u8>) -> u32 {
    let mut count = 0u32;
    for first in 0..=255 {
        for second in 0..=255 {
            let refusal = Digits::read_body(&[first, second]).err();
            if refusal.and_then(|refusal| refusal.cause()) == cause {
                count = count.saturating_add(1);
            }
        }
    }
    count
}

#[test]
fn all_bodies_of_digits(rt: HostRuntime) {
    assert_eq!(rt; digit_bodies(None), 16_640);
    assert_eq!(rt; digit_bodies(Some(1)), 0);
    assert_eq!(rt; digit_bodies(Some(2)), 32_768);
    assert_eq!(rt; digit_bodies(Some(3)), 16_128);
}

// The upper four bits are reserved, and the bits are those of the lower four.
#[test]
fn all_bodies_of_cas(rt: HostRuntime) -> Result<(), Fail> {
    for octet in 0..=255 {
        assert_eq!(rt; Cas::read_body(&[octet])?.octet(), octet % 16);
    }
    Ok(())
}

// A refresh of an old unit, with all reserved bits of the level's octet set: first under its check, then under that of the octets
// without them.
#[test]
fn key_five_of_an_old_unit(rt: HostRuntime) -> Result<(), Fail> {
    let read = read_payload::<Digits>(&[0xc5, 0xe6, 0xea, 0x05, 0x0a, 0xe8])?;
    assert_eq!(rt; read.message, Digit::of_key('5', -10)?);
    assert_eq!(rt; read.redundancy.get(), 3);
    assert_eq!(rt; read.stamp.get(), 1510);
    assert_eq!(rt; refused(&[0x00, 0x00, 0xea, 0x05, 0x0a, 0xeb]), Some(24));
    Ok(())
}

#[test]
fn a_third_kind(rt: HostRuntime) -> Result<(), Fail> {
    let mut octets = [0; 12];
    assert_eq!(rt;
        write_payload::<Wide>(payload(1, 256, Mark::Two)?, &mut octets)?,
        12
    );
    let read = read_payload::<Wide>(&octets)?;
    assert_eq!(rt; read.message, Mark::Two);
    assert_eq!(rt; read.stamp.get(), 256);
    assert_eq!(rt; refused(&octets), Some(25));
    Ok(())
}

#[test]
fn a_kind_of_plain_numbers(rt: HostRuntime) -> Result<(), Fail> {
    let mut octets = [0xff; 6];
    assert_eq!(rt;
        write_payload::<Plain>(payload(0, 0, 0x1234)?, &mut octets)?,
        6
    );
    assert!(rt; octets == [0x00, 0x00, 0x12, 0x34, 0xf9, 0x25]);
    assert_eq!(rt; read_payload::<Plain>(&octets)?.message, 0x1234);
    Ok(())
}
