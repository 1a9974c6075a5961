//! The frames of Modbus TCP, byte by byte.

ghost use Rattle.std.specs.Prelude.{◌≤◌, IfSome};
ghost use Rattle.modbus_frame.specs.Frames.{IsCut};
ghost use Rattle.modbus_frame.specs.Requests.{IsExpect};

use modbus_frame::{
    Expect, Frame, MOST_QUANTITY, READ_INPUT_REGISTERS, Registers, read_response, write_request,
};
use std::test::Fail;
use test_checks::{Checks, shared};

// Register 8 of unit 17 is asked for, as an input register, in a transaction.
fn asked(transaction: u16) -> Expect
    ensures { IsExpect result }
{
    Expect {
        transaction,
        unit: 17,
        function: READ_INPUT_REGISTERS,
        start: 8,
        quantity: 1,
    }
}

// The register 10, alone.
fn ten() -> Registers {
    let mut words = [0; 125];
    words[0] = 10;
    Registers { count: 1, words }
}

// How many bytes to receive before the bytes are looked at again; none where they are a response, or wrong.
fn to_receive(bytes: &[u8], expect: &Expect) -> Option<usize>
    requires { IsExpect expect.now }
    ensures { IfSome result (λ count. IsCut expect.now bytes.now × (1 ≤ count)) }
{
    match read_response(bytes, expect) {
        Frame::Need(count) => Some(count),
        _ => None,
    }
}

#[test]
fn a_request_has_twelve_bytes(rt: HostRuntime) -> Result<(), Fail> {
    let mut checks = Checks::new(&rt);
    let request = write_request(&shared(asked(1)));
    checks.same(request, [0, 1, 0, 0, 0, 6, 17, 4, 0, 8, 0, 1]);
    Ok(checks.end()?)
}

#[test]
fn the_beginning_of_a_response_needs_more(rt: HostRuntime) -> Result<(), Fail> {
    let mut checks = Checks::new(&rt);
    let response = [0, 1, 0, 0, 0, 5, 17, 4, 2, 0, 10];
    for (given, need) in [9, 8, 7, 6, 5, 4, 5, 4, 3, 2, 1].into_iter().enumerate() {
        let received = response.get(..given).unwrap_or(&[]);
        checks.same_at(given, to_receive(received, &asked(1)), Some(need));
    }
    Ok(checks.end()?)
}

#[test]
fn a_response_is_read_whatever_follows(rt: HostRuntime) -> Result<(), Fail> {
    let mut checks = Checks::new(&rt);
    let cases = [
        (
            &[0, 1, 0, 0, 0, 5, 17, 4, 2, 0, 10][..],
            Frame::Words(shared(ten()), 11),
        ),
        (
            &[0, 1, 0, 0, 0, 5, 17, 4, 2, 0, 10, 0, 1][..],
            Frame::Words(ten(), 11),
        ),
        (&[0, 1, 0, 0, 0, 3, 17, 0x84, 2][..], Frame::Exception(2, 9)),
        (
            &[0, 1, 0, 0, 0, 3, 17, 0x84, 2, 0xFF][..],
            Frame::Exception(2, 9),
        ),
    ];
    for (bytes, want) in cases {
        checks.same_at(bytes.len(), shared(read_response(bytes, &asked(1))), want);
    }
    Ok(checks.end()?)
}

#[test]
fn the_first_field_that_disagrees_is_named(rt: HostRuntime) -> Result<(), Fail> {
    let mut checks = Checks::new(&rt);
    let cases = [
        ("a byte of two transactions", 2, &[0][..], Frame::Need(8)),
        ("another transaction", 2, &[0, 1][..], Frame::Wrong(1)),
        ("half a transaction of another", 1, &[5][..], Frame::Need(8)),
        ("a transaction of another", 1, &[5, 0][..], Frame::Wrong(1)),
        ("another protocol", 1, &[0, 1, 0, 1][..], Frame::Wrong(2)),
        ("half a length", 1, &[0, 1, 0, 0, 1][..], Frame::Need(4)),
        (
            "a length too long",
            1,
            &[0, 1, 0, 0, 1, 5][..],
            Frame::Wrong(3),
        ),
        (
            "a length of one more",
            1,
            &[0, 1, 0, 0, 0, 6][..],
            Frame::Wrong(3),
        ),
        (
            "another unit",
            1,
            &[0, 1, 0, 0, 0, 5, 18][..],
            Frame::Wrong(4),
        ),
        (
            "another function",
            1,
            &[0, 1, 0, 0, 0, 5, 17, 3][..],
            Frame::Wrong(5),
        ),
        (
            "an exception of a good length",
            1,
            &[0, 1, 0, 0, 0, 5, 17, 0x84][..],
            Frame::Wrong(5),
        ),
        (
            "a function of an exception's length",
            1,
            &[0, 1, 0, 0, 0, 3, 17, 4][..],
            Frame::Wrong(5),
        ),
        (
            "another byte count",
            1,
            &[0, 1, 0, 0, 0, 5, 17, 4, 3][..],
            Frame::Wrong(6),
        ),
    ];
    for (name, transaction, bytes, want) in cases {
        checks.same_at(name, read_response(bytes, &asked(transaction)), want);
    }
    Ok(checks.end()?)
}

// 125 registers, the last of them 0x0102.
fn most_registers() -> Registers {
    let mut words = [0; 125];
    words[124] = 0x0102;
    Registers { count: 125, words }
}

// What bytes are as a response with 125 registers.
fn check_longest<R: Print>(checks: &mut Checks<'_, R>, name: &str, bytes: &[u8], want: Frame) {
    let expect = Expect {
        quantity: MOST_QUANTITY,
        ..asked(1)
    };
    checks.same_at(name, read_response(bytes, &expect), want);
}

#[test]
fn a_response_has_up_to_125_registers(rt: HostRuntime) -> Result<(), Fail> {
    let mut checks = Checks::new(&rt);
    let mut bytes = [0; 259];
    bytes[..9].copy_from_slice(&[0, 1, 0, 0, 0, 253, 17, 4, 250]);
    bytes[257..].copy_from_slice(&[1, 2]);
    let words = Frame::Words(most_registers(), 259);
    check_longest(&mut checks, "all bytes", &bytes, words);
    check_longest(&mut checks, "one less", &bytes[..258], Frame::Need(1));
    Ok(checks.end()?)
}
