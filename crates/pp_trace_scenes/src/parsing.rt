//! Traces with their calls, or with their first bad line and its cause.

use pp_model::Call;
use pp_trace::{Number, Span, TraceFault, Why, next_field, next_line, parse, read_number};
use std::alloc::Global;
use std::test::Fail;

const GIVEN: [(&[u8], [&[Call]; 2]); 12] = [
    (b"", [&[], &[]]),
    (b"\n\r\n \t\n\r", [&[], &[]]),
    (b"#1 get 1\n \t# \xff\xfe\n#", [&[], &[]]),
    (b"1 get 5", [&[], &[Call::Get { key: 5 }]]),
    (b"1 get 5\r", [&[], &[Call::Get { key: 5 }]]),
    (
        b"# try\r\n\r\n\t0  insert\t007 1 \r\n0 get 7",
        [
            &[Call::Insert { key: 7, value: 1 }, Call::Get { key: 7 }],
            &[],
        ],
    ),
    (
        b"0 insert 1 10\n1 insert 2 20\n1 get 2\n0 remove 1\n",
        [
            &[Call::Insert { key: 1, value: 10 }, Call::Remove { key: 1 }],
            &[Call::Insert { key: 2, value: 20 }, Call::Get { key: 2 }],
        ],
    ),
    (
        b"0 insert 18446744073709551612 18446744073709551615",
        [
            &[Call::Insert {
                key: 18446744073709551612,
                value: 18446744073709551615,
            }],
            &[],
        ],
    ),
    (
        b"0001 remove 000000000000000000000000000000000000000000000000000000000000000000000000000000000000000000000000000000004",
        [&[], &[Call::Remove { key: 4 }]],
    ),
    (b"trace 2", [&[], &[]]),
    (
        b"trace 2\n0 insert 7 340282366920938463463374607431768211455\n1 get 7\n0 cut 7 18446744073709551616\n1 remove 7\n",
        [
            &[
                Call::Insert {
                    key: 7,
                    value: 340282366920938463463374607431768211455,
                },
                Call::Cut {
                    key: 7,
                    value: 18446744073709551616,
                },
            ],
            &[Call::Get { key: 7 }, Call::Remove { key: 7 }],
        ],
    ),
    (
        b"# try\r\n\r\n \t\n\ttrace \t2 \r\n1 cut 18446744073709551612 0",
        [
            &[],
            &[Call::Cut {
                key: 18446744073709551612,
                value: 0,
            }],
        ],
    ),
];

#[test]
fn traces_give_their_calls(rt: HostRuntime) -> Result<(), Fail> {
    for (number, (text, expected)) in GIVEN.iter().enumerate() {
        assert!(rt; text.len() <= 1000);
        let trace = match parse(rt.alloc(), text, 2) {
            Ok(trace) => trace,
            Err(fault) => {
                assert!(rt; false, "row {number}: {fault:?}");
                return Ok(());
            }
        };
        assert_eq!(rt; trace.callers(), 2);
        for (list, calls) in trace.into_lists().iter().zip(expected) {
            assert_eq!(rt; list.as_slice(), *calls, "row {number}");
        }
    }
    Ok(())
}

/// The first of these traces that isn't refused at its line, for its cause.
fn accepted(alloc: Global, rows: &[(&[u8], u32, Why)]) -> Result<Option<usize>, Fail> {
    for (number, (text, line, why)) in rows.iter().enumerate() {
        let fault = TraceFault::BadLine {
            line: *line,
            why: *why,
        };
        if text.len() > 1000 || parse(alloc, text, 4).err() != Some(fault) {
            return Ok(Some(number));
        }
    }
    Ok(None)
}

#[test]
fn a_bad_caller_is_told(rt: HostRuntime) -> Result<(), Fail> {
    let rows: [(&[u8], u32, Why); 6] = [
        (b"4 get 1", 1, Why::Caller),
        (b"0 get 1\n4 get 1", 2, Why::Caller),
        (b"+0 get 1", 1, Why::Caller),
        (b"\xff get 1", 1, Why::Caller),
        (b"9 put x", 1, Why::Caller),
        (
            b"340282366920938463463374607431768211456 get 1",
            1,
            Why::Caller,
        ),
    ];
    assert_eq!(rt; accepted(rt.alloc(), &rows)?, None);
    Ok(())
}

#[test]
fn a_line_that_names_a_form_stands_first(rt: HostRuntime) -> Result<(), Fail> {
    let rows: [(&[u8], u32, Why); 10] = [
        (b"trace 3", 1, Why::Caller),
        (b"trace", 1, Why::Caller),
        (b"trace 02", 1, Why::Caller),
        (b"trace 2 x", 1, Why::Caller),
        (b"Trace 2\n0 cut 7 1", 1, Why::Caller),
        (b"trace2\n0 cut 7 1", 1, Why::Caller),
        (b"trace 2\r\r\n0 cut 7 1", 1, Why::Caller),
        (b"0 get 1\ntrace 2", 2, Why::Caller),
        (b"#\n0 get 1\n\ntrace 2\n0 cut 7 1", 4, Why::Caller),
        (b"trace 2\n#\ntrace 2", 3, Why::Caller),
    ];
    assert_eq!(rt; accepted(rt.alloc(), &rows)?, None);
    Ok(())
}

#[test]
fn a_bad_word_is_told(rt: HostRuntime) -> Result<(), Fail> {
    let rows: [(&[u8], u32, Why); 9] = [
        (b"0", 1, Why::Word),
        (b"0 GET 1", 1, Why::Word),
        (b"0 get\r1", 1, Why::Word),
        (b"0 \r get 1", 1, Why::Word),
        (b"0 get 1\n0 inse", 2, Why::Word),
        (b"0 put\n0 get\n", 1, Why::Word),
        (b"\r\n#\n\n0 gets 1\r\n0", 4, Why::Word),
        (b"0 cut 7 1", 1, Why::Word),
        (b"trace 2\n0 CUT 7 1", 2, Why::Word),
    ];
    assert_eq!(rt; accepted(rt.alloc(), &rows)?, None);
    Ok(())
}

#[test]
fn a_wrong_number_of_fields_is_told(rt: HostRuntime) -> Result<(), Fail> {
    let rows: [(&[u8], u32, Why); 8] = [
        (b"0 get", 1, Why::Fields),
        (b"0 get 1 2", 1, Why::Fields),
        (b"0 get x y", 1, Why::Fields),
        (b"0 remove", 1, Why::Fields),
        (b"0 insert 1", 1, Why::Fields),
        (b"0 insert 1 2 3", 1, Why::Fields),
        (b"\n# x\ntrace 2\n0 cut 7", 4, Why::Fields),
        (b"trace 2\n0 cut 7 1 1", 2, Why::Fields),
    ];
    assert_eq!(rt; accepted(rt.alloc(), &rows)?, None);
    Ok(())
}

#[test]
fn a_bad_number_is_told(rt: HostRuntime) -> Result<(), Fail> {
    let rows: [(&[u8], u32, Why); 10] = [
        (b"0 get 1\r\r\n", 1, Why::Key),
        (b"0 get -1", 1, Why::Key),
        (b"0 insert x y", 1, Why::Key),
        (b"0 insert 18446744073709551613 1", 1, Why::Key),
        (
            b"0 get 340282366920938463463374607431768211456",
            1,
            Why::Key,
        ),
        (b"0 insert 1 18446744073709551616", 1, Why::Value),
        (b"0 insert 1 1\x00", 1, Why::Value),
        (b"trace 2\n0 cut 18446744073709551613 x", 2, Why::Key),
        (
            b"trace 2\n0 insert 7 340282366920938463463374607431768211456",
            2,
            Why::Value,
        ),
        (
            b"trace 2\n0 cut 7 340282366920938463463374607431768211456",
            2,
            Why::Value,
        ),
    ];
    assert_eq!(rt; accepted(rt.alloc(), &rows)?, None);
    Ok(())
}

#[test]
fn lines_fields_and_numbers_are_read(rt: HostRuntime) -> Result<(), Fail> {
    let text = b"a  b\r\nc";
    let span = |start, end, next| Some(Span { start, end, next });
    for (from, line) in [(0, span(0, 4, 6)), (6, span(6, 7, 7)), (7, None)] {
        assert!(rt; from <= text.len());
        assert_eq!(rt; next_line(text, from), line, "from {from}");
    }
    for (end, field) in [(4, span(3, 4, 4)), (3, None)] {
        assert!(rt; 1 <= end && end <= text.len());
        assert_eq!(rt; next_field(text, 1, end), field, "to {end}");
    }
    let greatest = Number::Is(340282366920938463463374607431768211455);
    let rows: [(&[u8], usize, usize, Number); 4] = [
        (b"340282366920938463463374607431768211455x", 0, 39, greatest),
        (
            b"340282366920938463463374607431768211455x",
            0,
            40,
            Number::Not,
        ),
        (
            b"340282366920938463463374607431768211455x",
            7,
            7,
            Number::Not,
        ),
        (
            b"340282366920938463463374607431768211456",
            0,
            39,
            Number::Above,
        ),
    ];
    for (digits, start, end, number) in rows {
        assert!(rt; start <= end && end <= digits.len());
        assert_eq!(rt;
            read_number(digits, start, end),
            number,
            "from {start} to {end}"
        );
    }
    Ok(())
}
