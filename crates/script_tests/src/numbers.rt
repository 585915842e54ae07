//! Replies to lines of numbers.
use crate::between::{Language, expect_answers as expect};
use moc_devices::{OverReader, OverWriter};
use moc_lines::{LINE_LIMIT, NumberError, Numbering, Renumbering, RunError, renumber};
use moc_sphere::{InvalidName, Order};
use std::alloc::{AllocError, Global};
use std::process::Abort;
use std::str::FromStr;

// The names of the numberings.
const NAMES: [&str; 3] = ["nest", "ring", "uniq"];

// The ring indices of the cells of order 1, by nested index.
const RINGS: [u64; 48] = [
    13, 5, 4, 0, 15, 7, 6, 1, 17, 9, 8, 2, 19, 11, 10, 3, 28, 20, 27, 12, 30, 22, 21, 14, 32, 24,
    23, 16, 34, 26, 25, 18, 44, 37, 36, 29, 45, 39, 38, 31, 46, 41, 40, 33, 47, 43, 42, 35,
];

// Converts numbers of an order between two numberings, given by name.
fn numbers(from: &str, to: &str, order: u8) -> Option<Language> {
    Some(Language::Numbers(Renumbering {
        from: Numbering::from_str(from).ok()?,
        to: Numbering::from_str(to).ok()?,
        order: Order::new(order)?,
    }))
}

// The numbers of the cells of order 1 in this numbering, by nested index, one a line.
fn cells_of_order_1(alloc: Global, name: &str) -> Result<String, AllocError> {
    let mut lines = String::new(alloc);
    for (index, ring) in RINGS.iter().enumerate() {
        let number = match name {
            "nest" => index as u64,
            "ring" => *ring,
            _ => (index as u64).saturating_add(16),
        };
        lines.push_str(format!(in alloc; "{number}\n")?.as_str())?;
    }
    Ok(lines)
}

#[test]
fn all_cells_of_order_1(rt: HostRuntime) {
    for from in NAMES {
        let shown = Numbering::from_str(from).expect(&rt, "a numbering");
        let text = shown.to_string(rt.alloc()).expect(&rt, "memory");
        assert_eq!(&rt; text.as_str(), from);
        for to in NAMES {
            let lines = cells_of_order_1(rt.alloc(), from).expect(&rt, "memory");
            let answers = cells_of_order_1(rt.alloc(), to).expect(&rt, "memory");
            let language = numbers(from, to, 1).expect(&rt, "numberings");
            expect(
                &rt,
                rt.alloc(),
                language,
                lines.as_bytes(),
                answers.as_bytes(),
            );
        }
    }
    assert!(rt;
        Numbering::from_str("nested")
            == Err(InvalidName {
                expected: "`nest`, `ring` or `uniq`"
            })
    );
}

// Cells of the smallest and of the largest order: the first and the last in a numbering.
#[test]
fn ends_of_orders(rt: HostRuntime) {
    for (order, lines) in [
        (0, ["0\n11\n", "0\n11\n", "4\n15\n"]),
        (
            29,
            [
                "0\n288230376151711743\n3458764513820540927\n3170534137668829184\n",
                "1729382253957480448\n0\n1729382259863060480\n3458764513820540927\n",
                "1152921504606846976\n1441151880758558719\n4611686018427387903\n4323455642275676160\n",
            ],
        ),
    ] {
        for (from, given) in NAMES.iter().zip(lines.iter()) {
            for (to, answers) in NAMES.iter().zip(lines.iter()) {
                let language = numbers(from, to, order).expect(&rt, "numberings");
                expect(
                    &rt,
                    rt.alloc(),
                    language,
                    given.as_bytes(),
                    answers.as_bytes(),
                );
            }
        }
    }
}

// Errors of fields are the same for every numbering.
#[test]
fn invalid_fields(rt: HostRuntime) {
    let fields = b"1 2\nx 2\n2 x\nx\n-1\n+1\n1x\n1;2\n0x1\n1.0\n";
    let expected_text = b"\
fault WrongCount
fault WrongCount
fault WrongCount
fault BadNumber
fault BadNumber
fault BadNumber
fault BadNumber
fault BadNumber
fault BadNumber
fault BadNumber
";
    for from in NAMES {
        expect(
            &rt,
            rt.alloc(),
            numbers(from, "ring", 3).expect(&rt, "numberings"),
            fields,
            expected_text,
        );
    }
}

// A number of more than 64 bits is too large, as a number of 64 bits is.
#[test]
fn invalid_numbers(rt: HostRuntime) {
    for (from, lines, answers) in [
        (
            "nest",
            "12\n11\n18446744073709551615\n18446744073709551616\n340282366920938463463374607431768211456\n",
            "fault CellTooLarge\n15\nfault CellTooLarge\nfault CellTooLarge\nfault CellTooLarge\n",
        ),
        (
            "nest",
            "0000000000000000011\n00000000000000000011\n9999999999999999999\n10000000000000000000\n",
            "15\n15\nfault CellTooLarge\nfault CellTooLarge\n",
        ),
        (
            "ring",
            "12\n11\n18446744073709551615\n18446744073709551616\n18446744073709551627\n",
            "fault RingTooLarge\n15\nfault RingTooLarge\nfault RingTooLarge\nfault RingTooLarge\n",
        ),
        (
            "uniq",
            "3\n4\n15\n16\n4611686018427387903\n4611686018427387904\n18446744073709551620\n",
            "fault NotUniq\n4\n15\nfault OtherOrder\nfault OtherOrder\nfault NotUniq\nfault NotUniq\n",
        ),
    ] {
        let language = numbers(from, "uniq", 0).expect(&rt, "numberings");
        expect(
            &rt,
            rt.alloc(),
            language,
            lines.as_bytes(),
            answers.as_bytes(),
        );
    }
    expect(
        &rt,
        rt.alloc(),
        numbers("uniq", "nest", 1).expect(&rt, "numberings"),
        b"15\n16\n63\n64\n",
        b"fault OtherOrder\n0\n47\nfault OtherOrder\n",
    );
}

// Blank lines have no reply; blanks around a number and leading zeros are skipped; the last line needs no line feed.
#[test]
fn blanks_and_line_ends(rt: HostRuntime) {
    for blanks in ["", "\n \t\r\n\r\n  "] {
        let language = numbers("nest", "ring", 1).expect(&rt, "numberings");
        expect(&rt, rt.alloc(), language, blanks.as_bytes(), b"");
    }
    let language = numbers("nest", "ring", 1).expect(&rt, "numberings");
    let lines = b"0\r\n\n \t1 \t\r\n\r\n00000000000000000000002\nx\n\n3";
    expect(
        &rt,
        rt.alloc(),
        language,
        lines,
        b"13\n5\n4\nfault BadNumber\n0\n",
    );
}

// A number, a line of this number of zeros, and another number.
fn lines_with_zeros(alloc: Global, zeros: usize) -> Result<Vec<u8>, AllocError> {
    let mut lines = Vec::from_slice(alloc, b"1\n")?;
    let end = lines.len().saturating_add(zeros);
    lines.resize(end, b'0')?;
    lines.extend_from_slice(b"\n2\n")?;
    Ok(lines)
}

// Checks the replies to such lines, from the nested indices of order 1 to the ring indices.
fn expect_over_zeros(
    rt: &impl Abort,
    alloc: Global,
    zeros: usize,
    expected_result: Result<(), RunError>,
    answers: &[u8],
) {
    let lines = lines_with_zeros(alloc, zeros).expect(rt, "memory");
    let mut text = Vec::new(alloc);
    let ended = renumber(
        alloc,
        &mut OverReader::new(lines.as_slice()),
        &mut OverWriter::new(&mut text),
        Renumbering {
            from: Numbering::Nest,
            to: Numbering::Ring,
            order: Order::of(1),
        },
    );
    assert_eq!(rt; ended, expected_result);
    assert_eq!(rt; text.as_slice(), answers);
}

#[test]
fn one_number(rt: HostRuntime) {
    let (nest, ring, uniq) = (Numbering::Nest, Numbering::Ring, Numbering::Uniq);
    for (from, to, number, expected_text) in [
        (nest, ring, 18, Ok(27)),
        (ring, nest, 27, Ok(18)),
        (uniq, ring, 34, Ok(27)),
        (nest, uniq, 48, Err(NumberError::CellTooLarge)),
        (ring, uniq, u64::MAX, Err(NumberError::RingTooLarge)),
        (uniq, nest, 3, Err(NumberError::NotUniq)),
        (uniq, nest, 15, Err(NumberError::OtherOrder)),
    ] {
        let order = Order::of(1);
        assert_eq!(rt;
            Renumbering { from, to, order }.apply(number),
            expected_text
        );
    }
    let faults = [NumberError::WrongCount, NumberError::BadNumber];
    assert_eq!(rt; faults.map(NumberError::name), ["WrongCount", "BadNumber"]);
}

#[test]
fn longest_line(rt: HostRuntime) {
    let too_long = Err(RunError::LineTooLong { line: 2 });
    expect_over_zeros(&rt, rt.alloc(), LINE_LIMIT, Ok(()), b"5\n13\n4\n");
    expect_over_zeros(
        &rt,
        rt.alloc(),
        LINE_LIMIT.saturating_add(1),
        too_long,
        b"5\n",
    );
}
