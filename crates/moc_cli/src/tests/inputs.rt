//! The calls of `moc_conversion` by themselves. Expected texts are worked out by hand.
use moc_conversion::{
    InputError, change_input, check_input, combine_input, convert_input, describe_input,
    draw_input, report_error,
};
use moc_devices::{OverReader, OverWriter};
use moc_forms::{Change, Format, FormatChoice, Operation, PictureNames};
use moc_sphere::Order;
use std::alloc::Global;
use std::io::{self, Read};
use std::process::Abort;

/// The maximal number of bytes of a text that is converted.
const CONVERSION_LIMIT: usize = 16_777_216;

/// A picture without names.
const NO_NAMES: PictureNames<'static> = PictureNames {
    first: None,
    second: None,
};

/// The call that processes an input.
#[derive(Clone, Copy)]
enum InputCall {
    Convert(Format, Format),
    Check(FormatChoice),
    Describe(FormatChoice),
    Draw(FormatChoice),
    Change(Change),
    Combine(Operation),
}

impl InputCall {
    /// Returns the output for this text; empty if the text is only checked.
    fn of(self, alloc: Global, text: &str) -> Result<String, InputError> {
        let input = &mut OverReader::new(text.as_bytes());
        match self {
            InputCall::Convert(from, to) => convert_input(alloc, from, to, input),
            InputCall::Check(choice) => match check_input(alloc, choice, input) {
                Ok(_) => Ok(String::new(alloc)),
                Err(error) => Err(error),
            },
            InputCall::Describe(choice) => describe_input(alloc, choice, input),
            InputCall::Draw(choice) => draw_input(alloc, choice, NO_NAMES, input),
            InputCall::Change(change) => change_input(alloc, change, FormatChoice::Auto, input),
            InputCall::Combine(operation) => {
                let (text, _) = combine_input(alloc, operation, FormatChoice::Auto, input)?;
                Ok(text)
            }
        }
    }
}

/// Checks the output for an input.
fn expect_output(rt: &impl Abort, alloc: Global, call: InputCall, text: &str, output: &str) {
    let actual = call.of(alloc, text).expect(rt, "a text");
    assert_eq!(rt; actual.as_str(), output, "{text:?}");
}

/// Checks the report of an invalid input.
fn expect_report(rt: &impl Abort, alloc: Global, call: InputCall, text: &str, report: &str) {
    let mut actual = Vec::new(alloc);
    if let Err(error) = call.of(alloc, text) {
        error
            .report(&mut OverWriter::new(&mut actual))
            .expect(rt, "memory");
    }
    assert_eq!(rt; actual.as_slice(), report.as_bytes(), "{text:?}");
}

#[test]
fn texts_of_inputs(rt: HostRuntime) {
    let choice = FormatChoice::Named(Format::Ascii);
    let statistics =
        "deepest 1\npixels 72057594037927936\nshare 0.020833333333\narea 859.436692696234\n\
         ranges 1\ncells 1\norder 1 1\n";
    for (call, text, output) in [
        (
            InputCall::Convert(Format::Ascii, Format::Json),
            "2/0-3",
            "{\"1\":[0],\"2\":[]}\n",
        ),
        (
            InputCall::Convert(Format::Uniq, Format::Ascii),
            "16\n17\n18\n19\n",
            "0/0\n",
        ),
        (InputCall::Check(FormatChoice::Auto), "{\"0\":[3]}", ""),
        (InputCall::Describe(choice), "1/3", statistics),
        (
            InputCall::Change(Change::Degrade(Order::default())),
            "1/4 2/",
            "0/1\n",
        ),
        (InputCall::Change(Change::Complement), "0/0-10", "0/11\n"),
        (
            InputCall::Combine(Operation::Difference),
            "0/0;1/3",
            "1/0-2\n",
        ),
        (
            InputCall::Combine(Operation::Symmetric),
            "0/0-1;0/1-2;0/2",
            "0/0\n",
        ),
    ] {
        expect_output(&rt, rt.alloc(), call, text, output);
    }
}

#[test]
fn pictures_of_inputs(rt: HostRuntime) {
    for text in ["0/0", "0/0;0/1"] {
        let picture = InputCall::Draw(FormatChoice::Auto)
            .of(rt.alloc(), text)
            .expect(&rt, "a picture");
        assert!(rt; picture.as_str().starts_with("<svg "), "{text}");
        assert!(rt; picture.as_str().ends_with("</svg>\n"), "{text}");
    }
}

#[test]
fn diagnostics(rt: HostRuntime) {
    for (call, text, report) in [
        (
            InputCall::Convert(Format::Ascii, Format::Json),
            "5/7-3",
            "fault Backwards\n",
        ),
        (
            InputCall::Check(FormatChoice::Named(Format::Ascii)),
            "{\"0\":[3]}",
            "fault BadByte\nbyte 0, line 1, byte 0 of it: `{\"0\":[3]}`\n\
            words look like 3/, 10, 12-14 or 3/10\nthis looks like JSON\n",
        ),
        (
            InputCall::Describe(FormatChoice::Auto),
            "1/0\n99",
            "fault CellTooLarge\nbyte 4, line 2, byte 0 of it: `99`\ncells of order 1 go up to 47\n",
        ),
        (
            InputCall::Combine(Operation::Union),
            "0/0;0/12",
            "fault CellTooLarge\ntext 2, byte 2, line 1, byte 2 of it: `0/12`\ncells of order 0 go up to 11\n",
        ),
        (
            InputCall::Check(FormatChoice::Named(Format::Uniq)),
            "4\n5 \n6",
            "fault BadByte\nline 2: `5 `\neach line is one number, of digits only\n",
        ),
    ] {
        expect_report(&rt, rt.alloc(), call, text, report);
    }
    let mut actual = Vec::new(rt.alloc());
    report_error("Spawn", &mut OverWriter::new(&mut actual)).expect(&rt, "memory");
    assert_eq!(rt; actual.as_slice(), b"fault Spawn\n".as_slice());
}

#[test]
fn json_diagnostics(rt: HostRuntime) {
    for (text, report) in [
        (
            "{\"1\":[0,]}",
            "fault NotJson\nline 1, column 9\na text is one object, as in {\"3\":[10,12]}\n",
        ),
        (
            "{\"0\":[],\"x\":[]}",
            "fault BadOrder\nname 1: `x`\nnames are orders from 0 to 29\n",
        ),
        (
            "{\"007\":1}",
            "fault NotArray\norder 7: `007`\nthe value of an order is an array, as in {\"3\":[10,12]}\n",
        ),
        (
            "{\"1\":[0,48]}",
            "fault CellTooLarge\norder 1, number 1: `48`\ncells of order 1 go up to 47\n",
        ),
    ] {
        expect_report(
            &rt,
            rt.alloc(),
            InputCall::Check(FormatChoice::Auto),
            text,
            report,
        );
    }
}

#[test]
fn an_input_that_is_too_long_to_convert(rt: HostRuntime) {
    let text = vec![in rt.alloc(); b' '; CONVERSION_LIMIT + 1].expect(&rt, "memory");
    let (whole, _) = text.split_at(CONVERSION_LIMIT);
    let converted = convert_input(
        rt.alloc(),
        Format::Ascii,
        Format::Ascii,
        &mut OverReader::new(whole),
    );
    assert!(rt; converted.is_ok());
    let converted = convert_input(
        rt.alloc(),
        Format::Ascii,
        Format::Ascii,
        &mut OverReader::new(text.as_slice()),
    );
    assert!(rt; matches!(&converted, Err(InputError::TooLong { number: None })));
    let read = check_input(
        rt.alloc(),
        FormatChoice::Named(Format::Ascii),
        &mut OverReader::new(text.as_slice()),
    );
    assert!(rt; read.is_ok());
}

/// A reader of these bytes that counts its calls.
#[derive(Drop)]
struct CountingReader<'a> {
    bytes: &'a [u8],
    calls: u32,
}

impl Read for CountingReader<'_> {
    fn read(&mut self, buffer: &mut [u8]) -> io::Result<usize> {
        self.calls = self.calls.saturating_add(1);
        let (front, rest) = self.bytes.split_at(buffer.len().min(self.bytes.len()));
        buffer[..front.len()].copy_from_slice(front);
        self.bytes = rest;
        Ok(front.len())
    }
}

// An input of two pieces is read by three calls: one for each piece, and one that finds the end.
#[test]
fn reads_of_an_input(rt: HostRuntime) {
    let text = [b' '; 100_000];
    let mut device = CountingReader {
        bytes: text.as_slice(),
        calls: 0,
    };
    let mut input = OverReader::new(&mut device);
    let read = check_input(rt.alloc(), FormatChoice::Named(Format::Ascii), &mut input);
    assert!(rt; read.is_ok());
    drop(input);
    assert_eq!(rt; device.calls, 3);
}
