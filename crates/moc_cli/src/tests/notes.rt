//! Notes on valid inputs.
use crate::tests::program_end::expect;

/// The note on one text.
const ONE_TEXT: &str = "note: only one text; a semicolon separates texts\n";

#[test]
fn notes_of_checks(rt: HostRuntime) {
    let incomplete = "note: the last line has no line feed; the text may be incomplete\n";
    for (input, notes) in [
        ("", "note: the input is empty\n"),
        ("\n", ""),
        ("0/3", incomplete),
        ("0/3\n", ""),
        ("0/3\n1/5", incomplete),
        ("{\"0\":[3]}", ""),
        ("{\"0\":[3]}\n ", ""),
    ] {
        expect(&rt, rt.alloc(), &["check", "auto"], input, 0, "ok\n", notes);
    }
}

#[test]
fn notes_of_one_text(rt: HostRuntime) {
    for (input, output) in [("0/3", "0/3\n"), ("0/3;", "0/3\n"), ("0/3; \r\n", "0/3\n")] {
        let arguments = ["combine", "union", "ascii"];
        expect(&rt, rt.alloc(), &arguments, input, 0, output, ONE_TEXT);
    }
}

#[test]
fn notes_of_texts_without_cells(rt: HostRuntime) {
    let both = "note: only one text; a semicolon separates texts\nnote: text 1 has no cells\n";
    for (arguments, input, output, notes) in [
        (["combine", "union", "ascii"], "", "\n", both),
        (["combine", "union", "ascii"], ";", "\n", both),
        (["combine", "union", "ascii"], "0/1-2;0/0", "0/0-2\n", ""),
        (
            ["combine", "union", "ascii"],
            ";0/0",
            "0/0\n",
            "note: text 1 has no cells\n",
        ),
        (
            ["combine", "intersection", "ascii"],
            "0/0-1;0/1;,",
            "0/\n",
            "note: text 3 has no cells\n",
        ),
        (
            ["combine", "union", "json"],
            "{\"0\":[1]};{};{\"3\":[]};{}\n",
            "{\"0\":[1],\"3\":[]}\n",
            "note: text 2 has no cells\n",
        ),
    ] {
        expect(&rt, rt.alloc(), &arguments, input, 0, output, notes);
    }
}
