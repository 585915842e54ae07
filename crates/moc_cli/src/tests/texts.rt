//! Subcommands that write texts of coverages, diagnostics and statistics.
use crate::tests::program_end::expect;

#[test]
fn conversions(rt: HostRuntime) {
    let list = "16\n17\n\n18\n19";
    let text = "1/1-2 4 2/12-14 21 23 25 8/";
    for (arguments, input, output) in [
        (["convert", "uniq", "ascii"], list, "0/0\n"),
        (["convert", "uniq", "json"], list, "{\"0\":[0]}\n"),
        (["convert", "ascii", "ascii"], "2/0-3", "1/0 2/\n"),
        (["convert", "json", "ascii"], "{\"01\":[0]}", "1/0\n"),
        (["convert", "ascii", "json"], "8/", "{\"8\":[]}\n"),
        (["convert", "ascii", "json"], "", "{}\n"),
        (["convert", "uniq", "uniq"], "", ""),
        (
            ["convert", "ascii", "uniq"],
            text,
            "17\n18\n20\n76\n77\n78\n85\n87\n89\n",
        ),
    ] {
        expect(&rt, rt.alloc(), &arguments, input, 0, output, "");
    }
    let json = "{\"1\":[1,2,4],\"2\":[12,13,14,21,23,25],\"8\":[]}\n";
    expect(
        &rt,
        rt.alloc(),
        &["convert", "ascii", "json"],
        text,
        0,
        json,
        "",
    );
}

#[test]
fn invalid_texts(rt: HostRuntime) {
    for (arguments, input, report) in [
        (["convert", "uniq", "ascii"], "4\nx", "fault BadByte\n"),
        (["convert", "uniq", "json"], "3", "fault NotUniq\n"),
        (["convert", "ascii", "json"], "5/7-3", "fault Backwards\n"),
        (["convert", "ascii", "json"], "7", "fault NoOrder\n"),
        (
            ["convert", "ascii", "json"],
            "30/0",
            "fault OrderTooLarge\n",
        ),
        (["convert", "ascii", "json"], "5/7-", "fault Unfinished\n"),
    ] {
        expect(&rt, rt.alloc(), &arguments, input, 1, "", report);
    }
}

#[test]
fn invalid_json(rt: HostRuntime) {
    for (input, report) in [
        ("{\"x\":[0]}", "fault BadOrder\n"),
        ("{\"0\":0}", "fault NotArray\n"),
        ("{\"0\":[true]}", "fault NotWhole\n"),
        ("[1]", "fault NotObject\n"),
        ("{\"1\":[0", "fault NotJson\n"),
        ("{\"1\":[0,48]}", "fault CellTooLarge\n"),
    ] {
        let arguments = ["convert", "json", "ascii"];
        expect(&rt, rt.alloc(), &arguments, input, 1, "", report);
    }
}

#[test]
fn checks(rt: HostRuntime) {
    for (arguments, input) in [
        (["check", "ascii"], "1/1-2 4 2/12-14\n"),
        (["check", "json"], "{}\n"),
        (["check", "uniq"], "4\n\n5\n"),
        (["check", "auto"], "\n {\"0\":[3]}\n"),
        (["check", "auto"], ",0/3\n"),
    ] {
        expect(&rt, rt.alloc(), &arguments, input, 0, "ok\n", "");
    }
    for (arguments, input, report) in [
        (
            ["check", "ascii"],
            "1/0-3\n2/7-5",
            "fault Backwards\nbyte 8, line 2, byte 2 of it: `2/7-5`\na range goes from its first cell to its last\n",
        ),
        (
            ["check", "json"],
            "{\"9\":[0,1,true]}",
            "fault NotWhole\norder 9, number 2: `true`\ncells are whole numbers of at most 64 bits\n",
        ),
        (
            ["check", "json"],
            "[1]",
            "fault NotObject\na text is one object, as in {\"3\":[10,12]}\n",
        ),
        (
            ["check", "uniq"],
            "4\n5\n3",
            "fault NotUniq\nline 3: `3`\n\
             NUNIQ numbers go from 4 to 4611686018427387903\n",
        ),
        (
            ["check", "json"],
            ",0/3",
            "fault NotJson\nline 1, column 1\na text is one object, as in {\"3\":[10,12]}\nthis looks like ASCII\n",
        ),
        (
            ["check", "auto"],
            "4\n5\n",
            "fault NoOrder\nbyte 0, line 1, byte 0 of it: `4`\nan order comes first, as in 3/\n\
             this looks like a NUNIQ list\n",
        ),
    ] {
        expect(&rt, rt.alloc(), &arguments, input, 1, "", report);
    }
}

#[test]
fn hints_of_checks(rt: HostRuntime) {
    for (arguments, input, report) in [
        (
            ["check", "json"],
            "s",
            "fault NotJson\nline 1, column 1\na text is one object, as in {\"3\":[10,12]}\n",
        ),
        (
            ["check", "ascii"],
            "9:1,5",
            "fault BadByte\nbyte 1, line 1, byte 1 of it: `9:1`\nwords look like 3/, 10, 12-14 or 3/10\n",
        ),
        (
            ["check", "ascii"],
            "SIMPLE  =",
            "fault BadByte\nbyte 0, line 1, byte 0 of it: `SIMPLE`\nwords look like 3/, 10, 12-14 or 3/10\n\
             this looks like FITS; python -m ploverchaise convert reads it\n",
        ),
    ] {
        expect(&rt, rt.alloc(), &arguments, input, 1, "", report);
    }
}

#[test]
fn statistics(rt: HostRuntime) {
    let lines =
        "deepest 2\npixels 306244774661193728\nshare 0.088541666666\narea 3652.605943958997\n\
         ranges 2\ncells 2\norder 0 1\norder 2 1\n";
    for (arguments, input) in [
        (["describe", "ascii"], "1/0-3 2/20"),
        (["describe", "json"], "{\"0\":[0],\"2\":[20]}"),
    ] {
        expect(&rt, rt.alloc(), &arguments, input, 0, lines, "");
    }
    let arguments = ["describe", "ascii"];
    expect(
        &rt,
        rt.alloc(),
        &arguments,
        "0/12",
        1,
        "",
        "fault CellTooLarge\nbyte 2, line 1, byte 2 of it: `0/12`\ncells of order 0 go up to 11\n",
    );
}

#[test]
fn changes(rt: HostRuntime) {
    for (arguments, input, output) in [
        (
            ["degrade", "1", "ascii"].as_slice(),
            "0/0 3/300 5/",
            "0/0 1/18\n",
        ),
        (
            ["degrade", "5", "ascii"].as_slice(),
            "0/0 3/300 4/",
            "0/0 3/300 4/\n",
        ),
        (
            ["complement", "ascii"].as_slice(),
            "0/0-10 1/44 2/",
            "1/45-47 2/\n",
        ),
        (["complement", "ascii"].as_slice(), "0/0-11 1/", "1/\n"),
    ] {
        expect(&rt, rt.alloc(), arguments, input, 0, output, "");
    }
    let report = "fault Backwards\nbyte 2, line 1, byte 2 of it: `5/7-3`\n\
        a range goes from its first cell to its last\n";
    expect(
        &rt,
        rt.alloc(),
        &["degrade", "1", "ascii"],
        "5/7-3",
        1,
        "",
        report,
    );
}
