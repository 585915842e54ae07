//! Subcommands that combine texts.
use crate::tests::program_end::expect;

#[test]
fn combinations(rt: HostRuntime) {
    for (arguments, input, output) in [
        (
            ["combine", "union", "ascii"],
            "0/0 1/4-5 ; 1/3 2/32",
            "0/0 1/4-5 2/32\n",
        ),
        (
            ["combine", "intersection", "ascii"],
            "0/0 8/;1/3 4",
            "1/3 8/\n",
        ),
        (
            ["combine", "difference", "ascii"],
            "0/0-2 ; 0/0 ; 0/2",
            "0/1\n",
        ),
        (
            ["combine", "symmetric", "ascii"],
            "0/0-1;0/1-2;0/1",
            "0/0-2\n",
        ),
        (
            ["combine", "intersection", "ascii"],
            "0/0-1;0/1; \n",
            "0/1\n",
        ),
        (["combine", "intersection", "ascii"], "0/0-1;0/1;3/", "3/\n"),
    ] {
        expect(&rt, rt.alloc(), &arguments, input, 0, output, "");
    }
}

#[test]
fn combinations_in_other_formats(rt: HostRuntime) {
    for (arguments, input, output) in [
        (["combine", "union", "uniq"], "4\n;6\n;\n5", "4\n5\n6\n"),
        (
            ["combine", "difference", "json"],
            "{\"0\":[0]};{\"1\":[3]}",
            "{\"1\":[0,1,2]}\n",
        ),
        (
            ["combine", "union", "auto"],
            "{\"0\":[0],\"3\":[]}; 0/1",
            "{\"0\":[0,1],\"3\":[]}\n",
        ),
    ] {
        expect(&rt, rt.alloc(), &arguments, input, 0, output, "");
    }
}

#[test]
fn failing_combinations(rt: HostRuntime) {
    for (arguments, input, report) in [
        (
            ["combine", "union", "ascii"],
            "0/0 ; 0/12",
            "fault CellTooLarge\ntext 2, byte 3, line 1, byte 3 of it: `0/12`\ncells of order 0 go up to 11\n",
        ),
        (
            ["combine", "union", "ascii"],
            "5/7-3 ; 0/12",
            "fault Backwards\ntext 1, byte 2, line 1, byte 2 of it: `5/7-3`\n\
            a range goes from its first cell to its last\n",
        ),
        (
            ["combine", "union", "json"],
            "{\"0\":[0]};[];",
            "fault NotObject\ntext 2\na text is one object, as in {\"3\":[10,12]}\n",
        ),
        (
            ["combine", "union", "uniq"],
            "4\n;5;3",
            "fault NotUniq\ntext 3, line 1: `3`\nNUNIQ numbers go from 4 to 4611686018427387903\n",
        ),
    ] {
        expect(&rt, rt.alloc(), &arguments, input, 1, "", report);
    }
}
