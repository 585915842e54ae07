//! Subcommands that convert cell numbers. Expected numbers are worked examples of the numberings, computed without this
//! program.
use crate::tests::program_end::expect;

#[test]
fn numbers(rt: HostRuntime) {
    for (arguments, output) in [
        (["ring", "1", "18"], "27\n"),
        (["ring", "2", "64"], "136\n"),
        (["ring", "29", "0"], "1729382253957480448\n"),
        (["nest", "1", "27"], "18\n"),
        (
            ["nest", "29", "3458764513820540927"],
            "3170534137668829184\n",
        ),
        (["uniq", "3", "10"], "266\n"),
        (
            ["uniq", "29", "3458764513820540927"],
            "4611686018427387903\n",
        ),
    ] {
        expect(&rt, rt.alloc(), &arguments, "", 0, output, "");
    }
    expect(&rt, rt.alloc(), &["cell", "266"], "", 0, "3/10\n", "");
    expect(&rt, rt.alloc(), &["cell", "15"], "", 0, "0/11\n", "");
}

#[test]
fn invalid_numbers(rt: HostRuntime) {
    for (arguments, report) in [
        (["ring", "0", "12"], "fault CellTooLarge\n"),
        (["nest", "0", "12"], "fault RingTooLarge\n"),
        (["uniq", "0", "12"], "fault CellTooLarge\n"),
    ] {
        expect(&rt, rt.alloc(), &arguments, "", 1, "", report);
    }
    for uniq in ["3", "4611686018427387904"] {
        expect(
            &rt,
            rt.alloc(),
            &["cell", uniq],
            "",
            1,
            "",
            "fault NotUniq\n",
        );
    }
}

#[test]
fn near(rt: HostRuntime) {
    for (arguments, output) in [
        (["near", "0", "0"], "1 2 3 4 5 8\n"),
        (["near", "0", "4"], "0 3 5 7 8 11\n"),
        (["near", "1", "0"], "1 2 3 17 19 22 23 35\n"),
        (["near", "1", "1"], "0 2 3 6 7 22 23\n"),
        (["near", "1", "3"], "0 1 2 6 7 11 13 15\n"),
        (["near", "2", "3"], "0 1 2 4 6 8 9 12\n"),
    ] {
        expect(&rt, rt.alloc(), &arguments, "", 0, output, "");
    }
    expect(
        &rt,
        rt.alloc(),
        &["near", "0", "12"],
        "",
        1,
        "",
        "fault CellTooLarge\n",
    );
}

#[test]
fn converted_lines(rt: HostRuntime) {
    for (arguments, input, output) in [
        (
            ["renumber", "nest", "ring", "1"].as_slice(),
            "0\n3\n\n16\n48\n18",
            "13\n0\n28\nfault CellTooLarge\n27\n",
        ),
        (
            ["renumber", "ring", "nest", "1"].as_slice(),
            "13\n27\r\n48\n",
            "0\n18\nfault RingTooLarge\n",
        ),
        (
            ["renumber", "uniq", "nest", "3"].as_slice(),
            "266\n63\n3\n",
            "10\nfault OtherOrder\nfault NotUniq\n",
        ),
        (
            ["renumber", "nest", "uniq", "3"].as_slice(),
            " 10\nten\n1 0",
            "266\nfault BadNumber\nfault WrongCount\n",
        ),
    ] {
        expect(&rt, rt.alloc(), arguments, input, 0, output, "");
    }
}
