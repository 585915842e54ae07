//! Subcommands that reply to lines.
use crate::tests::program_end::expect;

#[test]
fn scripts(rt: HostRuntime) {
    expect(&rt, rt.alloc(), &["run"], "", 0, "", "");
    let script = "add 0/0 2\ncount 0/2 3\nadd 1/0\nremove 0/0";
    let replies =
        "changed 576460752303423488\ntotal 288230376151711744\nchanged 0\nchanged 288230376151711744\n";
    expect(&rt, rt.alloc(), &["run"], script, 0, replies, "");
}

#[test]
fn plays(rt: HostRuntime) {
    expect(&rt, rt.alloc(), &["play"], "", 0, "order\ncover\n", "");
    let schedule =
        "begin 1 add 0/3\ntake 1\nedit 1 3\ntake 2\ngive 1 3\n\nhop\nend 1\nbegin 2 count 0/3";
    let replies =
        "ok\nok\nok\nrefused Idle\nok\nfault UnknownWord\nchanged 288230376151711744\nok\norder 1\nmidway 1\n";
    expect(&rt, rt.alloc(), &["play"], schedule, 0, replies, "");
}

#[test]
fn crews(rt: HostRuntime) {
    let script = "add 0/0\nadd 0/1\n\ncount 0/0\nhop";
    let replies =
        "changed 288230376151711744\nchanged 288230376151711744\ntotal 288230376151711744\nfault UnknownWord\n";
    for lanes in ["1", "+1"] {
        expect(&rt, rt.alloc(), &["crew", lanes], "", 0, "cover\n", "");
        let Ok(whole) = format!(in rt.alloc(); "{replies}cover 0/0-1\n") else {
            panic!(rt; "no memory")
        };
        expect(
            &rt,
            rt.alloc(),
            &["crew", lanes],
            script,
            0,
            whole.as_str(),
            "",
        );
    }
    expect(&rt, rt.alloc(), &["crew", "64"], "", 0, "cover\n", "");
}
