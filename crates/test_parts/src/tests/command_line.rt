//! Command lines and what they ask for.
use crate::tests::same::same;
use sqs_command_line::{Line, LineFault, line};
use std::alloc::Global;

// The window, the number of partitions and that of workers.
type Numbers = (Option<u64>, Option<u32>, Option<u32>);

const NONE: Numbers = (None, None, None);

// What a line asks for: its command, its numbers, whether it asks for version 3 and whether it is
// quiet, and its words; or the status with which it is refused.
type Asked<'a> = Result<(&'static str, Numbers, (bool, bool), [Option<&'a str>; 4]), i32>;

fn asked<'a>(alloc: Global, words: &'a [&'a str]) -> Asked<'a> {
    match line(alloc, words) {
        Ok(Line::Run(run)) => {
            let numbers = (run.window, run.parts, run.workers);
            let words = [run.map, run.log, run.scripts, run.scenario];
            Ok(("run", numbers, (run.version_3, run.quiet), words))
        }
        Ok(Line::Check(check)) => {
            let words = [None, None, check.scripts, check.scenario];
            Ok(("check", NONE, (check.version_3, false), words))
        }
        Ok(Line::Compare(compare)) => {
            let words = [compare.first, compare.second, compare.scripts, None];
            Ok(("compare", NONE, (compare.version_3, compare.reach), words))
        }
        Ok(Line::Figures(figures)) => {
            let words = [None, figures.log, figures.scripts, figures.scenario];
            let wanted = figures.wanted;
            let numbers = (wanted.from.or(wanted.to), None, None);
            Ok(("figures", numbers, (figures.version_3, false), words))
        }
        Err(LineFault::Words(error)) => Err(error.exit_code()),
    }
}

// The words of the first line below, and of the comparison.
const ALL: [Option<&str>; 4] = [
    Some("0,1"),
    Some("out.csv"),
    Some("calls"),
    Some("network.toml"),
];

const TWO: [Option<&str>; 4] = [Some("a.toml"), Some("b.toml"), None, None];

// The words of lines of figures.
const LOG: [Option<&str>; 4] = [None, Some("out.csv"), Some("calls"), Some("network.toml")];

const SCENARIO: [Option<&str>; 4] = [None, None, None, Some("network.toml")];

// Lines, and what they ask for.
const LINES: [(&str, Asked); 21] = [
    (
        "sqs_rehearse run --window 500 --parts 2 --map 0,1 --workers 4 --log out.csv --scripts calls --quiet network.toml",
        Ok(("run", (Some(500), Some(2), Some(4)), (false, true), ALL)),
    ),
    // Numbers as clap reads them.
    (
        "sqs_rehearse run --window=4294967296 --parts=+4294967295 --workers=-0",
        Ok((
            "run",
            (Some(4_294_967_296), Some(4_294_967_295), Some(0)),
            (false, false),
            [None; 4],
        )),
    ),
    (
        "sqs_rehearse run --v3 --preview",
        Ok(("run", NONE, (true, false), [None; 4])),
    ),
    (
        "sqs_rehearse run --preview",
        Ok(("run", NONE, (true, false), [None; 4])),
    ),
    (
        "sqs_rehearse check",
        Ok(("check", NONE, (false, false), [None; 4])),
    ),
    (
        "sqs_rehearse check --v3",
        Ok(("check", NONE, (true, false), [None; 4])),
    ),
    (
        "sqs_rehearse check --preview",
        Ok(("check", NONE, (true, false), [None; 4])),
    ),
    (
        "sqs_rehearse compare a.toml b.toml",
        Ok(("compare", NONE, (false, false), TWO)),
    ),
    (
        "sqs_rehearse compare --reach a.toml b.toml",
        Ok(("compare", NONE, (false, true), TWO)),
    ),
    (
        "sqs_rehearse compare --v3 a.toml b.toml",
        Ok(("compare", NONE, (true, false), TWO)),
    ),
    (
        "sqs_rehearse compare --preview a.toml b.toml",
        Ok(("compare", NONE, (true, false), TWO)),
    ),
    (
        "sqs_rehearse figures --from 0 --scripts calls network.toml out.csv",
        Ok(("figures", (Some(0), None, None), (false, false), LOG)),
    ),
    (
        "sqs_rehearse figures --v3 network.toml",
        Ok(("figures", NONE, (true, false), SCENARIO)),
    ),
    (
        "sqs_rehearse figures --preview network.toml",
        Ok(("figures", NONE, (true, false), SCENARIO)),
    ),
    // Words that are no command line.
    ("sqs_rehearse", Err(2)),
    ("sqs_rehearse run --window 0", Err(2)),
    ("sqs_rehearse run --workers x", Err(2)),
    ("sqs_rehearse run --parts 4294967296", Err(2)),
    ("sqs_rehearse compare a", Err(2)),
    ("sqs_rehearse figures", Err(2)),
    ("sqs_rehearse --help", Err(0)),
];

#[test]
fn lines_ask_for(rt: HostRuntime) {
    for &(text, wanted) in &LINES {
        let words: Vec<&str> = text
            .split_whitespace()
            .collect(rt.alloc())
            .expect(&rt, "memory");
        same(&rt, asked(rt.alloc(), words.as_slice()), wanted);
    }
}
