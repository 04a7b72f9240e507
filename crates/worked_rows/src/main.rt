//! Runs the worked scripts of `data/`, and compares what each prints with the output beside it.
#![tactic(auto)]

use anyhow::{Context, Result, anyhow};
use ele_core::Core;
use ele_model::{LimitNumbers, Limits};
use ele_output::Printer;
use ele_runs::{RunOptions, run_in};
use ele_shell::run;
use std::{fs, io};

/// The file that names the scripts under the largest limits, a line each: NAME.script has its
/// NAME.output.
const ROWS: &str = "rows";

/// Scripts under limits of their own: these, and else the largest.
const LIMITED: [(&str, LimitNumbers); 25] = [
    ("first_run", LimitNumbers::LARGEST),
    (
        "a_history_of_no_events",
        LimitNumbers {
            events: 0,
            ..LimitNumbers::LARGEST
        },
    ),
    (
        "full_history",
        LimitNumbers {
            events: 1,
            ..LimitNumbers::LARGEST
        },
    ),
    (
        "pass_fills_the_history",
        LimitNumbers {
            events: 6,
            ..LimitNumbers::LARGEST
        },
    ),
    (
        "pass_ends_as_the_history_is_full",
        LimitNumbers {
            events: 7,
            ..LimitNumbers::LARGEST
        },
    ),
    (
        "pass_of_one_ends_as_the_history_is_full",
        LimitNumbers {
            events: 6,
            ..LimitNumbers::LARGEST
        },
    ),
    (
        "pass_of_the_largest_budget",
        LimitNumbers {
            events: 1,
            ..LimitNumbers::LARGEST
        },
    ),
    (
        "a_full_history_is_told_and_trimmed",
        LimitNumbers {
            events: 3,
            ..LimitNumbers::LARGEST
        },
    ),
    (
        "files_limit",
        LimitNumbers {
            files: 1,
            ..LimitNumbers::LARGEST
        },
    ),
    (
        "directories_limit",
        LimitNumbers {
            directories: 1,
            ..LimitNumbers::LARGEST
        },
    ),
    (
        "names_limit",
        LimitNumbers {
            names: 1,
            ..LimitNumbers::LARGEST
        },
    ),
    (
        "names_limit_of_directories",
        LimitNumbers {
            names: 1,
            ..LimitNumbers::LARGEST
        },
    ),
    (
        "names_limit_of_renames",
        LimitNumbers {
            names: 2,
            ..LimitNumbers::LARGEST
        },
    ),
    (
        "directories_are_full_before_names",
        LimitNumbers {
            directories: 1,
            names: 1,
            ..LimitNumbers::LARGEST
        },
    ),
    (
        "versions_limit",
        LimitNumbers {
            versions: 2,
            ..LimitNumbers::LARGEST
        },
    ),
    (
        "versions_limit_of_undelete",
        LimitNumbers {
            versions: 2,
            ..LimitNumbers::LARGEST
        },
    ),
    (
        "versions_limit_of_revert",
        LimitNumbers {
            versions: 2,
            ..LimitNumbers::LARGEST
        },
    ),
    (
        "versions_limit_with_a_draft_open",
        LimitNumbers {
            versions: 2,
            ..LimitNumbers::LARGEST
        },
    ),
    (
        "handles_limit",
        LimitNumbers {
            handles: 1,
            ..LimitNumbers::LARGEST
        },
    ),
    (
        "handles_limit_of_readers",
        LimitNumbers {
            handles: 1,
            ..LimitNumbers::LARGEST
        },
    ),
    (
        "groups_limit",
        LimitNumbers {
            groups: 1,
            ..LimitNumbers::LARGEST
        },
    ),
    (
        "members_limit",
        LimitNumbers {
            members: 1,
            ..LimitNumbers::LARGEST
        },
    ),
    (
        "marks_limit",
        LimitNumbers {
            marks: 1,
            ..LimitNumbers::LARGEST
        },
    ),
    (
        "each_limit_is_one",
        LimitNumbers {
            files: 1,
            directories: 1,
            names: 1,
            handles: 1,
            groups: 1,
            members: 1,
            marks: 1,
            ..LimitNumbers::LARGEST
        },
    ),
    (
        "saves_and_restores_at_limits",
        LimitNumbers {
            files: 2,
            names: 3,
            versions: 4,
            handles: 0,
            ..LimitNumbers::LARGEST
        },
    ),
];

/// Scripts under the largest limits whose run explains.
const EXPLAINED: [&str; 13] = [
    "explained_landmarks",
    "explained_policies",
    "explained_floors",
    "explained_removals",
    "explained_names",
    "explained_marks",
    "explained_end_of_time",
    "explained_forgotten_moments",
    "explained_stories",
    "explained_holds",
    "explained_changes",
    "explained_last_names",
    "explained_expiring",
];

/// What the script prints.
fn printed(rt: &HostRuntime, name: &str, limits: Limits) -> Result<String> {
    let script = fs::read(rt, format!(in rt.alloc(); "{name}.script")?)?;
    let mut text = Vec::new(rt.alloc());
    match run(rt.alloc(), &mut script.as_slice(), &mut text, limits) {
        Ok(_lines) => Ok(String::from_utf8(text)?),
        Err(fault) => Err(anyhow!("{name}: {fault}")),
    }
}

/// What the script prints if the run explains.
fn explained(rt: &HostRuntime, name: &str) -> Result<String> {
    let script = fs::read(rt, format!(in rt.alloc(); "{name}.script")?)?;
    let mut text = Vec::new(rt.alloc());
    let options = RunOptions {
        explain: true,
        ..RunOptions::plain()
    };
    let mut reader = script.as_slice();
    match run_in::<Core, _, _, _>(
        options,
        rt.alloc(),
        &mut reader,
        &mut text,
        &mut Printer::new(&mut io::sink()),
        Limits::largest(),
    ) {
        Ok(_ran) => Ok(String::from_utf8(text)?),
        Err(fault) => Err(anyhow!("{name}: {fault}")),
    }
}

/// Returns whether the script printed the expected output; prints both if it didn't.
fn compare(rt: &HostRuntime, name: &str, printed: &String) -> Result<()> {
    let wanted = fs::read_to_string(rt, format!(in rt.alloc(); "{name}.output")?)?;
    if printed.as_str() == wanted.as_str() {
        println!(rt; "{name}: as worked")?;
    } else {
        println!(rt; "{name}: wanted\n{wanted}but printed\n{printed}")?;
    }
    Ok(())
}

fn main(rt: HostRuntime) -> Result<()> {
    let rows = fs::read_to_string(&rt, ROWS)?;
    for name in rows.lines() {
        compare(&rt, name, &printed(&rt, name, Limits::largest())?)?;
    }
    for (name, numbers) in LIMITED {
        let limits = Limits::of(numbers).context("no limits")?;
        compare(&rt, name, &printed(&rt, name, limits)?)?;
    }
    for name in EXPLAINED {
        compare(&rt, name, &explained(&rt, name)?)?;
    }
    Ok(())
}
