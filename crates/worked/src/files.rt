//! Shops in files: what is done with them one after another, and while calls of the files are refused.

use crate::deeds::Clerk;
use std::fs;
use tests_crashes::{Kind, run_told, trial_told};

// Prints a run over files.
fn show_run(rt: &HostRuntime, name: &str) -> anyhow::Result<()> {
    let path = format!(in rt.alloc(); "{name}.run")?;
    let text = fs::read_to_string(rt, path.as_str())?;
    let told = run_told(rt.alloc(), &Clerk, text.as_str())?;
    println!(rt; "== {name}: over files in memory")?;
    rt.write_all(told.as_slice())?;
    Ok(())
}

// Prints what comes of a trial.
fn show_trial(rt: &HostRuntime, list: &str, kind: Kind, name: &str) -> anyhow::Result<()> {
    let path = format!(in rt.alloc(); "{name}.{list}")?;
    let text = fs::read_to_string(rt, path.as_str())?;
    let told = trial_told(rt.alloc(), &Clerk, kind, name, text.as_str())?;
    rt.write_all(told.as_slice())?;
    Ok(())
}

// Prints each run whose name a file lists.
fn show_runs(rt: &HostRuntime) -> anyhow::Result<()> {
    let names = fs::read_to_string(rt, "runs")?;
    for name in names.lines() {
        show_run(rt, name)?;
    }
    Ok(())
}

// Prints what comes of each trial whose name a file lists.
fn show_trials(rt: &HostRuntime, list: &str, kind: Kind) -> anyhow::Result<()> {
    let names = fs::read_to_string(rt, list)?;
    for name in names.lines() {
        show_trial(rt, list, kind, name)?;
    }
    Ok(())
}

/// Prints each run over files; and then stops both files at each of their calls, and refuses each of them once, and prints what came of it.
pub(crate) fn show_files(rt: &HostRuntime) -> anyhow::Result<()> {
    show_runs(rt)?;
    println!(rt; "== stops: each of both files at each call")?;
    show_trials(rt, "stops", Kind::Stops)?;
    println!(rt; "== refused_calls: each of both files, each call in turn")?;
    show_trials(rt, "refusals", Kind::Refusals)
}
