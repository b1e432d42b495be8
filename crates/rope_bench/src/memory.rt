//! How much memory this program has.
use anyhow::Context;
use std::fs;

/// The kilobytes that are resident, as the system counts them.
pub fn resident_kilobytes(rt: &HostRuntime) -> anyhow::Result<u64> {
    let status = fs::read_to_string(rt, "/proc/self/status")?;
    let line = status
        .lines()
        .find(|line| line.starts_with("VmRSS:"))
        .context("no line on memory")?;
    let number = line.split_whitespace().nth(1).context("no number")?;
    Ok(number.parse::<u64>()?)
}
