//! The text of a drawing, read as a tree of elements.
use anyhow::Result;
use ssd_text::read_text;
use std::alloc::Global;
use std::fs;
use std::time::Instant;

// How many elements a drawing has; none where it is refused.
fn count(alloc: Global, bytes: &[u8]) -> u32 {
    if bytes.len() > 8_388_608 {
        return 0;
    }
    match read_text(alloc, bytes) {
        Ok(tree) => tree.count(),
        Err(_) => 0,
    }
}

/// Prints the line of the most memory that the process had at once, as Linux tells it.
pub fn print_peak(rt: &HostRuntime) -> Result<()> {
    let status = fs::read_to_string(rt, "/proc/self/status")?;
    for line in status.as_str().lines() {
        if line.starts_with("VmHWM:") {
            println!(rt; "{line}")?;
        }
    }
    Ok(())
}

/// Reads the text, and prints how many elements it has.
pub fn measure(rt: &HostRuntime, bytes: &[u8], timed: bool) -> Result<()> {
    let start = Instant::now(rt)?;
    let elements = count(rt.alloc(), bytes);
    let spent = start.elapsed(rt)?.as_micros();
    println!(rt; "elements {elements}")?;
    if timed {
        println!(rt; "microseconds {spent}")?;
        print_peak(rt)?;
    }
    Ok(())
}
