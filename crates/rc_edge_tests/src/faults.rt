//! What faults say of themselves. No command prints them so.

use rc_read::{ReadCause, ReadFault};
use rc_world::schedule::ScheduleFault;
use std::alloc::AllocError;

#[test]
fn faults_of_texts_have_their_lines(rt: HostRuntime) -> Result<(), AllocError> {
    let cause = ReadCause::BadLine;
    for (fault, text) in [
        (
            ReadFault::Text { line: 3, cause },
            "unreadable line 3 P3 BadLine",
        ),
        (ReadFault::OutOfMemory, "out of memory"),
    ] {
        let printed = format!(in rt.alloc(); "{fault}")?;
        assert_eq!(rt; printed.as_str(), text);
    }
    Ok(())
}

#[test]
fn faults_of_schedules_have_their_items(rt: HostRuntime) -> Result<(), AllocError> {
    for (fault, text) in [
        (ScheduleFault::Unreadable(2), "schedule item 2 unreadable"),
        (ScheduleFault::OutOfMemory, "out of memory"),
    ] {
        let printed = format!(in rt.alloc(); "{fault}")?;
        assert_eq!(rt; printed.as_str(), text);
    }
    Ok(())
}
