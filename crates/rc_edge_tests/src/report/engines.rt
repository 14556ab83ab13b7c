//! An engine over devices that fail.

use super::readers::Scripted;
use super::writers::Interrupted;
use crate::programs::NOP;
use rc_report::engine_fault::EngineFault;
use rc_report::step_engine::step_engine;
use rc_report::streams::{ReadSource, Sink, Source, WriteSink};

const SCHEDULE: &str = "t0,t0,t0,t0,t0,k:7=0,t0,t0,t0";

const TRACE: &[u8] = b"1 t0 5 lock
2 t0 6 get_sqe
3 t0 7 prep_nop
4 t0 8 set_data64 7
5 t0 9 submit 1
6 kernel 7 0
7 t0 10 peek_cqe 7 0
8 t0 12 cqe_seen 7
9 t0 19 release
ended after 9 events
";

#[test]
fn each_sink_that_fails_has_a_beginning_of_the_trace(rt: HostRuntime) {
    for room in 0..TRACE.len() {
        let mut source = ReadSource::new(NOP.as_bytes());
        let mut sink = WriteSink::new(Interrupted::new(rt.alloc(), 1, room));
        let end = step_engine(rt.alloc(), &mut source, SCHEDULE, &mut sink);
        assert!(rt; matches!(end, Err(EngineFault::Write)));
        assert_eq!(rt; sink.failures(), 1);
        assert_eq!(rt; sink.writer.written.as_slice(), &TRACE[..room]);
    }
}

#[test]
fn a_source_that_fails_is_told(rt: HostRuntime) {
    let mut source = ReadSource::new(Scripted {
        pieces: &[Some("ringcheck 1\nring 1\n"), None],
        calls: 0,
    });
    let mut sink = WriteSink::new(Vec::new(rt.alloc()));
    let end = step_engine(rt.alloc(), &mut source, SCHEDULE, &mut sink);
    assert!(rt; matches!(end, Err(EngineFault::Read)));
    assert_eq!(rt; source.reads(), 2);
    assert!(rt; sink.writer.is_empty());
}
