//! The program without threads, which refuses `par`, and the number of each exit status.
use super::{list, text_in};
use papr_top::{Status, papr_serial};
use std::test::Fail;
use trace_io::{MemorySink, MemorySource};

#[test]
fn the_call_without_threads_knows_no_par(rt: HostRuntime) -> Result<(), Fail> {
    let alloc = rt.alloc();
    let mut source = MemorySource::new(b"begin\n".to_vec(alloc)?, 16, vec![in alloc; 1]?);
    let mut sink = MemorySink::new(alloc, 8, Vec::new(alloc), 4096)?;
    let status = papr_serial(alloc, &list(alloc, &["par"])?, &mut source, &mut sink);
    assert_eq!(rt; status, Status::Usage);
    assert_eq!(rt; text_in(alloc, &sink)?.as_str(), "papr: usage\n");
    Ok(())
}

#[test]
fn each_status_has_its_number(rt: HostRuntime) {
    for (status, number) in [
        (Status::Done, 0),
        (Status::Usage, 1),
        (Status::Refused, 2),
        (Status::ReadFault, 3),
        (Status::WriteFault, 4),
        (Status::Memory, 5),
        (Status::CheckNo, 6),
    ] {
        assert_eq!(rt; status.number(), number);
    }
}
