//! A sink that takes pieces but at its second call.

use qm_base::CallList;
use qm_link::{MemorySink, Sink, SinkFailed};
use std::test::Fail;

#[test]
fn a_sink_takes_pieces_and_fails_where_it_is_to(rt: HostRuntime) -> Result<(), Fail> {
    let mut failing = CallList::new(rt.alloc());
    failing.push(2)?;
    let mut sink = MemorySink::new(rt.alloc(), failing);
    assert!(rt; sink.put(b"ab") == Ok(()));
    assert!(rt; sink.put(b"cd") == Err(SinkFailed));
    assert_eq!(rt; sink.taken(), b"ab".as_slice());
    assert!(rt; sink.put(b"") == Ok(()));
    assert!(rt; sink.put(b"e\n") == Ok(()));
    assert_eq!(rt; sink.taken(), b"abe\n".as_slice());
    Ok(())
}
