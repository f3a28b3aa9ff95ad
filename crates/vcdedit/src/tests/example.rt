//! The example at the head of the library `vcd_script`.

use crate::run_on_bytes;
use std::test::Fail;

#[test]
fn the_example_of_the_library(rt: HostRuntime) -> Result<(), Fail> {
    let capture = b"$var wire 1 ! rx $end $enddefinitions $end #0 1! #20 0! #22 1! #90";
    let Ok(texts) = run_on_bytes(rt.alloc(), capture, b"deglitch rx 3\nvalue rx 21\n", 100) else {
        return Err(Fail::from("the run did not reach its end"));
    };
    assert!(rt; texts.replies.as_slice() == b"ok\n1\n".as_slice());
    Ok(())
}
