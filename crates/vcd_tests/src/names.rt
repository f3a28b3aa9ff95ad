//! The full names of signals, and the lists that names and scopes are made of. How a line of a
//! script finds a signal is a case.

use crate::fixtures::load_file;
use std::process::Abort;
use std::test::Fail;
use vcd_core::{Capture, NameWords, ScopePath, copy_scopes, copy_words};

/// A name of two words, and one in two scopes, one of which has a name of two words.
const FILE: &[u8] = b"\
$scope module top $end $var wire 1 ! q [1:0] $end $upscope $end
$scope module to p $end $scope module sub $end $var wire 1 ! b $end
$enddefinitions $end";

/// Stops unless the signal at a position has a name, or has it not.
fn check_name(rt: &impl Abort, capture: &Capture, k: usize, name: &[u8], wanted: bool) {
    assert!(rt; k < capture.signals().len());
    assert!(rt; capture.name_is(k, name) == wanted);
}

#[test]
fn each_signal_has_one_full_name(rt: HostRuntime) -> Result<(), Fail> {
    let capture = load_file(rt.alloc(), FILE)?.capture;
    check_name(&rt, &capture, 0, b"top.q[1:0]", true);
    check_name(&rt, &capture, 0, b"top.q", false);
    check_name(&rt, &capture, 1, b"top.sub.b", true);
    check_name(&rt, &capture, 1, b"top.q[1:0]", false);
    Ok(())
}

#[test]
fn a_name_gives_its_words_back(rt: HostRuntime) -> Result<(), Fail> {
    let capture = load_file(rt.alloc(), FILE)?.capture;
    assert!(rt; capture.signals().len() == 2);
    let copies = copy_words(rt.alloc(), capture.signals()[0].words.as_slice())?;
    let words = NameWords::new(copies).into_words().into_vec();
    assert!(rt; words.len() == 2);
    assert!(rt; words[0].as_slice() == b"q".as_slice());
    assert!(rt; words[1].as_slice() == b"[1:0]".as_slice());
    Ok(())
}

/// How many scopes a path gives back; none if others can share them.
fn count_given_back(path: ScopePath) -> Option<usize> {
    match path.into_vec() {
        Ok(scopes) => Some(scopes.len()),
        Err(_) => None,
    }
}

#[test]
fn a_path_gives_its_own_scopes_back(rt: HostRuntime) -> Result<(), Fail> {
    let capture = load_file(rt.alloc(), FILE)?.capture;
    assert!(rt; capture.signals().len() == 2);
    let shared = capture.signals()[1].scopes.share()?;
    let own = ScopePath::from_vec(copy_scopes(rt.alloc(), shared.as_slice())?);
    assert!(rt; own.as_slice().len() == 2);
    assert!(rt; count_given_back(own.prefix(1)?) == Some(1));
    assert!(rt; count_given_back(own.share()?) == Some(2));
    assert!(rt; count_given_back(own) == Some(2));
    assert!(rt; count_given_back(shared) == None);
    Ok(())
}
