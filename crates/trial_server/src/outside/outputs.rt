//! What takes bytes and tells none.
use grid_outside::{Sink, StandardOutput, SureSink};
use std::process::Abort;

/// Whether a write takes the whole piece.
fn takes<S: Sink>(sink: &mut S, piece: &str) -> bool {
    match sink.write(piece.as_bytes()) {
        Ok(count) => count == piece.len(),
        Err(_) => false,
    }
}

#[test]
fn what_keeps_no_bytes_takes_whole_pieces(rt: HostRuntime) {
    assert!(rt; takes(&mut SureSink, "abcde"));
    assert!(rt; takes(&mut StandardOutput::new(&rt), "\n"));
}
