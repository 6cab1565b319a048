//! What several trials are made of.
use grid_outside::{MemLink, MemSink, MemSource};
use grid_types::{Bytes, NoMemory};
use http_frames::NodeRequest;
use std::alloc::Global;

/// The numbers of calls that are to fail.
pub(crate) fn numbers(alloc: Global, numbers: &[u64]) -> Result<Vec<u64>, NoMemory> {
    match Vec::from_slice(alloc, numbers) {
        Ok(numbers) => Ok(numbers),
        Err(_) => Err(NoMemory),
    }
}

/// A link that gives these bytes by sevens and takes nine at once, of which these reads and writes fail.
pub(crate) fn link(
    alloc: Global,
    input: &[u8],
    reads_fail: &[u64],
    writes_fail: &[u64],
) -> Result<MemLink, NoMemory> {
    let reads_fail = numbers(alloc, reads_fail)?;
    let writes_fail = numbers(alloc, writes_fail)?;
    let bytes = Bytes::of(alloc, input)?;
    let source = MemSource::new(bytes, 7, reads_fail);
    let sink = MemSink::new(alloc, 9, writes_fail);
    Ok(MemLink::new(source, sink))
}

/// A request without headers.
pub(crate) fn request<'a>(method: &'a [u8], target: &'a [u8], body: &'a [u8]) -> NodeRequest<'a> {
    NodeRequest {
        method,
        target,
        accept: None,
        accept_encoding: None,
        content_type: None,
        content_encoding: None,
        body,
    }
}

/// Whether the value is there and is this.
pub(crate) fn is(value: &Option<Bytes>, wanted: &str) -> bool {
    match value {
        Some(value) => value.as_bytes() == wanted.as_bytes(),
        None => false,
    }
}
