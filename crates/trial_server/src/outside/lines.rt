//! Lines that are waited for.
use crate::outside::links::{fails_to_read, reads, writes};
use crate::outside::parts::{link, numbers};
use grid_outside::{AwaitedLink, Line, MemGate, MemLine, Reading};
use grid_types::NoMemory;
use std::alloc::Global;

/// Whether a read into eight bytes comes to this.
pub(crate) fn line_reads_none<L: Line>(line: &mut L, wanted: Reading) -> bool {
    let mut piece = [0; 8];
    line.read(&mut piece) == wanted
}

/// A line of whose reads the first and the third find nothing there, and the second of the others fails. Of its writes the
/// first two find nothing there, and the fourth.
fn line(alloc: Global) -> Result<MemLine, NoMemory> {
    let reads_none = numbers(alloc, &[0, 2])?;
    let writes_none = numbers(alloc, &[0, 1, 3])?;
    let link = link(alloc, b"abcdefghi", &[1], &[])?;
    Ok(MemLine::new(link, reads_none, writes_none))
}

fn goes(link: &mut AwaitedLink<MemGate>) -> bool {
    reads(link, "abcdefg")
        && writes(link, "jklmnopqrs", 9)
        && fails_to_read(link)
        && reads(link, "hi")
        && writes(link, "s", 1)
        && reads(link, "")
}

/// Whether the line goes so at a gate that finds no room for these links, or finds no room there.
fn goes_at(alloc: Global, fails: &[u64], has_room: bool) -> Result<bool, NoMemory> {
    let fails = numbers(alloc, fails)?;
    let line = line(alloc)?;
    match AwaitedLink::new(alloc, MemGate::new(alloc, fails), line) {
        Ok(mut link) => {
            let so = has_room && goes(&mut link);
            // Let go by a call: the check of a value that ends by itself writes out all its fields.
            drop(link);
            Ok(so)
        }
        Err(gate) => {
            drop(gate);
            Ok(!has_room)
        }
    }
}

#[test]
fn a_line_is_waited_for(rt: HostRuntime) -> Result<(), NoMemory> {
    let alloc = rt.alloc();
    let goes = goes_at(alloc, &[], true)?;
    let finds_none = goes_at(alloc, &[0], false)?;
    assert!(rt; goes && finds_none);
    Ok(())
}
