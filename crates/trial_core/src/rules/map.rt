//! The published map between a put and its removal.
ghost use Rattle.std.specs.Prelude.{◌≡◌, []};
ghost use Rattle.map_view.specs.Maps.{pending};

use grid_types::{Found, NoMemory, NodeAddress, SessionId, SlotId};
use map_view::{Item, Items, MapReader, MapWriter, Readers, new};
use std::alloc::Global;
use std::sync::Wait;

const PLACE: SlotId = SlotId { node: 1, index: 0 };

/// A writer between two changes.
struct Publisher {
    writer: MapWriter,
    ghost rests: { pending writer ≡ [] },
}

impl Publisher {
    fn add<R: Wait>(&mut self, rt: &R, alloc: Global, item: Item) -> bool {
        let mut items = Items::new(alloc);
        if items.push(item).is_err() {
            return false;
        }
        let added = self.writer.append(items).is_ok();
        self.writer.publish(rt);
        added
    }
}

/// The reader is told of the item, and then finds this.
fn finds<R: Wait>(
    rt: &R,
    alloc: Global,
    publisher: &mut Publisher,
    told: &mut MapReader,
    item: Item,
    session: &SessionId,
    found: Found,
) -> bool {
    if !publisher.add(rt, alloc, item) {
        return false;
    }
    publisher.writer.tell(told);
    told.find(session) == Some(found)
}

fn finds_between<R: Wait>(
    rt: &R,
    alloc: Global,
    publisher: &mut Publisher,
    told: &mut MapReader,
) -> Option<bool> {
    let session = SessionId::from_bytes(b"a")?;
    let address = NodeAddress::from_bytes(b"127.0.0.1:5555")?;
    let put = Item::Put {
        session,
        slot: PLACE,
        address,
        binding: 1,
    };
    let found = Found::At {
        slot: PLACE,
        address,
        binding: 1,
    };
    let removal = Item::Removal(session);
    let none = Found::NoSession;
    Some(
        told.find(&session) == Some(none)
            && finds(rt, alloc, publisher, told, put, &session, found)
            && finds(rt, alloc, publisher, told, removal, &session, none),
    )
}

/// Two readers, of which one is told.
fn one_finds<R: Wait>(
    rt: &R,
    alloc: Global,
    publisher: &mut Publisher,
    readers: &mut Readers,
) -> Option<bool> {
    let mut told = readers.take()?;
    finds_between(rt, alloc, publisher, &mut told)
}

#[test]
fn a_session_is_found_between_its_put_and_its_removal(rt: HostRuntime) -> Result<(), NoMemory> {
    let (writer, mut readers) = new(&rt, rt.alloc(), 2)?;
    let mut publisher = Publisher { writer };
    let found = one_finds(&rt, rt.alloc(), &mut publisher, &mut readers);
    let Publisher { writer } = publisher;
    writer.close(&rt);
    assert!(rt; found == Some(true));
    Ok(())
}
