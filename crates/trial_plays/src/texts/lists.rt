//! A status and a queue, byte for byte.
use caps_merge::registration;
use grid_types::{
    Moment, NodeView, NodeViews, SessionId, SlotState, SlotViews, Standing, View, WaitView,
    WaitViews,
};
use hub_status::{queue_body, status_body};
use std::alloc::Global;

const REGISTERS: &[u8] =
    br#"{"name":"n-7","address":"h:1","maxSessions":3,"slots":[{"count":1,"stereotype":{"browserName":"chrome"}},{"count":2,"stereotype":{"browserName":"firefox"}}]}"#;

/// A node without slots.
fn bare_node(alloc: Global) -> Option<NodeView> {
    let registration = registration(alloc, REGISTERS).ok()?;
    Some(NodeView {
        node: 7,
        registration,
        standing: Standing::Draining,
        slots: SlotViews::new(alloc),
    })
}

fn put_states(slots: &mut SlotViews, session: SessionId) -> bool {
    slots.push(SlotState::Busy(session)).is_ok()
        && slots.push(SlotState::Held).is_ok()
        && slots.push(SlotState::Closing).is_ok()
}

fn put_request(waiting: &mut WaitViews, request: u64) -> bool {
    let wait = WaitView {
        request,
        deadline: Moment(300_000),
        choices: 1,
        bytes: 24,
    };
    waiting.push(wait).is_ok()
}

fn put_node(nodes: &mut NodeViews, node: NodeView, session: SessionId) -> bool {
    let mut node = node;
    put_states(&mut node.slots, session) && nodes.push(node).is_ok()
}

const STATUS: &str =
    "{\"value\":{\"ready\":true,\"message\":\"grid is ready\",\"nodes\":[{\"node\":7,\"name\":\"n-7\",\"address\":\"h:1\",\"availability\":\"DRAINING\",\"maxSessions\":3,\"slots\":[{\"stereotype\":{\"browserName\":\"chrome\"},\"states\":[{\"slot\":0,\"state\":\"BUSY\",\"session\":\"s-1\"}]},{\"stereotype\":{\"browserName\":\"firefox\"},\"states\":[{\"slot\":1,\"state\":\"HELD\",\"session\":null},{\"slot\":2,\"state\":\"CLOSING\",\"session\":null}]}]}]}}";

const QUEUE: &str =
    "{\"value\":[{\"request\":2,\"deadline\":300000,\"choices\":1,\"bytes\":24},{\"request\":5,\"deadline\":300000,\"choices\":1,\"bytes\":24}]}";

fn fill(alloc: Global, view: &mut View) -> Option<bool> {
    let session = SessionId::from_bytes(b"s-1")?;
    let node = bare_node(alloc)?;
    Some(
        put_node(&mut view.nodes, node, session)
            && put_request(&mut view.waiting, 2)
            && put_request(&mut view.waiting, 5),
    )
}

fn are_listed(alloc: Global, view: &mut View) -> Option<bool> {
    let is_filled = fill(alloc, view)?;
    let status = status_body(alloc, view).ok()?;
    let queue = queue_body(alloc, view).ok()?;
    Some(
        is_filled && status.as_bytes() == STATUS.as_bytes() && queue.as_bytes() == QUEUE.as_bytes(),
    )
}

/// A node with two groups, a slot in each state but one, and two requests.
#[test]
fn nodes_and_requests_are_listed(rt: HostRuntime) {
    let mut view = View {
        ready: true,
        nodes: NodeViews::new(rt.alloc()),
        waiting: WaitViews::new(rt.alloc()),
    };
    let so = are_listed(rt.alloc(), &mut view);
    assert!(rt; so == Some(true));
}
