//! What a log remembers of the entries so far.
ghost use Rattle.std.specs.Prelude.{◌≡◌, ◌++◌, ◌∷◌, [], not, nat_eq, find, filter, OnOk, option_copied};
ghost use Rattle.grid_types.specs.Lists.{has};
ghost use Rattle.grid_log.specs.Past.{clearing_of, is_clearing, is_of_binding, is_of_node, is_of_request, name_in, no_past, nodes_after, past_after, queued_in, runs_on, sessions_after, suspects_after, unsettled_after};
ghost use Rattle.grid_log.specs.Recalls.{recalled};

use crate::facts::slots_in;
use crate::rows::{Clearing, NodeRow, SessionRow, WaitRow};
use grid_types::{Change, Entry, NoMemory, NodeNo, ReqNo};
use std::alloc::Global;

/// The nodes that are registered, those of them that are suspect, the requests that are not settled, the sessions that run, and
/// the clearing that the last entry was.
#[derive(Drop)]
pub struct Recall {
    nodes: Vec<NodeRow>,
    suspects: Vec<NodeNo>,
    unsettled: Vec<WaitRow>,
    sessions: Vec<SessionRow>,
    cleared: Option<Clearing>,
}

fn drop_node(nodes: &mut Vec<NodeRow>, node: NodeNo)
    ensures { nodes.new.items ≡ filter (λ row. not (is_of_node node row)) nodes.old.items }
{
    nodes.retain(|row| row.node != node);
}

fn drop_suspect(suspects: &mut Vec<NodeNo>, node: NodeNo)
    ensures { suspects.new.items ≡ filter (λ other. not (nat_eq other node)) suspects.old.items }
{
    suspects.retain(|other| *other != node);
}

/// Puts the node last.
fn add_suspect(suspects: &mut Vec<NodeNo>, node: NodeNo) -> Result<(), NoMemory>
    ensures { OnOk result (suspects.new.items
        ≡ filter (λ other. not (nat_eq other node)) suspects.old.items ++ node ∷ []) }
{
    drop_suspect(suspects, node);
    match suspects.push(node) {
        Ok(()) => Ok(()),
        Err(_) => Err(NoMemory),
    }
}

fn drop_request(rows: &mut Vec<WaitRow>, request: ReqNo)
    ensures { rows.new.items ≡ filter (λ row. not (is_of_request request row)) rows.old.items }
{
    rows.retain(|row| row.request != request);
}

fn drop_session(rows: &mut Vec<SessionRow>, binding: ReqNo)
    ensures { rows.new.items ≡ filter (λ row. not (is_of_binding binding row)) rows.old.items }
{
    rows.retain(|row| row.binding != binding);
}

fn drop_sessions_on(rows: &mut Vec<SessionRow>, node: NodeNo)
    ensures { rows.new.items ≡ filter (λ row. not (runs_on node row)) rows.old.items }
{
    rows.retain(|row| row.slot.node != node);
}

fn note_node(nodes: &mut Vec<NodeRow>, change: &Change) -> Result<(), NoMemory>
    ensures { OnOk result (nodes.new.items ≡ nodes_after nodes.old.items change.now) }
{
    match change {
        Change::Registered {
            node,
            registration,
            ..
        } => {
            let name = registration.name.clone()?;
            match nodes.push(NodeRow {
                node: *node,
                name,
                slots: slots_in(registration.groups.items()),
            }) {
                Ok(()) => Ok(()),
                Err(_) => Err(NoMemory),
            }
        }
        Change::Removed { node, .. } | Change::Lapsed { node, .. } => {
            drop_node(nodes, *node);
            Ok(())
        }
        _ => Ok(()),
    }
}

fn note_suspect(suspects: &mut Vec<NodeNo>, change: &Change) -> Result<(), NoMemory>
    ensures { OnOk result (suspects.new.items ≡ suspects_after suspects.old.items change.now) }
{
    match change {
        Change::Suspected { node, .. } => {
            add_suspect(suspects, *node)?;
            Ok(())
        }
        Change::Beaten { node, .. } | Change::Removed { node, .. } | Change::Lapsed { node, .. } =>
            {
                drop_suspect(suspects, *node);
                Ok(())
            }
        _ => Ok(()),
    }
}

fn note_request(rows: &mut Vec<WaitRow>, change: &Change) -> Result<(), NoMemory>
    ensures { OnOk result (rows.new.items ≡ unsettled_after rows.old.items change.now) }
{
    match change {
        Change::Queued { request, at, .. } => match rows.push(WaitRow {
            request: *request,
            at: *at,
        }) {
            Ok(()) => Ok(()),
            Err(_) => Err(NoMemory),
        },
        Change::Bound { request, .. }
        | Change::Failed {
            request,
            last: true,
            ..
        }
        | Change::TimedOut { request, .. }
        | Change::Cleared { request, .. } => {
            drop_request(rows, *request);
            Ok(())
        }
        _ => Ok(()),
    }
}

fn note_session(rows: &mut Vec<SessionRow>, change: &Change) -> Result<(), NoMemory>
    ensures { OnOk result (rows.new.items ≡ sessions_after rows.old.items change.now) }
{
    match change {
        Change::Bound {
            request,
            slot,
            session,
            at,
            ..
        } => match rows.push(SessionRow {
            binding: *request,
            session: *session,
            slot: *slot,
            at: *at,
        }) {
            Ok(()) => Ok(()),
            Err(_) => Err(NoMemory),
        },
        Change::Ended { binding, .. } => {
            drop_session(rows, *binding);
            Ok(())
        }
        Change::Lapsed { node, .. } => {
            drop_sessions_on(rows, *node);
            Ok(())
        }
        _ => Ok(()),
    }
}

fn node_row(rows: &[NodeRow], node: NodeNo) -> Option<&NodeRow>
    ensures { option_copied result ≡ find (is_of_node node) rows.now }
{
    rows.iter().find(|row| row.node == node)
}

fn wait_row(rows: &[WaitRow], request: ReqNo) -> Option<&WaitRow>
    ensures { option_copied result ≡ find (is_of_request request) rows.now }
{
    rows.iter().find(|row| row.request == request)
}

fn clearing_of(caller: u64, change: &Change) -> Option<Clearing>
    ensures { result ≡ clearing_of caller change.now }
{
    match change {
        Change::Cleared { request, .. } => Some(Clearing {
            caller,
            request: *request,
        }),
        _ => None,
    }
}

impl Recall {
    /// Nothing happened yet. It takes no memory.
    pub fn new(alloc: Global) -> Recall
        ensures { recalled result ≡ no_past }
    {
        Recall {
            nodes: Vec::new(alloc),
            suspects: Vec::new(alloc),
            unsettled: Vec::new(alloc),
            sessions: Vec::new(alloc),
            cleared: None,
        }
    }

    /// Takes note of an entry. After an error what it remembers is of no use.
    pub fn note(&mut self, entry: &Entry) -> Result<(), NoMemory>
        ensures { OnOk result (recalled self.new ≡ past_after (recalled self.old) entry.now) }
    {
        note_node(&mut self.nodes, &entry.change)?;
        note_suspect(&mut self.suspects, &entry.change)?;
        note_request(&mut self.unsettled, &entry.change)?;
        note_session(&mut self.sessions, &entry.change)?;
        self.cleared = clearing_of(entry.caller, &entry.change);
        Ok(())
    }

    /// The name of a registered node.
    pub fn name_of(&self, node: NodeNo) -> Option<&str>
        ensures { option_copied result ≡ name_in self.now.nodes.items node }
    {
        match node_row(self.nodes.as_slice(), node) {
            Some(row) => Some(row.name.as_str()),
            None => None,
        }
    }

    /// Whether the node was suspected and gave no sign of life since.
    pub fn is_suspect(&self, node: NodeNo) -> bool
        ensures { result ≡ has node self.now.suspects.items }
    {
        self.suspects.contains(&node)
    }

    /// When a request was queued that is not settled.
    pub fn queued(&self, request: ReqNo) -> Option<u64>
        ensures { result ≡ queued_in self.now.unsettled.items request }
    {
        match wait_row(self.unsettled.as_slice(), request) {
            Some(row) => Some(row.at.0),
            None => None,
        }
    }

    /// The session that runs by this binding.
    pub fn session_of(&self, binding: ReqNo) -> Option<&SessionRow>
        ensures { option_copied result ≡ find (is_of_binding binding) self.now.sessions.items }
    {
        self.sessions.iter().find(|row| row.binding == binding)
    }

    /// The nodes that are registered, in order.
    pub fn nodes(&self) -> &[NodeRow]
        ensures { result.now ≡ self.now.nodes.items }
    {
        self.nodes.as_slice()
    }

    /// The requests that are not settled, in order.
    pub fn unsettled(&self) -> &[WaitRow]
        ensures { result.now ≡ self.now.unsettled.items }
    {
        self.unsettled.as_slice()
    }

    /// The sessions that run, in order.
    pub fn sessions(&self) -> &[SessionRow]
        ensures { result.now ≡ self.now.sessions.items }
    {
        self.sessions.as_slice()
    }

    /// Whether the last entry was the caller's, and cleared this request.
    pub fn was_just_cleared(&self, caller: u64, request: ReqNo) -> bool
        ensures { result ≡ is_clearing caller request self.now.cleared }
    {
        match self.cleared {
            Some(clearing) => clearing.caller == caller && clearing.request == request,
            None => false,
        }
    }
}
