//! What a node's exchanges come to, said on standard error when it changes.
ghost use Rattle.std.specs.Prelude.{◌≡◌, ℕ, ◌≤◌};

use crate::answers::answer_of;
use grid_outside::{ExchangeFault, NodeLink, NodeRequest, Reply};
use grid_types::NodeAddress;
use node_signs::Contact;
use std::alloc::Global;

/// Reaches a hub and a driver by another link, and says when what they answer changes.
#[derive(Drop)]
pub struct ToldNodes<R: Eprint + Drop, N: NodeLink + Drop> {
    runtime: R,
    program: &'static str,
    nodes: N,
    driver: Option<Contact>,
    hub: Option<Contact>,
    answer: Option<String>,
}

impl<R: Eprint + Drop, N: NodeLink + Drop> ToldNodes<R, N> {
    /// Tells under the program's name of exchanges over `nodes`. The hub's first answer is told where it
    /// is not `hub`, the driver's always.
    pub fn new(runtime: R, program: &'static str, nodes: N, hub: Option<Contact>) -> Self
        ensures { result.nodes ≡ nodes }
    {
        ToldNodes {
            runtime,
            program,
            nodes,
            driver: None,
            hub,
            answer: None,
        }
    }

    /// It works just as well where nothing can be written.
    fn tell_driver(&mut self, contact: Contact)
        ensures { self.new.nodes ≡ self.old.nodes }
    {
        if self.driver != Some(contact) {
            self.driver = Some(contact);
            let program = self.program;
            let _ = eprintln!(self.runtime; "{program}: the driver {contact}");
        }
    }

    /// Tells of the hub with what it said beside the status, where it said something.
    fn tell_answer(&mut self, contact: Contact, answer: String)
        ensures { self.new.nodes ≡ self.old.nodes }
    {
        let is_known = match &self.answer {
            Some(known) => known.as_str() == answer.as_str(),
            None => false,
        };
        if self.hub != Some(contact) || !is_known {
            let program = self.program;
            let _ = eprintln!(self.runtime; "{program}: the hub {contact}: {answer}");
        }
        self.hub = Some(contact);
        self.answer = Some(answer);
    }

    fn tell_hub(&mut self, contact: Contact)
        ensures { self.new.nodes ≡ self.old.nodes }
    {
        if self.hub != Some(contact) {
            self.hub = Some(contact);
            let program = self.program;
            let _ = eprintln!(self.runtime; "{program}: the hub {contact}");
        }
    }

    /// A driver is looked at by GET, and a hub is told by POST and DELETE.
    fn tell(&mut self, is_look: bool, contact: Contact, answer: Option<String>)
        ensures { self.new.nodes ≡ self.old.nodes }
    {
        if is_look {
            return self.tell_driver(contact);
        }
        match answer {
            Some(answer) => self.tell_answer(contact, answer),
            None => self.tell_hub(contact),
        }
    }
}

impl<R: Eprint + Drop, N: NodeLink + Drop> NodeLink for ToldNodes<R, N> {
    ghost faults = { λ n. N.faults n.nodes };

    ghost gives = { λ old address ask came new. N.gives old.nodes address ask came new.nodes };

    fn exchange(
        &mut self,
        alloc: Global,
        address: &NodeAddress,
        request: &NodeRequest<'_>,
    ) -> Result<Reply, ExchangeFault> {
        let came = self.nodes.exchange(alloc, address, request);
        if let Some(contact) = Contact::of(&came) {
            let answer = answer_of(alloc, &came);
            self.tell(request.method == b"GET".as_slice(), contact, answer);
        }
        came
    }
}
