//! The node, and what it answers.
ghost use Rattle.std.specs.Prelude.{◌≡◌, ◌≢◌, ℕ, ◌+◌, ◌<◌, ◌≤◌, ◌^◌, true, List, [], ◌∷◌, ◌++◌, length, take, drop, Option, Some, None, MatchOption, IfOk, IfErr, OnErr, OnOk, IsTrue, vec_len};
ghost use Rattle.std.specs.List.{list_all};
ghost use Rattle.loop_node.specs.Paths.{set_url, new_session as start_session, delete_session, get_url, unknown_command, unknown_method};
ghost use Rattle.loop_node.specs.Sessions.{new_node, new_session, session_id, url_at, without, moved};
ghost use Rattle.loop_node.specs.Replies.{Answers, AnswersTo, IsMoved, created_reply, no_session, start_by, started, status_answer};
ghost use Rattle.loop_node.specs.Sizes.{IsFound, has_short_url, is_short, short_texts};
ghost use Rattle.grid_outside.specs.Exchanges.{ask_of, is_within};
ghost use Rattle.grid_outside.specs.declared.exchange.Reply.TheVariants as exchange;

use crate::paths::{Wanted, asked};
use crate::reading::{object_of, url_asked};
use crate::replies::{failure, node_caps, success};
use grid_types::{NoMemory, NodeNo, SessionId, Text};
use http_frames::{NodeReply, NodeRequest};
use std::alloc::Global;
use std::marker::Model;
use uuid::Uuid;
use wd_bodies::{
    ErrorCode, NO_COMMAND, NO_METHOD, NO_SESSION, created_body, json_text, value_body,
};

/// A session of the node, and the url that it is at.
#[derive(Debug, Drop)]
pub(crate) struct Session {
    id: SessionId,
    url: Text,
}

/// A WebDriver endpoint in memory with a browser on Linux.
#[derive(Drop)]
pub struct LoopNode {
    number: NodeNo,
    browser: Text,
    version: Text,
    slots: u16,
    refuses: u32,
    created: u64,
    sessions: Vec<Session>,
}

impl Model for LoopNode {
    ghost use Rattle.std.specs.Prelude.{◌≡◌, true};
    ghost use Rattle.std.specs.List.{list_all};
    ghost use Rattle.loop_node.specs.Sessions.{Node};
    ghost use Rattle.loop_node.specs.Sizes.{has_short_url};

    ghost Value = { Node };

    ghost view = { λ n. record { number = n.number; browser = n.browser; version = n.version; slots = n.slots; refuses = n.refuses; created = n.created; sessions = n.sessions.items } };

    ghost invariant = { λ n. list_all has_short_url n.sessions.items ≡ true };
}

/// The place of the session with this id.
fn place_of(sessions: &[Session], id: &[u8]) -> Option<usize>
    ensures { MatchOption result (url_at id.now sessions.now ≡ None) (IsFound id.now sessions.now) }
{
    for (index, session) in sessions.iter().enumerate() {
        if session.id.as_bytes() == id {
            return Some(index);
        }
    }
    None
}

/// The id of a node's n-th session.
fn session_of(number: NodeNo, n: u64) -> SessionId
    ensures { result ≡ session_id number n }
{
    let mut buffer = Uuid::encode_buffer();
    let id = Uuid::from_u64_pair(u64::from(number), n);
    let text = id.hyphenated().encode_lower(&mut buffer);
    match SessionId::from_bytes(text.as_bytes()) {
        Some(session) => session,
        None => unreachable!(),
    }
}

/// Takes out the session at a place.
fn take_out(sessions: &mut Vec<Session>, place: usize)
    requires { place < vec_len sessions.old }
    ensures without { (id : List ℕ) → IsFound id sessions.old.items place
        → sessions.new.items ≡ without id sessions.old.items }
    ensures short { list_all has_short_url sessions.old.items ≡ true
        → list_all has_short_url sessions.new.items ≡ true }
{
    sessions.remove(place);
}

/// Gives the session at a place another url.
fn put_url(sessions: &mut Vec<Session>, place: usize, url: Text)
    requires { place < vec_len sessions.old }
    ensures moved { (id : List ℕ) → IsFound id sessions.old.items place
        → sessions.new.items ≡ moved id url sessions.old.items }
    ensures short { list_all has_short_url sessions.old.items ≡ true → is_short url ≡ true
        → list_all has_short_url sessions.new.items ≡ true }
{
    sessions[place].url = url;
}

/// A session with this id, at its first url.
fn first_session(alloc: Global, id: SessionId) -> Result<Session, NoMemory>
    ensures { IfOk result (λ s. s ≡ new_session id) }
{
    Ok(Session {
        id,
        url: Text::of(alloc, "about:blank")?,
    })
}

fn no_session(alloc: Global) -> Result<NodeReply, NoMemory>
    ensures { IfOk result (λ reply. reply ≡ no_session) }
{
    failure(alloc, ErrorCode::InvalidSessionId, NO_SESSION)
}

impl LoopNode {
    /// A node without sessions that refuses its first starts, so many. It takes no memory.
    pub fn new(
        alloc: Global,
        number: NodeNo,
        browser: Text,
        version: Text,
        slots: u16,
        refuses: u32,
    ) -> LoopNode
        ensures { result ≡ new_node number browser version slots refuses }
    {
        LoopNode {
            number,
            browser,
            version,
            slots,
            refuses,
            created: 0,
            sessions: Vec::new(alloc),
        }
    }

    /// Its number.
    pub fn number(&self) -> NodeNo
        ensures { result ≡ self.now.number }
    {
        self.number
    }

    /// Another number, of which the ids of later sessions are made.
    pub fn renumber(&mut self, number: NodeNo)
        ensures { self.new ≡ record self.old { number = number } }
    {
        self.number = number;
    }

    /// The reply to a request. Err: out of memory, also where 2^64 - 1 sessions were created.
    pub fn answer(
        &mut self,
        alloc: Global,
        request: &NodeRequest<'_>,
    ) -> Result<NodeReply, NoMemory>
        ensures answers { IfOk result (λ reply.
            Answers self.old (ask_of request.now) reply self.new) }
        ensures err { OnErr result (self.new ≡ self.old) }
        // A reply is as small as one that comes over a link.
        ensures within { IfOk result (λ reply. IsTrue (short_texts self.old) →
            IsTrue (is_within (exchange.Http reply))) }
    {
        // What the type keeps of them bounds the reply.
        let _sessions = self.sessions.as_slice();
        self.reply_to(alloc, request)
    }

    fn reply_to(&mut self, alloc: Global, request: &NodeRequest<'_>) -> Result<NodeReply, NoMemory>
        ensures answers { IfOk result (λ reply.
            Answers self.old (ask_of request.now) reply self.new) }
        ensures err { OnErr result (self.new ≡ self.old) }
    {
        match asked(request.method, request.target) {
            Wanted::NewSession => self.start(alloc, request.body),
            Wanted::DeleteSession(id) => self.delete(alloc, id),
            Wanted::SetUrl(id) => self.set_url(alloc, id, request.body),
            Wanted::GetUrl(id) => self.url(alloc, id),
            Wanted::GetStatus => self.status(alloc),
            Wanted::UnknownCommand => self.no_command(alloc),
            Wanted::UnknownMethod => self.no_method(alloc),
        }
    }

    fn no_command(&self, alloc: Global) -> Result<NodeReply, NoMemory>
        ensures { IfOk result (λ reply. AnswersTo unknown_command self.now [] (reply, self.now)) }
    {
        failure(alloc, ErrorCode::UnknownCommand, NO_COMMAND)
    }

    fn no_method(&self, alloc: Global) -> Result<NodeReply, NoMemory>
        ensures { IfOk result (λ reply. AnswersTo unknown_method self.now [] (reply, self.now)) }
    {
        failure(alloc, ErrorCode::UnknownMethod, NO_METHOD)
    }

    fn start(&mut self, alloc: Global, body: &[u8]) -> Result<NodeReply, NoMemory>
        ensures answers { IfOk result (λ reply.
            AnswersTo start_session self.old body.now (reply, self.new)) }
        ensures err { OnErr result (self.new ≡ self.old) }
    {
        match object_of(alloc, body) {
            Ok(Some(_)) => self.start_session(alloc),
            Ok(None) => failure(alloc, ErrorCode::InvalidArgument, "body is not an object"),
            Err(NoMemory) => Err(NoMemory),
        }
    }

    fn start_session(&mut self, alloc: Global) -> Result<NodeReply, NoMemory>
        ensures answers { IfOk result (λ reply. (reply, self.new)
            ≡ start_by self.old.refuses self.old) }
        ensures err { OnErr result (self.new ≡ self.old) }
    {
        if self.refuses > 0 {
            let reply = failure(alloc, ErrorCode::SessionNotCreated, "refused by script")?;
            self.refuses -= 1;
            return Ok(reply);
        }
        if self.sessions.len() >= usize::from(self.slots) {
            return failure(alloc, ErrorCode::SessionNotCreated, "no free slot");
        }
        self.create(alloc)
    }

    fn create(&mut self, alloc: Global) -> Result<NodeReply, NoMemory>
        ensures answers { IfOk result (λ reply. (reply, self.new) ≡ started self.old) }
        ensures err { OnErr result (self.new ≡ self.old) }
    {
        // There is no further id.
        let Some(created) = self.created.checked_add(1) else {
            return Err(NoMemory);
        };
        let id = session_of(self.number, created);
        let reply = self.created_reply(alloc, &id)?;
        let session = first_session(alloc, id)?;
        if self.sessions.push(session).is_err() {
            return Err(NoMemory);
        }
        self.created = created;
        Ok(reply)
    }

    fn created_reply(&self, alloc: Global, id: &SessionId) -> Result<NodeReply, NoMemory>
        ensures { IfOk result (λ reply. reply ≡ created_reply self.now id.now) }
    {
        let caps = node_caps(alloc, self.browser.as_str(), self.version.as_str())?;
        success(alloc, created_body(alloc, id, &caps)?)
    }

    fn delete(&mut self, alloc: Global, id: &[u8]) -> Result<NodeReply, NoMemory>
        ensures answers { IfOk result (λ reply.
            AnswersTo (delete_session id.now) self.old [] (reply, self.new)) }
        ensures err { OnErr result (self.new ≡ self.old) }
    {
        match place_of(&self.sessions, id) {
            Some(place) => {
                let reply = success(alloc, value_body(alloc, "null")?)?;
                take_out(&mut self.sessions, place);
                Ok(reply)
            }
            None => no_session(alloc),
        }
    }

    fn set_url(&mut self, alloc: Global, id: &[u8], body: &[u8]) -> Result<NodeReply, NoMemory>
        ensures answers { IfOk result (λ reply.
            AnswersTo (set_url id.now) self.old body.now (reply, self.new)) }
        ensures err { OnErr result (self.new ≡ self.old) }
    {
        match place_of(&self.sessions, id) {
            Some(place) => self.move_to(alloc, place, body),
            None => no_session(alloc),
        }
    }

    /// The session at a place goes to the url that the body asks for.
    fn move_to(&mut self, alloc: Global, place: usize, body: &[u8]) -> Result<NodeReply, NoMemory>
        requires { place < length self.old.sessions }
        ensures answers { IfOk result (λ reply. (id : List ℕ) → IsFound id self.old.sessions place
            → IsMoved self.old id body.now (reply, self.new)) }
        ensures err { OnErr result (self.new ≡ self.old) }
    {
        match url_asked(alloc, body)? {
            Some(url) => {
                let reply = success(alloc, value_body(alloc, "null")?)?;
                put_url(&mut self.sessions, place, url);
                Ok(reply)
            }
            None => failure(alloc, ErrorCode::InvalidArgument, "url is not a string"),
        }
    }

    fn url(&self, alloc: Global, id: &[u8]) -> Result<NodeReply, NoMemory>
        ensures { IfOk result (λ reply. AnswersTo (get_url id.now) self.now [] (reply, self.now)) }
    {
        match place_of(&self.sessions, id) {
            Some(place) => {
                let json = json_text(alloc, self.sessions[place].url.as_str())?;
                success(alloc, value_body(alloc, json.as_str())?)
            }
            None => no_session(alloc),
        }
    }

    fn status(&self, alloc: Global) -> Result<NodeReply, NoMemory>
        ensures { IfOk result (λ reply. (reply, self.now) ≡ status_answer self.now) }
    {
        let json = if self.sessions.len() < usize::from(self.slots) {
            "{\"ready\":true,\"message\":\"loop node\"}"
        } else {
            "{\"ready\":false,\"message\":\"loop node\"}"
        };
        success(alloc, value_body(alloc, json)?)
    }
}
