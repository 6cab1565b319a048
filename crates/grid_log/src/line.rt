//! A line is written fact by fact.
ghost use Rattle.std.specs.Prelude.{◌≡◌, ◌++◌, ◌∷◌, [], IfOk, OnOk, codes, decimal, option_copied};
ghost use Rattle.grid_log.specs.Events.{browser_in, node_words, version_in, why_words};
ghost use Rattle.grid_log.specs.Facts.{begun, line_end, name, name_if, number, number_if, with_fact, with_facts, with_key, with_word, word};

use crate::facts::{browser_in, node_words, version_in, why_words};
use crate::form::Form;
use grid_types::{Caps, FailWhy, NoMemory, ReqNo, SessionId, SlotId};
use itoa::Buffer;
use std::alloc::Global;
use wd_bodies::json_text;

/// A line that is not ended yet.
#[derive(Drop)]
pub(crate) struct Line {
    form: Form,
    bytes: Vec<u8>,
    alloc: Global,
}

impl Line {
    fn push(&mut self, bytes: &[u8]) -> Result<(), NoMemory>
        ensures bytes { OnOk result (self.new.bytes.items ≡ self.old.bytes.items ++ bytes.now) }
        ensures form { self.new.form ≡ self.old.form }
    {
        self.bytes.extend_from_slice(bytes)?;
        Ok(())
    }

    fn push_number(&mut self, n: u64) -> Result<(), NoMemory>
        ensures bytes { OnOk result (self.new.bytes.items ≡ self.old.bytes.items ++ decimal n) }
        ensures form { self.new.form ≡ self.old.form }
    {
        let mut buffer = Buffer::new();
        self.push(buffer.format(n).as_bytes())
    }

    /// Begins a line with the moment, in milliseconds, and what happened.
    #[tactic(auto, unfolding(crate::specs::Facts::begun))]
    pub(crate) fn begin(alloc: Global, form: Form, at: u64, what: &str) -> Result<Line, NoMemory>
        ensures bytes { IfOk result (λ line. line.bytes.items ≡ begun form at what.now) }
        ensures form { IfOk result (λ line. line.form ≡ form) }
    {
        let mut line = Line {
            form,
            bytes: Vec::new(alloc),
            alloc,
        };
        match form {
            Form::Text => {
                line.push_number(at)?;
                line.push(b" ")?;
                line.push(what.as_bytes())?;
            }
            Form::Json => {
                line.push(b"{\"at\":")?;
                line.push_number(at)?;
                line.push(b",\"event\":\"")?;
                line.push(what.as_bytes())?;
                line.push(b"\"")?;
            }
        }
        Ok(line)
    }

    #[tactic(auto, unfolding(crate::specs::Facts::with_key))]
    fn push_key(&mut self, key: &str) -> Result<(), NoMemory>
        ensures bytes { OnOk result (self.new.bytes.items
            ≡ with_key self.old.form self.old.bytes.items key.now) }
        ensures form { self.new.form ≡ self.old.form }
    {
        match self.form {
            Form::Text => {
                self.push(b" ")?;
                self.push(key.as_bytes())?;
                self.push(b"=")
            }
            Form::Json => {
                self.push(b",\"")?;
                self.push(key.as_bytes())?;
                self.push(b"\":")
            }
        }
    }

    #[tactic(auto, unfolding(crate::specs::Facts::with_word))]
    fn push_word(&mut self, word: &[u8]) -> Result<(), NoMemory>
        ensures bytes { OnOk result (self.new.bytes.items
            ≡ with_word self.old.form self.old.bytes.items word.now) }
        ensures form { self.new.form ≡ self.old.form }
    {
        match self.form {
            Form::Text => self.push(word),
            Form::Json => {
                self.push(b"\"")?;
                self.push(word)?;
                self.push(b"\"")
            }
        }
    }

    /// A number.
    #[tactic(auto, unfolding(crate::specs::Facts::with_fact))]
    pub(crate) fn number(&mut self, key: &str, n: u64) -> Result<(), NoMemory>
        ensures bytes { OnOk result (self.new.bytes.items
            ≡ with_fact self.old.form self.old.bytes.items (number key.now n)) }
        ensures form { self.new.form ≡ self.old.form }
    {
        self.push_key(key)?;
        self.push_number(n)
    }

    /// A word without a sign that would have to be escaped.
    #[tactic(auto, unfolding(crate::specs::Facts::with_fact))]
    pub(crate) fn word(&mut self, key: &str, bytes: &[u8]) -> Result<(), NoMemory>
        ensures bytes { OnOk result (self.new.bytes.items
            ≡ with_fact self.old.form self.old.bytes.items (word key.now bytes.now)) }
        ensures form { self.new.form ≡ self.old.form }
    {
        self.push_key(key)?;
        self.push_word(bytes)
    }

    /// A name, which may be any text.
    #[tactic(auto, unfolding(crate::specs::Facts::with_fact))]
    pub(crate) fn name(&mut self, key: &str, text: &str) -> Result<(), NoMemory>
        ensures bytes { OnOk result (self.new.bytes.items
            ≡ with_fact self.old.form self.old.bytes.items (name key.now text.now)) }
        ensures form { self.new.form ≡ self.old.form }
    {
        self.push_key(key)?;
        let written = json_text(self.alloc, text)?;
        self.push(written.as_str().as_bytes())
    }

    /// A number, where there is one.
    #[tactic(auto, unfolding(crate::specs::Facts::with_fact))]
    pub(crate) fn number_if(&mut self, key: &str, n: Option<u64>) -> Result<(), NoMemory>
        ensures bytes { OnOk result (self.new.bytes.items
            ≡ with_fact self.old.form self.old.bytes.items (number_if key.now n)) }
        ensures form { self.new.form ≡ self.old.form }
    {
        match n {
            Some(n) => self.number(key, n),
            None => Ok(()),
        }
    }

    /// A name, where there is one.
    #[tactic(auto, unfolding(crate::specs::Facts::with_fact))]
    pub(crate) fn name_if(&mut self, key: &str, text: Option<&str>) -> Result<(), NoMemory>
        ensures bytes { OnOk result (self.new.bytes.items
            ≡ with_fact self.old.form self.old.bytes.items (name_if key.now (option_copied text.entry))) }
        ensures form { self.new.form ≡ self.old.form }
    {
        match text {
            Some(text) => self.name(key, text),
            None => Ok(()),
        }
    }

    /// A slot, by its node and its place in it.
    fn slot(&mut self, slot: SlotId) -> Result<(), NoMemory>
        ensures bytes { OnOk result (self.new.bytes.items
            ≡ with_facts self.old.form self.old.bytes.items
            (number (codes "node") slot.node ∷ number (codes "slot") slot.index ∷ [])) }
        ensures form { self.new.form ≡ self.old.form }
    {
        self.number("node", u64::from(slot.node))?;
        self.number("slot", u64::from(slot.index))
    }

    /// A request, and a slot.
    pub(crate) fn request_at(&mut self, request: ReqNo, slot: SlotId) -> Result<(), NoMemory>
        ensures bytes { OnOk result (self.new.bytes.items
            ≡ with_facts self.old.form self.old.bytes.items
            (number (codes "request") request ∷ number (codes "node") slot.node
            ∷ number (codes "slot") slot.index ∷ [])) }
        ensures form { self.new.form ≡ self.old.form }
    {
        self.number("request", request)?;
        self.slot(slot)
    }

    /// A session, its request and its slot.
    pub(crate) fn session_at(
        &mut self,
        session: &SessionId,
        request: ReqNo,
        slot: SlotId,
    ) -> Result<(), NoMemory>
        ensures bytes { OnOk result (self.new.bytes.items
            ≡ with_facts self.old.form self.old.bytes.items
            (word (codes "session") session.now ∷ number (codes "request") request
            ∷ number (codes "node") slot.node ∷ number (codes "slot") slot.index ∷ [])) }
        ensures form { self.new.form ≡ self.old.form }
    {
        self.word("session", session.as_bytes())?;
        self.request_at(request, slot)
    }

    /// Why a start failed, and what the node said to it.
    pub(crate) fn why(&mut self, why: &FailWhy) -> Result<(), NoMemory>
        ensures bytes { OnOk result (self.new.bytes.items
            ≡ with_facts self.old.form self.old.bytes.items
            (name (codes "why") (why_words why.now)
            ∷ name_if (codes "message") (node_words why.now) ∷ [])) }
        ensures form { self.new.form ≡ self.old.form }
    {
        self.name("why", why_words(why))?;
        self.name_if("message", node_words(why))
    }

    /// The browser that capabilities tell, and its version.
    pub(crate) fn browser(&mut self, caps: &Caps) -> Result<(), NoMemory>
        ensures bytes { OnOk result (self.new.bytes.items
            ≡ with_facts self.old.form self.old.bytes.items
            (name_if (codes "browser") (browser_in caps.now)
            ∷ name_if (codes "version") (version_in caps.now) ∷ [])) }
        ensures form { self.new.form ≡ self.old.form }
    {
        self.name_if("browser", browser_in(caps))?;
        self.name_if("version", version_in(caps))
    }

    /// Ends the line.
    #[tactic(auto, unfolding(crate::specs::Facts::line_end))]
    pub(crate) fn end(mut self) -> Result<Vec<u8>, NoMemory>
        ensures { IfOk result (λ bytes.
            bytes.items ≡ self.bytes.items ++ line_end self.form) }
    {
        match self.form {
            Form::Text => self.push(b"\n")?,
            Form::Json => self.push(b"}\n")?,
        }
        Ok(self.bytes)
    }
}
