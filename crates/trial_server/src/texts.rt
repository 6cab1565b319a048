//! Texts, and what each says: its words, or what is wrong with it.
use crate::examples::{ATTACH_FILE, HUB_FILE, NODE_FILE};
use grid_config::{
    ConfigFault, Mode, Row, WordList, attach_config_words, attach_rows, config_words, reason_of,
    rows_of,
};
use grid_types::Text;
use std::alloc::Global;

/// A text, and the words that it says, each behind a space but for the first, or the reason of its fault, which tells the
/// section and the key of that.
type Case = (&'static str, &'static str);

const HUB: &[Case] = &[
    ("", ""),
    ("# nothing\n", ""),
    (
        "[server]\nport = 4445\n[distributor]\nreject-unsupported-caps = true\n",
        "--port 4445 --reject-unsupported-caps true",
    ),
    (
        "distributor.workers = 0\nserver = { handlers = 128, port = 0x1_00 }\nnode.session-timeout = 10\n",
        "--port 256 --workers 0 --handlers 128 --session-timeout 10",
    ),
    (
        "[server]\nport = 0\n",
        "[server] port: this must be a whole number from 1 to 65535",
    ),
    (
        "[server]\nport = \"4445\"\n",
        "[server] port: this must be a whole number from 1 to 65535",
    ),
    (
        "[server]\nport = 4445.0\n",
        "[server] port: this must be a whole number from 1 to 65535",
    ),
    (
        "[sessionqueue]\nqueue-limit = 10_001\n",
        "[sessionqueue] queue-limit: this must be a whole number from 1 to 10000",
    ),
    (
        "[distributor]\nreject-unsupported-caps = 1\n",
        "[distributor] reject-unsupported-caps: this must be true or false",
    ),
    ("server = 1\n", "[server]: this is no section"),
    ("[[server]]\nport = 1\n", "[server]: this is no section"),
    (
        "[servers]\nport = 1\n",
        "[\"servers\"]: there is no such section",
    ),
    ("port = 1\n", "[\"port\"]: there is no such section"),
    (
        "[server]\n\"\" = 1\n",
        "[server] \"\": there is no such key",
    ),
    (
        "[server]\n\"a\\nb\" = 1\n",
        "[server] \"a\\nb\": there is no such key",
    ),
    ("\"\" = 1\n", "[\"\"]: there is no such section"),
    (
        "[server]\nport = 1\naddress = 1\n",
        "[server] \"address\": there is no such key",
    ),
    (
        "[server]\nport = 0\n[distributor]\nworkers = 65\n",
        "[distributor] workers: this must be a whole number from 0 to 64",
    ),
    (
        "[server]\nport = 1\nport = 2\n",
        "TOML parse error at line 3, column 1: duplicate key",
    ),
    (
        "[server]\nport = 4445\n[distributor\n",
        "TOML parse error at line 3, column 13: unclosed table, expected `]`",
    ),
    (
        "[distributor]\njournal = 'a b'\njournal-sync = 'each'\n",
        "--journal a b --journal-sync each",
    ),
    (
        "[distributor]\njournal = '-a'\n",
        "[distributor] journal: this must be the path of a file, no - in front",
    ),
    (
        "[distributor]\njournal = \"a\\nb\"\n",
        "[distributor] journal: this must be the path of a file, no - in front",
    ),
    (
        "[distributor]\njournal-sync = 'never'\n",
        "[distributor] journal-sync: this must be \"each\" or \"second\"",
    ),
    (
        HUB_FILE,
        "--port 4444 --session-request-timeout 300 --queue-limit 10000 --reject-unsupported-caps false --workers 4 --handlers 64 --session-timeout 300 --host 0.0.0.0 --connections 10000 --journal-sync second",
    ),
];

const NODE: &[Case] = &[
    (
        "[node]\nslots = 64\nbrowser = 'firefox'\nhub = \"nowhere\"\n[server]\nport = 5556\n",
        "--hub nowhere --browser firefox --slots 64 --port 5556",
    ),
    (
        "[server]\nhandlers = 1\n",
        "[server] \"handlers\": there is no such key",
    ),
    (
        "[node]\nname = \"--port\"\n",
        "[node] name: this must be a text of 1 to 64 bytes from ! to ~, no - in front",
    ),
    (
        "[node]\nname = \"\"\n",
        "[node] name: this must be a text of 1 to 64 bytes from ! to ~, no - in front",
    ),
    (
        NODE_FILE,
        "--hub 127.0.0.1:4444 --name loop --browser chrome --slots 1 --port 5555",
    ),
];

const ATTACH: &[Case] = &[
    (
        "[node]\nplatform = 'mac'\ndriver = 'd:9515'\nbrowser-version = '126.0'\nname = 'd-1'\n",
        "--driver d:9515 --name d-1 --browser-version 126.0 --platform mac",
    ),
    (
        "[node]\nname = \"a b\"\n",
        "[node] name: this must be a text of 1 to 64 letters, digits, -, _ and ., no - in front",
    ),
    (
        "[node]\nname = \"a:b\"\n",
        "[node] name: this must be a text of 1 to 64 letters, digits, -, _ and ., no - in front",
    ),
    (
        "[node]\ndriver = \"-:1\"\n",
        "[node] driver: this must be an address HOST:PORT as a text",
    ),
    (
        "[node]\nhub = \"nowhere\"\n",
        "[node] hub: this must be an address HOST:PORT as a text",
    ),
    (
        "[node]\nhub = 'http://h:80/'\ncapability = 'a:b={\"c\": 1}'\nonce = true\n",
        "--hub http://h:80/ --capability a:b={\"c\": 1} --once true",
    ),
    (
        "[node]\ncapability = \"=7\"\n",
        "[node] capability: this must be a text NAME=VALUE, no - in front",
    ),
    (
        ATTACH_FILE,
        "--hub 127.0.0.1:4444 --driver 127.0.0.1:9515 --name driver --browser chrome --platform linux --slots 1 --once false",
    ),
];

/// What the text says to the program.
fn said(alloc: Global, program: &str, text: &[u8]) -> Result<WordList, ConfigFault> {
    match program {
        "attach" => attach_config_words(alloc, text),
        "node" => config_words(alloc, Mode::Node, text),
        _ => config_words(alloc, Mode::Hub, text),
    }
}

/// The keys that the program has.
fn rows(program: &str) -> &'static [Row] {
    match program {
        "attach" => attach_rows(),
        "node" => rows_of(Mode::Node),
        _ => rows_of(Mode::Hub),
    }
}

/// What stands behind the word and a space.
fn behind<'a>(told: &'a str, word: &str) -> Option<&'a str> {
    let rest = told.strip_prefix(word)?;
    if rest.is_empty() {
        Some(rest)
    } else {
        rest.strip_prefix(" ")
    }
}

fn are_words(words: &[Text], told: &str) -> bool {
    let mut rest = told;
    for word in words {
        match behind(rest, word.as_str()) {
            Some(others) => rest = others,
            None => return false,
        }
    }
    rest.is_empty()
}

fn is_reason(alloc: Global, rows: &[Row], text: &[u8], fault: &ConfigFault, told: &str) -> bool {
    match reason_of(alloc, rows, text, fault) {
        Some(reason) => reason.as_str() == told,
        None => false,
    }
}

fn is_said(alloc: Global, program: &str, text: &[u8], told: &str) -> bool {
    match said(alloc, program, text) {
        Ok(words) => are_words(words.words(), told),
        Err(fault) => is_reason(alloc, rows(program), text, &fault, told),
    }
}

fn are_said(alloc: Global, program: &str, cases: &[Case]) -> bool {
    for (text, told) in cases {
        if !is_said(alloc, program, text.as_bytes(), *told) {
            return false;
        }
    }
    true
}

/// Whether faults that no text above has are told.
fn are_told(alloc: Global) -> bool {
    is_reason(
        alloc,
        &[],
        b"",
        &ConfigFault::TooLong,
        "the text has over 65536 bytes",
    ) && is_reason(alloc, &[], b"", &ConfigFault::Memory, "out of memory")
}

/// Whether bytes that are no text are told.
fn is_no_text(alloc: Global) -> bool {
    let told = "TOML parse error at line 1, column 3: invalid UTF-8";
    is_said(alloc, "hub", b"# \xff\n", told)
}

#[test]
fn texts_say_their_words_or_their_fault(rt: HostRuntime) {
    let alloc = rt.alloc();
    assert!(rt; are_said(alloc, "hub", HUB));
    assert!(rt; are_said(alloc, "node", NODE));
    assert!(rt; are_said(alloc, "attach", ATTACH));
    assert!(rt; are_told(alloc));
    assert!(rt; is_no_text(alloc));
}
