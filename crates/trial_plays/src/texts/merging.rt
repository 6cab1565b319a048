//! Worked bodies of New Sessions and of registrations.
use caps_merge::CapsFault::{
    BadFirstMatch, BadList, BadMember, Clash, NoCapabilities, NotJson, TooLarge, TooMany,
};
use caps_merge::{CapsFault, process, registration};
use grid_types::{Cap, CapValue, Caps, Choices, Registration, SlotGroup};
use std::alloc::{AllocError, Global};

fn push_quoted(text: &mut String, content: &str) -> Result<(), AllocError> {
    text.push('\'')?;
    text.push_str(content)?;
    text.push('\'')
}

fn push_value(text: &mut String, value: &CapValue) -> Result<(), AllocError> {
    match value {
        CapValue::Text(content) => push_quoted(text, content.as_str()),
        CapValue::Flag(true) => text.push_str("yes"),
        CapValue::Flag(false) => text.push_str("no"),
        CapValue::Raw(json) => text.push_str(json.as_str()),
    }
}

fn push_cap(text: &mut String, cap: &Cap) -> Result<(), AllocError> {
    text.push_str(cap.name.as_str())?;
    text.push('=')?;
    push_value(text, &cap.value)?;
    text.push(';')
}

fn push_caps(text: &mut String, caps: &Caps) -> Result<(), AllocError> {
    text.push('[')?;
    for cap in caps.items() {
        push_cap(text, cap)?;
    }
    text.push(']')
}

fn push_choices(text: &mut String, choices: &Choices) -> Result<(), AllocError> {
    for caps in choices.items() {
        push_caps(text, caps)?;
    }
    Ok(())
}

fn push_fault(text: &mut String, fault: &CapsFault) -> Result<(), AllocError> {
    match fault {
        NotJson(why) => write!(text, "not json {why:?}"),
        NoCapabilities => text.push_str("no capabilities"),
        BadFirstMatch => text.push_str("bad firstMatch"),
        BadMember { list, name } => write!(text, "list {list} member {}", name.as_str()),
        Clash { entry, name } => write!(text, "clash {entry} {}", name.as_str()),
        TooMany { count } => write!(text, "too many {count}"),
        TooLarge { bytes } => write!(text, "too large {bytes}"),
        BadList { list } => write!(text, "list {list}"),
        CapsFault::Memory => text.push_str("memory"),
    }
}

/// What the body gives, in one line.
fn tell(alloc: Global, text: &mut String, body: &[u8]) -> Result<(), AllocError> {
    match process(alloc, body) {
        Ok(choices) => push_choices(text, &choices),
        Err(fault) => push_fault(text, &fault),
    }
}

const NEW_SESSIONS: &[(&str, &str)] = &[
    (
        r#"{"capabilities":{"alwaysMatch":{"browserName":null},"firstMatch":[{"browserName":"chrome"}]}}"#,
        "[browserName='chrome';]",
    ),
    (
        r#"{"capabilities":{"alwaysMatch":{"browserName":"chrome"},"firstMatch":[{"browserName":"chrome"}]}}"#,
        "clash 0 browserName",
    ),
    (r#"{"capabilities":{"firstMatch":[]}}"#, "bad firstMatch"),
    (r#"{"capabilities":{"firstMatch":[{}]}}"#, "[]"),
    (r#"{"capabilities":{}}"#, "[]"),
    (
        r#"{"capabilities": {"firstMatch": [{"browserName": "chrome", "goog:chromeOptions": {"args": ["--headless=new"], "mobileEmulation": {"deviceMetrics": {"pixelRatio": 3.0}}}}]}}"#,
        r#"[browserName='chrome';goog:chromeOptions={"args":["--headless=new"],"mobileEmulation":{"deviceMetrics":{"pixelRatio":3.0}}};]"#,
    ),
    (
        r#"{"capabilities":{"firstMatch":[{"browserName":"safari"},{"browserName":"firefox"}]}}"#,
        "[browserName='safari';][browserName='firefox';]",
    ),
    (
        r#"{"capabilities":{"alwaysMatch":{"browser":"chrome"}}}"#,
        "list 0 member browser",
    ),
    (
        r#"{"capabilities":{"firstMatch":[{},{"timeouts":{"script":-1}}]}}"#,
        "list 2 member timeouts",
    ),
    (r#"{"desiredCapabilities":{}}"#, "no capabilities"),
    ("[]", "no capabilities"),
    (r#"{"capabilities":[]}"#, "no capabilities"),
    (r#"{"capabilities":{"firstMatch":{}}}"#, "bad firstMatch"),
    (r#"{"capabilities":{"alwaysMatch":null}}"#, "list 0"),
    (r#"{"capabilities":{"firstMatch":[{},7]}}"#, "list 2"),
    (r#"{"capabilities":{"#, "not json Syntax { at: 17 }"),
    (
        r#"{"a":1,"a":2}"#,
        "not json Repeated { first: 1, again: 7 }",
    ),
    (
        r#"{"capabilities":{"alwaysMatch":{"timeouts":{"a":1,"\u0061":2}}}}"#,
        "not json Repeated { first: 44, again: 50 }",
    ),
    (
        r#"{"capabilities":{"alwaysMatch":{"timeouts":{"script":null,"pageLoad":9007199254740991,"implicit":0, "x":-1.5}}}}"#,
        r#"[timeouts={"script":null,"pageLoad":9007199254740991,"implicit":0,"x":-1.5};]"#,
    ),
    (
        r#"{"capabilities":{"alwaysMatch":{"timeouts":{"pageLoad":9007199254740992}}}}"#,
        "list 0 member timeouts",
    ),
    (
        r#"{"capabilities":{"alwaysMatch":{"timeouts":{"pageLoad":null}}}}"#,
        "list 0 member timeouts",
    ),
    (
        r#"{"capabilities":{"alwaysMatch":{"timeouts":{"implicit":1.0}}}}"#,
        "list 0 member timeouts",
    ),
    (
        r#"{"capabilities":{"alwaysMatch":{"setWindowRect":true,"pageLoadStrategy":"eager","proxy":{"p": 1},"unhandledPromptBehavior":"accept and notify"}}}"#,
        r#"[setWindowRect=yes;pageLoadStrategy='eager';proxy={"p":1};unhandledPromptBehavior='accept and notify';]"#,
    ),
    (
        r#"{"capabilities":{"alwaysMatch":{"unhandledPromptBehavior":{"alert":"x"},"a:b":null,":":[ ]}}}"#,
        r#"[unhandledPromptBehavior={"alert":"x"};:=[];]"#,
    ),
    (
        r#"{"capabilities":{"alwaysMatch":{"pageLoadStrategy":"fast"}}}"#,
        "list 0 member pageLoadStrategy",
    ),
    (
        r#"{"capabilities":{"alwaysMatch":{"proxy":"p"}}}"#,
        "list 0 member proxy",
    ),
    (
        r#"{"capabilities":{"alwaysMatch":{"webSocketUrl":"true"}}}"#,
        "list 0 member webSocketUrl",
    ),
    (
        r#"{"capabilities":{"alwaysMatch":{"a:\u0062":"\u00e9"},"firstMatch":[{"x:y":false},{"x:y":2},{"a:b":1}]}}"#,
        "clash 2 a:b",
    ),
    (
        r#"{"capabilities":{"alwaysMatch":{"grid:queueTimeout":null},"firstMatch":[{"grid:queueTimeout":1000},{"grid:queueTimeout":86400000}]}}"#,
        "[grid:queueTimeout=1000;][grid:queueTimeout=86400000;]",
    ),
    (
        r#"{"capabilities":{"alwaysMatch":{"browserName":"safari","grid:queueTimeout":999}}}"#,
        "list 0 member grid:queueTimeout",
    ),
    (
        r#"{"capabilities":{"firstMatch":[{"grid:queueTimeout":86400001}]}}"#,
        "list 1 member grid:queueTimeout",
    ),
    (
        r#"{"capabilities":{"firstMatch":[{"grid:queueTimeout":"2000"}]}}"#,
        "list 1 member grid:queueTimeout",
    ),
    (
        r#"{"capabilities":{"firstMatch":[{"grid:queueTimeout":2e3}]}}"#,
        "list 1 member grid:queueTimeout",
    ),
    (
        r#"{"capabilities":{"alwaysMatch":{"a:\u0062":"\u00e9"},"firstMatch":[{"x:y":false},{"x:y":2e1}]}}"#,
        "[a:b='é';x:y=no;][a:b='é';x:y=2e1;]",
    ),
];

fn gives(alloc: Global, body: &str, wanted: &str) -> Result<bool, AllocError> {
    let mut text = String::new(alloc);
    tell(alloc, &mut text, body.as_bytes())?;
    Ok(text.as_str() == wanted)
}

fn all_give(alloc: Global, rows: &[(&str, &str)]) -> bool {
    for (body, wanted) in rows {
        if gives(alloc, body, wanted) != Ok(true) {
            return false;
        }
    }
    true
}

#[test]
fn bodies_of_new_sessions(rt: HostRuntime) {
    assert!(rt; all_give(rt.alloc(), NEW_SESSIONS));
}

fn push_group(text: &mut String, group: &SlotGroup) -> Result<(), AllocError> {
    write!(text, " {} of ", group.count)?;
    push_caps(text, &group.stereotype)
}

fn push_groups(text: &mut String, groups: &[SlotGroup]) -> Result<(), AllocError> {
    for group in groups {
        push_group(text, group)?;
    }
    Ok(())
}

fn push_drain(text: &mut String, drain_after: Option<u32>) -> Result<(), AllocError> {
    match drain_after {
        Some(count) => write!(text, " drained after {count}:"),
        None => Ok(()),
    }
}

fn push_node(text: &mut String, node: &Registration) -> Result<(), AllocError> {
    write!(
        text,
        "{} {} slots at most:",
        node.name.as_str(),
        node.max_sessions
    )?;
    push_drain(text, node.drain_after)?;
    push_groups(text, node.groups.items())
}

/// What the body of a registration says, in one line.
fn tell_node(alloc: Global, text: &mut String, body: &[u8]) -> Result<(), AllocError> {
    match registration(alloc, body) {
        Ok(node) => push_node(text, &node),
        Err(fault) => write!(text, "{fault:?}"),
    }
}

const REGISTRATIONS: &[(&str, &str)] = &[
    (
        r#"{"name":"n2","address":"127.0.0.1:5555","maxSessions":1,"slots":[{"count":1,"stereotype":{"browserName":"firefox"}}]}"#,
        "n2 1 slots at most: 1 of [browserName='firefox';]",
    ),
    (
        r#"{"slots":[{"count":64,"stereotype":{"platformName":null,"x":1.0}}],"maxSessions":64,"more":{},"name":"a.b_c-D","address":"h"}"#,
        "a.b_c-D 64 slots at most: 64 of [x=1.0;]",
    ),
    ("[]", "BadField(Body)"),
    ("{", "NotJson(Syntax { at: 1 })"),
    (
        r#"{"a":1,"a":2}"#,
        "NotJson(Repeated { first: 1, again: 7 })",
    ),
    (r#"{"name":"n 2"}"#, "BadField(Name)"),
    (r#"{"name":"n2","address":""}"#, "BadField(Address)"),
    (
        r#"{"name":"n2","address":"h","maxSessions":65}"#,
        "BadField(MaxSessions)",
    ),
    (
        r#"{"name":"n2","address":"h","maxSessions":1.0}"#,
        "BadField(MaxSessions)",
    ),
    (
        r#"{"name":"n2","address":"h","maxSessions":1,"slots":[]}"#,
        "BadField(Slots)",
    ),
    (
        r#"{"name":"n2","address":"h","maxSessions":2,"drainAfter":1000000,"slots":[{"count":1,"stereotype":{}}]}"#,
        "n2 2 slots at most: drained after 1000000: 1 of []",
    ),
    (
        r#"{"name":"n2","address":"h","maxSessions":2,"drainAfter":0}"#,
        "BadField(DrainAfter)",
    ),
    (
        r#"{"name":"n2","address":"h","maxSessions":2,"drainAfter":1000001}"#,
        "BadField(DrainAfter)",
    ),
    (
        r#"{"name":"n2","address":"h","maxSessions":2,"drainAfter":null}"#,
        "BadField(DrainAfter)",
    ),
    (
        r#"{"name":"n2","address":"h","maxSessions":1,"slots":[1]}"#,
        "BadField(Slots)",
    ),
    (
        r#"{"name":"n2","address":"h","maxSessions":1,"slots":[{"count":0,"stereotype":{}}]}"#,
        "BadField(Count)",
    ),
    (
        r#"{"name":"n2","address":"h","maxSessions":1,"slots":[{"count":1,"stereotype":[]}]}"#,
        "BadField(Stereotype)",
    ),
    (
        r#"{"name":"n2","address":"h","maxSessions":1,"slots":[{"count":1,"stereotype":{"browserName":true}}]}"#,
        "BadField(Stereotype)",
    ),
    (
        r#"{"name":"n2","address":"h","maxSessions":1,"slots":[{"count":60,"stereotype":{}},{"count":5,"stereotype":{}}]}"#,
        "BadField(Slots)",
    ),
];

fn says(alloc: Global, body: &str, wanted: &str) -> Result<bool, AllocError> {
    let mut text = String::new(alloc);
    tell_node(alloc, &mut text, body.as_bytes())?;
    Ok(text.as_str() == wanted)
}

fn all_say(alloc: Global, rows: &[(&str, &str)]) -> bool {
    for (body, wanted) in rows {
        if says(alloc, body, wanted) != Ok(true) {
            return false;
        }
    }
    true
}

#[test]
fn bodies_of_registrations(rt: HostRuntime) {
    assert!(rt; all_say(rt.alloc(), REGISTRATIONS));
}
