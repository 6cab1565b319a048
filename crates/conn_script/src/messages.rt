//! Errors in words.
ghost use Rattle.std.specs.Prelude.{◌≡◌, IfOk, string_bytes};
ghost use Rattle.caps_merge.specs.declared.fault.CapsFault.TheVariants as caps;
ghost use Rattle.caps_merge.specs.declared.registering.fault.RegFault.TheVariants as reg;
ghost use Rattle.conn_script.specs.Messages.{list_name, json_fault_text, caps_fault_text, field_word, reg_fault_text, why_text};

use caps_merge::{CapsFault, RegFault, RegField};
use grid_types::{FailWhy, NoMemory};
use json_spans::JsonFault;
use std::alloc::Global;
use wd_bodies::{NODE_NOT_HTTP, NODE_UNREACHABLE};

fn json_fault_text(alloc: Global, fault: &JsonFault) -> Result<String, NoMemory>
    ensures { IfOk result (λ s. string_bytes s ≡ json_fault_text fault.now) }
{
    let text = match fault {
        JsonFault::NotUtf8 => String::from_str(alloc, "body is not UTF-8")?,
        JsonFault::Syntax { at } => format!(in alloc; "body is not JSON at byte {at}")?,
        JsonFault::Deep { at } => format!(in alloc; "body is nested too deep at byte {at}")?,
        JsonFault::Repeated { again, .. } => {
            format!(in alloc; "body has a name twice at byte {again}")?
        }
        JsonFault::Many { at } => format!(in alloc; "body has too many members at byte {at}")?,
        JsonFault::Memory => return Err(NoMemory),
    };
    Ok(text)
}

fn list_name(alloc: Global, list: u16) -> Result<String, NoMemory>
    ensures { IfOk result (λ s. string_bytes s ≡ list_name list) }
{
    if list == 0 {
        Ok(String::from_str(alloc, "alwaysMatch")?)
    } else {
        let entry = list - 1;
        Ok(format!(in alloc; "firstMatch {entry}")?)
    }
}

fn bad_member_text(alloc: Global, list: u16, name: &str) -> Result<String, NoMemory>
    ensures { IfOk result (λ s. string_bytes s ≡ caps_fault_text (caps.BadMember list name.now)) }
{
    let list = list_name(alloc, list)?;
    Ok(format!(in alloc; "{list}: {name} is refused")?)
}

fn clash_text(alloc: Global, entry: u16, name: &str) -> Result<String, NoMemory>
    ensures { IfOk result (λ s. string_bytes s ≡ caps_fault_text (caps.Clash entry name.now)) }
{
    Ok(format!(in alloc; "firstMatch {entry}: {name} stands in alwaysMatch too")?)
}

fn bad_list_text(alloc: Global, list: u16) -> Result<String, NoMemory>
    ensures { IfOk result (λ s. string_bytes s ≡ caps_fault_text (caps.BadList list)) }
{
    let list = list_name(alloc, list)?;
    Ok(format!(in alloc; "{list} is not an object")?)
}

/// Why the body of a New Session is refused.
pub fn caps_fault_text(alloc: Global, fault: &CapsFault) -> Result<String, NoMemory>
    ensures { IfOk result (λ s. string_bytes s ≡ caps_fault_text fault.now) }
{
    let text = match fault {
        CapsFault::NotJson(fault) => return json_fault_text(alloc, fault),
        CapsFault::NoCapabilities => String::from_str(alloc, "capabilities is not an object")?,
        CapsFault::BadFirstMatch => {
            String::from_str(alloc, "firstMatch is not a list with an entry")?
        }
        CapsFault::BadMember { list, name } => {
            return bad_member_text(alloc, *list, name.as_str());
        }
        CapsFault::Clash { entry, name } => return clash_text(alloc, *entry, name.as_str()),
        CapsFault::TooMany { count } => format!(in alloc; "firstMatch has {count} entries")?,
        CapsFault::TooLarge { bytes } => format!(in alloc; "capabilities take {bytes} bytes")?,
        CapsFault::BadList { list } => return bad_list_text(alloc, *list),
        CapsFault::Memory => return Err(NoMemory),
    };
    Ok(text)
}

fn field_word(field: RegField) -> &'static str
    ensures { result.now ≡ field_word field }
{
    match field {
        RegField::Body => "body",
        RegField::Name => "name",
        RegField::Address => "address",
        RegField::MaxSessions => "maxSessions",
        RegField::DrainAfter => "drainAfter",
        RegField::Slots => "slots",
        RegField::Count => "count",
        RegField::Stereotype => "stereotype",
    }
}

fn bad_field_text(alloc: Global, kind: &str, field: RegField) -> Result<String, NoMemory>
    ensures { IfOk result (λ s.
        string_bytes s ≡ reg_fault_text kind.now (reg.BadField field)) }
{
    let word = field_word(field);
    Ok(format!(in alloc; "{kind}: {word} is refused")?)
}

fn large_text(alloc: Global, kind: &str, bytes: u64) -> Result<String, NoMemory>
    ensures { IfOk result (λ s.
        string_bytes s ≡ reg_fault_text kind.now (reg.TooLarge bytes)) }
{
    Ok(format!(in alloc; "{kind} takes {bytes} bytes")?)
}

/// Why a body of this kind, a registration or a beat, is refused.
pub fn reg_fault_text(alloc: Global, kind: &str, fault: &RegFault) -> Result<String, NoMemory>
    ensures { IfOk result (λ s. string_bytes s ≡ reg_fault_text kind.now fault.now) }
{
    match fault {
        RegFault::NotJson(fault) => json_fault_text(alloc, fault),
        RegFault::BadField(field) => bad_field_text(alloc, kind, *field),
        RegFault::TooLarge { bytes } => large_text(alloc, kind, *bytes),
        RegFault::Memory => Err(NoMemory),
    }
}

/// Why a start failed.
pub fn why_text(why: &FailWhy) -> &str
    ensures { result.now ≡ why_text why.now }
{
    match why {
        FailWhy::NodeRefused(words) => words.as_str(),
        FailWhy::Unreachable => NODE_UNREACHABLE,
        FailWhy::NotHttp => NODE_NOT_HTTP,
        FailWhy::BadReply => "node's reply names no session",
        FailWhy::Mismatch => "node's capabilities do not match",
        FailWhy::NodeGone => "node is gone",
        FailWhy::Duplicate => "node's session id is in use",
        // Settles no request.
        FailWhy::Late => "",
        FailWhy::NoMemory => "hub had no memory",
    }
}
