//! Whether a row or an entry can tell what a caller hands in: each count and each length has to fit its field of 32 bits. A
//! list of which more stood in memory can't be kept, which is want of memory.
ghost use Rattle.std.specs.Prelude.{◌≡◌, OnOk};
ghost use Rattle.grid_journal.specs.Fits.{AddressFits, AllFit, CapFits, CapsFit, ChoicesFit, FitsFour, GroupFits, GroupsFit, OptionFits, RegistrationFits, SessionFits, TextFits, ValueFits, WhyFits};

use grid_types::{
    Cap, CapValue, Caps, Choices, FailWhy, Groups, NoMemory, NodeAddress, Registration, SessionId,
    SlotGroup, Text,
};

/// The greatest count that is told.
const MOST_COUNT: usize = 4_294_967_295;

fn count_fits(count: usize) -> Result<(), NoMemory>
    ensures { OnOk result (FitsFour count) }
{
    if count > MOST_COUNT {
        return Err(NoMemory);
    }
    Ok(())
}

fn text_fits(text: &Text) -> Result<(), NoMemory>
    ensures { OnOk result (TextFits text.now) }
{
    count_fits(text.as_str().len())
}

fn value_fits(value: &CapValue) -> Result<(), NoMemory>
    ensures { OnOk result (ValueFits value.now) }
{
    match value {
        CapValue::Text(text) => text_fits(text),
        CapValue::Flag(_) => Ok(()),
        CapValue::Raw(text) => text_fits(text),
    }
}

fn cap_fits(cap: &Cap) -> Result<(), NoMemory>
    ensures { OnOk result (CapFits cap.now) }
{
    text_fits(&cap.name)?;
    value_fits(&cap.value)
}

fn members_fit(members: &[Cap]) -> Result<(), NoMemory>
    ensures { OnOk result (AllFit CapFits members.now) }
{
    for cap in members {
        cap_fits(cap)?;
    }
    Ok(())
}

/// The members and their texts are no more than can be told. Err: they are.
pub fn caps_fit(caps: &Caps) -> Result<(), NoMemory>
    ensures { OnOk result (CapsFit caps.now) }
{
    count_fits(caps.items().len())?;
    members_fit(caps.items())
}

fn lists_fit(lists: &[Caps]) -> Result<(), NoMemory>
    ensures { OnOk result (AllFit CapsFit lists.now) }
{
    for caps in lists {
        caps_fit(caps)?;
    }
    Ok(())
}

/// The choices, their members and texts are no more than can be told. Err: they are.
pub fn choices_fit(choices: &Choices) -> Result<(), NoMemory>
    ensures { OnOk result (ChoicesFit choices.now) }
{
    lists_fit(choices.items())
}

fn group_fits(group: &SlotGroup) -> Result<(), NoMemory>
    ensures { OnOk result (GroupFits group.now) }
{
    let _count = group.count;
    caps_fit(&group.stereotype)
}

fn each_group_fits(groups: &[SlotGroup]) -> Result<(), NoMemory>
    ensures { OnOk result (AllFit GroupFits groups.now) }
{
    for group in groups {
        group_fits(group)?;
    }
    Ok(())
}

fn groups_fit(groups: &Groups) -> Result<(), NoMemory>
    ensures { OnOk result (GroupsFit groups.now) }
{
    count_fits(groups.items().len())?;
    each_group_fits(groups.items())
}

/// An address has the size that can be told.
fn address_fits(address: &NodeAddress)
    ensures { AddressFits address.now }
{
    let _bytes = address.as_bytes();
}

/// A count to drain after is a u32.
fn drain_count_fits(count: Option<u32>)
    ensures { OptionFits FitsFour count }
{
    if let Some(count) = count {
        let _number = count;
    }
}

/// The node's groups and texts are no more than can be told. Err: they are.
pub fn registration_fits(node: &Registration) -> Result<(), NoMemory>
    ensures { OnOk result (RegistrationFits node.now) }
{
    address_fits(&node.address);
    drain_count_fits(node.drain_after);
    let _sessions = node.max_sessions;
    text_fits(&node.name)?;
    groups_fit(&node.groups)
}

/// A session's id has the size that can be told.
pub fn session_fits(session: &SessionId)
    ensures { SessionFits session.now }
{
    let _bytes = session.as_bytes();
}

/// The words of a cause have the size that can be told.
pub fn why_fits(why: &FailWhy)
    ensures { WhyFits why.now }
{
    if let FailWhy::NodeRefused(words) = why {
        let _text = words.as_str();
    }
}
