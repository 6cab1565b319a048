//! The page.
ghost use Rattle.std.specs.Prelude.{◌≡◌, IfOk};
ghost use Rattle.grid_farm.specs.Known.{known};
ghost use Rattle.grid_page.specs.Page.{front, page};

use crate::nodes::{put_node_table, put_wait_table};
use crate::parts::{END, FRONT, NODES, SECONDS, SESSIONS, WAITING};
use crate::picture::put_picture;
use grid_farm::KnownFarm;
use grid_types::NoMemory;
use std::alloc::Global;
use text_sheet::Sheet;

/// How much there is, and how far the journal goes.
fn front(alloc: Global, farm: &KnownFarm) -> Result<Sheet, NoMemory>
    ensures { IfOk result (λ sheet. sheet.bytes.items ≡ front (known farm.now)) }
{
    let mut sheet = Sheet::new(alloc);
    sheet.text(FRONT)?;
    sheet.number(farm.past.sessions().len() as u64)?;
    sheet.text(SESSIONS)?;
    sheet.number(farm.waiting())?;
    sheet.text(WAITING)?;
    sheet.number(farm.past.nodes().len() as u64)?;
    sheet.text(NODES)?;
    sheet.seconds(farm.at)?;
    sheet.text(SECONDS)?;
    Ok(sheet)
}

/// The page of a farm.
pub fn page(alloc: Global, farm: &KnownFarm) -> Result<Sheet, NoMemory>
    ensures { IfOk result (λ sheet. sheet.bytes.items ≡ page (known farm.now)) }
{
    let mut sheet = front(alloc, farm)?;
    put_node_table(&mut sheet, farm)?;
    put_wait_table(&mut sheet, farm)?;
    put_picture(&mut sheet, &farm.hour)?;
    sheet.text(END)?;
    Ok(sheet)
}
