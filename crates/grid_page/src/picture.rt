//! The picture of the last hour.
ghost use Rattle.std.specs.Prelude.{◌≡◌, OnOk};
ghost use Rattle.grid_farm.specs.Known.{told_hour};
ghost use Rattle.grid_page.specs.Hour.{with_bar, with_bars, with_begin, with_line, with_picture, with_step, with_steps};

use crate::hour::{Frame, first_row, frame_of, height_of, left_of, top_of};
use crate::parts::{
    BAR, BAR_END, BAR_HEIGHT, BAR_TOP, MOST_CREATED, PATH, PATH_END, PICTURE, SPACE, TO_RIGHT,
    UP_OR_DOWN,
};
use grid_farm::{LastHour, MinuteRow};
use grid_types::NoMemory;
use text_sheet::Sheet;

/// The bar of a minute.
fn put_bar(sheet: &mut Sheet, frame: &Frame, row: &MinuteRow) -> Result<(), NoMemory>
    ensures { OnOk result (sheet.new.bytes.items
        ≡ with_bar sheet.old.bytes.items frame.now row.now) }
{
    sheet.text(BAR)?;
    sheet.number(left_of(frame.minute, row.minute))?;
    sheet.text(BAR_TOP)?;
    sheet.number(top_of(row.created, frame.created))?;
    sheet.text(BAR_HEIGHT)?;
    sheet.number(height_of(row.created, frame.created))?;
    sheet.text(BAR_END)
}

fn put_bars(sheet: &mut Sheet, frame: &Frame, rows: &[MinuteRow]) -> Result<(), NoMemory>
    ensures { OnOk result (sheet.new.bytes.items
        ≡ with_bars sheet.old.bytes.items frame.now rows.now) }
{
    for row in rows {
        put_bar(sheet, frame, row)?;
    }
    Ok(())
}

/// The line goes on to a minute, and then up or down.
fn put_step(sheet: &mut Sheet, frame: &Frame, row: &MinuteRow) -> Result<(), NoMemory>
    ensures { OnOk result (sheet.new.bytes.items
        ≡ with_step sheet.old.bytes.items frame.now row.now) }
{
    sheet.text(TO_RIGHT)?;
    sheet.number(left_of(frame.minute, row.minute))?;
    sheet.text(UP_OR_DOWN)?;
    sheet.number(top_of(row.unsettled, frame.unsettled))
}

fn put_steps(sheet: &mut Sheet, frame: &Frame, rows: &[MinuteRow]) -> Result<(), NoMemory>
    ensures { OnOk result (sheet.new.bytes.items
        ≡ with_steps sheet.old.bytes.items frame.now rows.now) }
{
    for row in rows {
        put_step(sheet, frame, row)?;
    }
    Ok(())
}

/// The line begins at a minute.
fn put_begin(sheet: &mut Sheet, frame: &Frame, row: &MinuteRow) -> Result<(), NoMemory>
    ensures { OnOk result (sheet.new.bytes.items
        ≡ with_begin sheet.old.bytes.items frame.now row.now) }
{
    sheet.text(PATH)?;
    sheet.number(left_of(frame.minute, row.minute))?;
    sheet.text(SPACE)?;
    sheet.number(top_of(row.unsettled, frame.unsettled))
}

fn put_line(sheet: &mut Sheet, frame: &Frame, hour: &LastHour) -> Result<(), NoMemory>
    ensures { OnOk result (sheet.new.bytes.items
        ≡ with_line sheet.old.bytes.items frame.now (told_hour hour.now)) }
{
    put_begin(sheet, frame, &first_row(hour))?;
    put_steps(sheet, frame, hour.earlier.as_slice())?;
    put_step(sheet, frame, &hour.last)
}

/// The picture, and what it shows.
pub(crate) fn put_picture(sheet: &mut Sheet, hour: &LastHour) -> Result<(), NoMemory>
    ensures { OnOk result (sheet.new.bytes.items
        ≡ with_picture sheet.old.bytes.items (told_hour hour.now)) }
{
    let frame = frame_of(hour);
    sheet.text(PICTURE)?;
    put_bars(sheet, &frame, hour.earlier.as_slice())?;
    put_bar(sheet, &frame, &hour.last)?;
    put_line(sheet, &frame, hour)?;
    sheet.text(PATH_END)?;
    sheet.number(frame.created)?;
    sheet.text(MOST_CREATED)?;
    sheet.number(frame.unsettled)
}
