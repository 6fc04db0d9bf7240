//! Rooms for the parts of scans, reserved before a script is served.
ghost use Rattle.std.specs.Prelude.{All, IfOk, OnOk, true};
ghost use Rattle.ks_lines.specs.Lines.{IsServedLine};
ghost use Rattle.ks_jobs.specs.Rooms.{HaveRooms, IsReserved};

use ks_lines::{Line, Part};
use ks_script::Calls;
use std::alloc::{AllocError, Global};

/// Reserves a room for the line, if it is a scan.
fn reserve(alloc: Global, line: Line, rooms: &mut Vec<Vec<Part>>) -> Result<(), AllocError>
    ensures { OnOk result (IsReserved line rooms.old.items rooms.new.items) }
{
    match line {
        Line::Call(_) => Ok(()),
        Line::Scan(_, _, most) => {
            let room = Vec::with_capacity(alloc, most as usize)?;
            rooms.push(room)?;
            Ok(())
        }
    }
}

/// A room for each scan of a script, that of the first one last.
fn rooms_for(alloc: Global, script: &Calls) -> Result<Vec<Vec<Part>>, AllocError>
    ensures { IfOk result (λ rooms. HaveRooms script.now rooms.items) }
{
    let mut rooms = Vec::new(alloc);
    let mut left = script.len();
    while left > 0 {
        left -= 1;
        reserve(alloc, script.get(left), &mut rooms)?;
    }
    Ok(rooms)
}

/// A room for each scan of a script, that of the first one last. If there are to be no scans it does not look for any.
///
/// # Errors
///
/// Only lack of memory.
pub(crate) fn rooms_if(
    alloc: Global,
    scans: bool,
    script: &Calls,
) -> Result<Vec<Vec<Part>>, AllocError>
    ensures { IfOk result (λ rooms. All (λ line. IsServedLine scans true line) script.now → HaveRooms script.now rooms.items) }
{
    if !scans {
        return Ok(Vec::new(alloc));
    }
    rooms_for(alloc, script)
}
