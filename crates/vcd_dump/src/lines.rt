ghost use Rattle.std.specs.Prelude.{◌≡◌, ◌++◌, OnOk};
ghost use Rattle.vcd_dump.specs.Dump.{unit_text, heading, time_line, time_line_after, change_text, declaration_text};

use crate::codes::Code;
use crate::unit::TimeUnit;
use logic3::Value;
use std::alloc::AllocError;
use texts::push_numbered;

/// Returns the word for a unit.
pub fn unit_text(unit: TimeUnit) -> &'static [u8]
    ensures { result.now ≡ unit_text unit }
{
    match unit {
        TimeUnit::S => b"s",
        TimeUnit::Ms => b"ms",
        TimeUnit::Us => b"us",
        TimeUnit::Ns => b"ns",
        TimeUnit::Ps => b"ps",
        TimeUnit::Fs => b"fs",
    }
}

/// Adds the line of a time.
pub fn push_time(line: &mut Vec<u8>, tick: u64) -> Result<(), AllocError>
    ensures { OnOk result (line.new.items ≡ line.old.items ++ time_line tick) }
{
    push_numbered(line, b"#", tick)?;
    line.push(b'\n')?;
    Ok(())
}

/// Adds the line of a change.
pub fn push_change(line: &mut Vec<u8>, value: Value, code: &Code) -> Result<(), AllocError>
    ensures { OnOk result (line.new.items ≡ line.old.items ++ change_text value code.now) }
{
    let len = line.len();
    // Five bytes are copied faster than as many as are needed.
    line.extend_from_slice(&code.change(value))?;
    line.truncate(len + code.len() + 2);
    Ok(())
}

/// Adds the declaration of a shown net.
pub fn push_declaration(line: &mut Vec<u8>, code: &Code, name: &[u8]) -> Result<(), AllocError>
    ensures { OnOk result (line.new.items ≡ line.old.items ++ declaration_text code.now name.now) }
{
    line.extend_from_slice(b"$var wire 1 ")?;
    line.extend_from_slice(code.as_slice())?;
    line.push(b' ')?;
    line.extend_from_slice(name)?;
    line.extend_from_slice(b" $end\n")?;
    Ok(())
}

/// Adds the line of a time, if it is later than the time before.
pub fn push_time_after(line: &mut Vec<u8>, before: u64, tick: u64) -> Result<(), AllocError>
    ensures { OnOk result (line.new.items ≡ line.old.items ++ time_line_after before tick) }
{
    if before < tick {
        push_time(line, tick)?;
    }
    Ok(())
}

/// Adds the lines before the declarations of the shown nets.
pub fn push_heading(line: &mut Vec<u8>, unit: TimeUnit) -> Result<(), AllocError>
    ensures { OnOk result (line.new.items ≡ line.old.items ++ heading unit) }
{
    line.extend_from_slice(b"$version nullsim 1 $end\n$timescale 1 ")?;
    line.extend_from_slice(unit_text(unit))?;
    line.extend_from_slice(b" $end\n$scope module top $end\n")?;
    Ok(())
}
